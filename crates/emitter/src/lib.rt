// The last step of an expansion: what is judged of its term, refusals 22 and 23, and what is written of a term that passes: refusal 24, or its text, or its
// portions.
#![tactic(auto)]

ghost use Rattle.std.specs.Prelude.{◌≤◌, ◌≡◌, length};
ghost use Rattle.terms.specs.Term.{largest_term};
ghost use Rattle.terms.specs.Emit.{fitted};
ghost use Rattle.rows.specs.Sizes.{rows_held, size_at};
ghost use Rattle.writer.specs.Pool.{spelled_by};
ghost use Rattle.printer.specs.Printed.{text_by, Printable};
ghost use Rattle.portions.specs.Lists.{entries_at, Portionable};
ghost use Rattle.emitter.specs.Emittable.{term_of, Emittable, Sized, Markable, Judged, answer_by};
ghost use Rattle.emitter.specs.Writing.{Writable, Emits};

use answers::causes::Cause;
use answers::{Accepted, Answer, Verdict};
use portions::list_portions;
use printer::print_text;
use resolver::resolve;
use rows::sizes::size_at;
use terms::{COLUMNS, LARGEST_TERM};

// What is written of a term: its text, or its numbers for a count of portions written and one wanted.
#[derive(Drop)]
pub enum Writing {
    Text,
    Portions(u64, u64),
}

// The term of a formula: how many words the formula has, the row of the root, and the constructors, cut off behind the largest term.
#[derive(Drop)]
pub struct Whole {
    pub count: usize,
    pub root: u32,
    pub size: usize,
}

// Constructors for which a shorter room is lent.
const SMALL_TERM: usize = 256;

// What is judged of the term at a row, whatever is then to be written of it: its size, then its names. `size` is cut off behind the largest term, and `marks`
// has a place for each constructor of a term that is not larger; where the term passes, it has the number of each new name at its place.
fn judge(cells: &[u32], root: u32, size: usize, marks: &mut &mut [u16]) -> Verdict
    requires { Markable cells.now root size marks.old.now }
    ensures { Judged cells.now root marks.old.now marks.new.now result }
{
    let made = cells.len() / COLUMNS;
    if LARGEST_TERM < size {
        return Err(Cause::TermTooLarge.refuse(made as u64, 0, 0));
    }
    match resolve(cells, made, root, marks) {
        Ok(()) => Ok(()),
        Err(p) => Err(Cause::LooseFreshVariable.refuse(p as u64, 0, 0)),
    }
}

// The answer where so many bytes, or numbers of a list, are to go into a room.
fn answered(made: usize, size: usize, needed: usize, room: usize) -> Answer
    ensures { result ≡ answer_by made size needed room }
{
    if room < needed {
        return Err(Cause::TextTooLong.refuse(needed as u64, 0, 0));
    }
    Ok(Accepted {
        cells: made,
        constructors: size,
        length: needed,
    })
}

// What is written of the term at a row, with the number of each new name at its place: its text, if it fits.
fn write_text(
    table: &[u8],
    formula: &[u8],
    words: &[u32],
    count: usize,
    cells: &[u32],
    root: u32,
    marks: &mut [u16],
    text: &mut [u8],
) -> Answer
    requires { Printable table.now formula.now words.now count cells.now (rows_held cells.now) root marks.old }
    ensures { fitted (rows_held cells.now) (length marks.old)
        (text_by (spelled_by table.now formula.now words.now count) cells.now marks.old
        (rows_held cells.now) root)
        text.old ≡ record { answer = result; text = text.new } }
{
    let made = cells.len() / COLUMNS;
    let size = marks.len();
    let room = text.len();
    let needed = print_text(table, formula, words, count, cells, made, root, marks, text);
    answered(made, size, needed, room)
}

// The numbers of the term at a row for another count of portions, if they fit.
fn write_portions(
    cells: &[u32],
    root: u32,
    size: usize,
    written: u64,
    wanted: u64,
    list: &mut [u64],
) -> Answer
    requires { Portionable written wanted cells.now root }
    ensures { fitted (rows_held cells.now) size (entries_at written wanted cells.now (rows_held cells.now) root)
        list.old ≡ record { answer = result; text = list.new } }
{
    let made = cells.len() / COLUMNS;
    let room = list.len();
    let needed = list_portions(cells, root, written, wanted, list);
    answered(made, size, needed, room)
}

// The last step with a room for marks: the term is judged, and what is written of one that passes is chosen here.
fn emit_in(
    table: &[u8],
    formula: &[u8],
    words: &[u32],
    cells: &[u32],
    whole: Whole,
    marks: &mut &mut [u16],
    writing: Writing,
    text: &mut [u8],
    list: &mut [u64],
) -> Answer
    requires emittable { Emittable table.now formula.now words.now whole.count cells.now whole.root }
    requires markable { Markable cells.now whole.root whole.size marks.old.now }
    requires writable { Writable writing }
    ensures { Emits writing (rows_held cells.now)
        (term_of table.now formula.now words.now whole.count cells.now whole.root)
        text.old list.old result text.new list.new }
{
    let root = whole.root;
    let size = whole.size;
    judge(cells, root, size, marks)?;
    match writing {
        Writing::Text => write_text(
            table,
            formula,
            words,
            whole.count,
            cells,
            root,
            *marks,
            text,
        ),
        Writing::Portions(written, wanted) => write_portions(
            cells, root, size, written, wanted, list,
        ),
    }
}

// The last step for a term for whose constructors a room has a mark each. The room is in no frame but this function's.
#[inline(never)]
fn emit_with<const ROOM: usize>(
    table: &[u8],
    formula: &[u8],
    words: &[u32],
    cells: &[u32],
    whole: Whole,
    writing: Writing,
    text: &mut [u8],
    list: &mut [u64],
) -> Answer
    requires emittable { Emittable table.now formula.now words.now whole.count cells.now whole.root }
    requires sized { Sized cells.now whole.root whole.size }
    requires roomy { (whole.size ≤ ROOM) × (ROOM ≤ largest_term) }
    requires writable { Writable writing }
    ensures { Emits writing (rows_held cells.now)
        (term_of table.now formula.now words.now whole.count cells.now whole.root)
        text.old list.old result text.new list.new }
{
    let size = whole.size;
    let mut marks = [0u16; ROOM];
    let mut room = &mut marks[..size];
    emit_in(
        table, formula, words, cells, whole, &mut room, writing, text, list,
    )
}

// Refusals 22, 23 and 24, or what is written of the term at a row, at the front of `text` or `list`, whichever it goes into; the other stays as it was.
// `cells` are the rows made; `words` has the offset and the length of each of the formula's `count` words. On a refusal both are as they were; what lies behind
// what is written is as before.
pub fn emit(
    table: &[u8],
    formula: &[u8],
    words: &[u32],
    count: usize,
    cells: &[u32],
    root: u32,
    writing: Writing,
    text: &mut [u8],
    list: &mut [u64],
) -> Answer
    requires emittable { Emittable table.now formula.now words.now count cells.now root }
    requires writable { Writable writing }
    ensures { Emits writing (rows_held cells.now)
        (term_of table.now formula.now words.now count cells.now root)
        text.old list.old result text.new list.new }
{
    let size = size_at(cells, root);
    let whole = Whole { count, root, size };
    if size <= SMALL_TERM {
        return emit_with::<SMALL_TERM>(table, formula, words, cells, whole, writing, text, list);
    }
    if size <= LARGEST_TERM {
        return emit_with::<LARGEST_TERM>(table, formula, words, cells, whole, writing, text, list);
    }
    let mut none = [0u16; 1];
    let mut room = &mut none[..0];
    emit_in(
        table, formula, words, cells, whole, &mut room, writing, text, list,
    )
}
