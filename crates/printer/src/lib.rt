// Printing a term whose new names are numbered.
#![tactic(auto)]

ghost use Rattle.std.specs.Prelude.{◌+◌, ◌*◌, ◌≤◌, ◌≡◌, length};
ghost use Rattle.tokens.specs.Tokens.{most_tokens};
ghost use Rattle.writer.specs.Pool.{spelling_room, first_word, spelled_by};
ghost use Rattle.printing.specs.PrintedParts.{term_part, part_text, PartFits};
ghost use Rattle.measuring.specs.OwnLengths.{TextMeasurable};
ghost use Rattle.printer.specs.Printed.{text_by, Printable, PrintableBy, Prints};

use measuring::by_rows::text_length;
use printing::print_term;
use spellings::LONGEST_WORD;
use tokens::MOST_TOKENS;
use writer::pool::{OUTSIDES, SPELLING_ROOM, fill};

// The most bytes that a constructor adds to a text: mkFieldCons with a label of 31 bytes takes 46.
const LONGEST: usize = 15 + LONGEST_WORD;

// Words for which shorter rooms are lent, and those for which one between is.
const FEW_WORDS: usize = 64;

const MORE_WORDS: usize = 256;

// Rooms for the spellings of all outside names and of so many words.
const SMALL_POOL: usize = (OUTSIDES + FEW_WORDS) * SPELLING_ROOM;

const MEDIUM_POOL: usize = (OUTSIDES + MORE_WORDS) * SPELLING_ROOM;

const LARGE_POOL: usize = (OUTSIDES + MOST_TOKENS) * SPELLING_ROOM;

// The length of the text of the term at a row.
fn measure(pool: &[u8], cells: &[u32], shown: &[u16], made: usize, root: u32) -> usize
    requires { TextMeasurable pool.now cells.now shown.now made root }
    ensures { result ≡ length (part_text pool.now cells.now shown.now (term_part made root) 0) }
{
    text_length(pool, cells, shown, made, root)
}

// The text of the term at a row, at the front of a buffer that has room for it.
fn print_whole(
    pool: &[u8],
    cells: &[u32],
    shown: &[u16],
    made: usize,
    root: u32,
    text: &mut [u8],
) -> usize
    requires { PartFits pool.now cells.now shown.now (term_part made root) 0 text.old }
    ensures { Prints (part_text pool.now cells.now shown.now (term_part made root) 0) text.old
        text.new result }
{
    let mut place: usize = 0;
    print_term(text, &pool, &cells, &shown, made, root, &mut place)
}

// The text of the term at a row, at the front of a buffer, if it fits; the answer is its length. Where it could be longer than the buffer,
// it is measured first.
fn print_into(
    pool: &[u8],
    cells: &[u32],
    shown: &[u16],
    made: usize,
    root: u32,
    text: &mut [u8],
) -> usize
    requires { PrintableBy pool.now cells.now made root shown.now }
    ensures { Prints (part_text pool.now cells.now shown.now (term_part made root) 0) text.old
        text.new result }
{
    if shown.len() * LONGEST <= text.len() {
        return print_whole(pool, cells, shown, made, root, text);
    }
    let needed = measure(pool, cells, shown, made, root);
    if text.len() < needed {
        return needed;
    }
    print_whole(pool, cells, shown, made, root, text)
}

// The text by the spellings in a room of so many bytes. Each room has a frame of its own, so that a caller's frame stays without it.
#[inline(never)]
fn print_in_room<const POOL: usize>(
    table: &[u8],
    formula: &[u8],
    words: &[u32],
    count: usize,
    cells: &[u32],
    made: usize,
    root: u32,
    shown: &[u16],
    text: &mut [u8],
) -> usize
    requires printable { Printable table.now formula.now words.now count cells.now made root shown.now }
    requires room { (first_word + count) * spelling_room ≤ POOL }
    requires few { POOL ≤ (first_word + most_tokens) * spelling_room }
    ensures { Prints
        (text_by (spelled_by table.now formula.now words.now count) cells.now shown.now made root)
        text.old text.new result }
{
    let mut pool = [0u8; POOL];
    fill(table, formula, words, count, &mut pool);
    print_into(&pool, cells, shown, made, root, text)
}

// The text of the term at a row, at the front of a buffer, if it fits; the answer is its length. `shown` has the numbers of new names.
pub fn print_text(
    table: &[u8],
    formula: &[u8],
    words: &[u32],
    count: usize,
    cells: &[u32],
    made: usize,
    root: u32,
    shown: &[u16],
    text: &mut [u8],
) -> usize
    requires { Printable table.now formula.now words.now count cells.now made root shown.now }
    ensures { Prints
        (text_by (spelled_by table.now formula.now words.now count) cells.now shown.now made root)
        text.old text.new result }
{
    if count <= FEW_WORDS {
        return print_in_room::<SMALL_POOL>(
            table, formula, words, count, cells, made, root, shown, text,
        );
    }
    if count <= MORE_WORDS {
        return print_in_room::<MEDIUM_POOL>(
            table, formula, words, count, cells, made, root, shown, text,
        );
    }
    print_in_room::<LARGE_POOL>(table, formula, words, count, cells, made, root, shown, text)
}
