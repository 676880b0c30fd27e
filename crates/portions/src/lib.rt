// The numbers of a term for another count of portions.
#![tactic(auto)]

ghost use Rattle.std.specs.Prelude.{◌<◌, ◌≡◌, [], ◌∷◌};
ghost use Rattle.rows.specs.Sizes.{rows_held};
ghost use Rattle.portions.specs.Portions.{entries_for, are_counts};
ghost use Rattle.portions.specs.Lists.{entries_at, field_entries_at, EntryFits, TermFits, FieldsFit, Wrote, Portionable, Listed};

use rows::column;
use terms::{COLUMNS, FIELD_CONS, FIELD_NIL, TERM_APP, TERM_DOT, TERM_FUN, TERM_RCD, TERM_VAR};

// The most portions that may be written or wanted.
const MOST_PORTIONS: u64 = 10_000;

// The numbers of an entry: the number, the whole grams and the remainder.
const ENTRY: usize = 3;

// Whether portions may be written and wanted in these counts: from 1 to 10,000.
pub fn are_counts(written: u64, wanted: u64) -> bool
    ensures { result ≡ are_counts written wanted }
{
    (1..=MOST_PORTIONS).contains(&written) && (1..=MOST_PORTIONS).contains(&wanted)
}

// The entry of a number, behind `at` numbers of a list; the answer is the place behind it. Where the list ends before, nothing is written.
fn entry_at(list: &mut [u64], at: usize, n: u32, written: u64, wanted: u64) -> usize
    requires { EntryFits written wanted at }
    ensures { Wrote list.old at (entries_for written wanted (n ∷ [])) result list.new }
{
    let number = u64::from(n);
    let whole = number * wanted;
    let end = at + ENTRY;
    if end <= list.len() {
        list[at] = number;
        list[at + 1] = whole / written;
        list[at + 2] = whole % written;
    }
    end
}

// The entries of the term at a row, behind `at` numbers of a list. `bound` bounds the tree's depth.
#[cycle(list_fields_list_term)]
fn list_term(
    list: &mut [u64],
    at: usize,
    cells: &&[u32],
    bound: usize,
    row: u32,
    written: u64,
    wanted: u64,
) -> usize
    requires { TermFits written wanted cells.now.now bound row at }
    ensures { Wrote list.old at (entries_at written wanted cells.now.now bound row) result list.new }
{
    if bound == 0 {
        return entry_at(list, at, 0, written, wanted);
    }
    let deep = bound - 1;
    let code = column(*cells, row, 0);
    let first = column(*cells, row, 1);
    let last = column(*cells, row, 2);
    match code {
        TERM_VAR => at,
        TERM_FUN => list_term(list, at, cells, deep, last, written, wanted),
        TERM_APP => {
            let behind = list_term(list, at, cells, deep, first, written, wanted);
            list_term(list, behind, cells, deep, last, written, wanted)
        }
        TERM_RCD => list_fields(list, at, cells, deep, first, written, wanted),
        TERM_DOT => list_term(list, at, cells, deep, first, written, wanted),
        FIELD_NIL => entry_at(list, at, 0, written, wanted),
        FIELD_CONS => entry_at(list, at, 0, written, wanted),
        _ => entry_at(list, at, first, written, wanted),
    }
}

// The same of the field list at a row.
#[cycle(list_fields_list_term)]
fn list_fields(
    list: &mut [u64],
    at: usize,
    cells: &&[u32],
    bound: usize,
    row: u32,
    written: u64,
    wanted: u64,
) -> usize
    requires { FieldsFit written wanted cells.now.now bound row at }
    ensures { Wrote list.old at (field_entries_at written wanted cells.now.now bound row) result list.new }
{
    if bound == 0 {
        return at;
    }
    let deep = bound - 1;
    let code = column(*cells, row, 0);
    if code == FIELD_CONS {
        let part = column(*cells, row, 2);
        let rest = column(*cells, row, 3);
        let behind = list_term(list, at, cells, deep, part, written, wanted);
        return list_fields(list, behind, cells, deep, rest, written, wanted);
    }
    at
}

// The entries of the term at a row, at the front of a list, if they fit; the answer is how many numbers they are. They are counted first, by the walk that
// finds no room for them.
pub fn list_portions(cells: &[u32], root: u32, written: u64, wanted: u64, list: &mut [u64]) -> usize
    requires { Portionable written wanted cells.now root }
    ensures { Listed (entries_at written wanted cells.now (rows_held cells.now) root) list.old list.new result }
{
    let made = cells.len() / COLUMNS;
    let needed = list_term(&mut [], 0, &cells, made, root, written, wanted);
    if list.len() < needed {
        return needed;
    }
    list_term(list, 0, &cells, made, root, written, wanted)
}
