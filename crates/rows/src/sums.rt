// Sums over the trees at rows, by one pass: a part stands in an earlier row, so that its sum is known where it is used, and a part that is used often is
// looked at once.
ghost use Rattle.std.specs.Prelude.{◌<◌, ◌+◌, min, ◌≡◌, get_or};
ghost use Rattle.terms.specs.Rows.{constructor_of};
ghost use Rattle.rows.specs.Sums.{parts_at, sum_in, is_fields, is_part_before, are_before, sum_limit, Summable, SumsRows, total_of};

use crate::column;
use terms::{FIELD_CONS, FIELD_NIL, TERM_APP, TERM_DOT, TERM_FUN, TERM_RCD};

// The rows of a constructor's parts: none, a term, two terms, a field list, or a term and a field list.
#[derive(Clone, Copy)]
pub enum Parts {
    NoPart,
    OneTerm(u32),
    TwoTerms(u32, u32),
    OneList(u32),
    TermAndList(u32, u32),
}

// The parts of a row.
pub fn parts_at(cells: &[u32], row: u32) -> Parts
    ensures { result ≡ parts_at cells.now row }
{
    let code = column(cells, row, 0);
    let first = column(cells, row, 1);
    let second = column(cells, row, 2);
    match code {
        TERM_FUN => Parts::OneTerm(second),
        TERM_APP => Parts::TwoTerms(first, second),
        TERM_RCD => Parts::OneList(first),
        TERM_DOT => Parts::OneTerm(first),
        FIELD_CONS => Parts::TermAndList(second, column(cells, row, 3)),
        _ => Parts::NoPart,
    }
}

// Whether a row of this code is a field list.
fn is_fields(code: u32) -> bool
    ensures { result ≡ is_fields (constructor_of code) }
{
    (code == FIELD_NIL) | (code == FIELD_CONS)
}

// Whether a part stands before a row, and is a field list or a term, as `fields` says.
fn is_before(cells: &[u32], row: usize, part: u32, fields: bool) -> bool
    ensures { result ≡ is_part_before cells.now row part fields }
{
    ((part as usize) < row) & (is_fields(column(cells, part, 0)) == fields)
}

// Whether each part stands before a row and is what its place asks.
fn are_before(cells: &[u32], row: usize, parts: Parts) -> bool
    ensures { result ≡ are_before cells.now row parts }
{
    match parts {
        Parts::NoPart => true,
        Parts::OneTerm(t) => is_before(cells, row, t, false),
        Parts::TwoTerms(t, u) => is_before(cells, row, t, false) & is_before(cells, row, u, false),
        Parts::OneList(f) => is_before(cells, row, f, true),
        Parts::TermAndList(t, f) => is_before(cells, row, t, false)
            & is_before(cells, row, f, true),
    }
}

// The sum at a row, cut off; what is not there reads as 0.
fn sum_at(sums: &[u32], row: u32, cap: u32) -> u32
    ensures { result ≡ min cap (get_or sums.now row 0) }
{
    let at = row as usize;
    if at < sums.len() {
        cap.min(sums[at])
    } else {
        0
    }
}

// What parts add up to, cut off.
pub fn parts_sum(sums: &[u32], parts: Parts, cap: u32) -> u32
    requires { cap < sum_limit }
    ensures { result ≡ min cap (sum_in sums.now parts) }
{
    match parts {
        Parts::NoPart => 0,
        Parts::OneTerm(t) => sum_at(sums, t, cap),
        Parts::TwoTerms(t, u) => cap.min(sum_at(sums, t, cap) + sum_at(sums, u, cap)),
        Parts::OneList(f) => sum_at(sums, f, cap),
        Parts::TermAndList(t, f) => cap.min(sum_at(sums, t, cap) + sum_at(sums, f, cap)),
    }
}

// A row's own weight and what its parts add up to, cut off.
fn row_sum(sums: &[u32], row: u32, parts: Parts, cap: u32) -> u32
    requires { cap < sum_limit }
    ensures { result ≡ min cap (get_or sums.now row 0 + sum_in sums.now parts) }
{
    cap.min(sum_at(sums, row, cap) + parts_sum(sums, parts, cap))
}

// The sums at all rows that a room has a place for. The room has the own weight of each row at the start, and at the end the sum of the weights over the
// tree at each row, cut off at `cap`, if the answer is that the rows are in order.
pub fn sum_rows(cells: &[u32], cap: u32, sums: &mut [u32]) -> bool
    requires { Summable sums.old cap }
    ensures { SumsRows cells.now cap sums.old sums.new result }
{
    for row in 0..sums.len() {
        let here = row as u32;
        let parts = parts_at(cells, here);
        let ordered = are_before(cells, row, parts);
        if !ordered {
            return false;
        }
        sums[row] = row_sum(sums, here, parts, cap);
    }
    true
}

// The sum of the weights over the tree at a row, cut off at `cap`, if the rows are in order. The room has the own weight of each row, and becomes that of the
// sums.
pub fn total_at(cells: &[u32], root: u32, cap: u32, sums: &mut [u32]) -> Option<u32>
    requires { Summable sums.old cap }
    ensures { result ≡ total_of cells.now cap sums.old root }
{
    let rows = sums.len();
    let ordered = sum_rows(cells, cap, sums);
    if ordered & is_before(cells, rows, root, false) {
        return Some(sums[root as usize]);
    }
    None
}
