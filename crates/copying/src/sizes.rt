// The number of constructors of a template held as rows. A part that is used often is looked at once: its size is known where it is used, as it stands in
// an earlier row.
ghost use Rattle.std.specs.Prelude.{◌-◌, ◌≤◌, ◌≡◌, length};
ghost use Rattle.terms.specs.Cells.{most_cells};
ghost use Rattle.copying.specs.RowTemplates.{is_variable_name};
ghost use Rattle.copying.specs.TemplateSizes.{part_size, is_before, are_parts, SizesRows, is_small_text};

use crate::{VARIABLE_CLASS, is_row};
use rows::sums::{Parts, parts_at, parts_sum};
use terms::{LARGEST_TERM, NAME_BASE};

fn is_variable(x: u32) -> bool
    ensures { result ≡ is_variable_name x }
{
    x / NAME_BASE == VARIABLE_CLASS
}

// What is left of `left` constructors without those of a variable or a row; 0 if it has more. `bound` bounds the depth.
fn size_part(text: &&[u32], bound: usize, x: u32, left: usize) -> usize
    ensures { result ≡ left - part_size bound text.now.now x }
{
    if is_variable(x) {
        return left;
    }
    if bound == 0 {
        return left;
    }
    if left == 0 {
        return 0;
    }
    let deep = bound - 1;
    let rest = left - 1;
    let parts = parts_at(*text, x);
    match parts {
        Parts::NoPart => rest,
        Parts::OneTerm(t) => size_part(text, deep, t, rest),
        Parts::TwoTerms(t, u) => {
            let behind = size_part(text, deep, t, rest);
            size_part(text, deep, u, behind)
        }
        Parts::OneList(f) => size_part(text, deep, f, rest),
        Parts::TermAndList(t, f) => {
            let behind = size_part(text, deep, t, rest);
            size_part(text, deep, f, behind)
        }
    }
}

// Whether a variable or a row stands before a row.
fn is_before(row: usize, x: u32) -> bool
    ensures { result ≡ is_before row x }
{
    let variable = is_variable(x);
    variable | ((x as usize) < row)
}

// Whether each part does.
fn are_parts(row: usize, parts: Parts) -> bool
    ensures { result ≡ are_parts row parts }
{
    match parts {
        Parts::NoPart => true,
        Parts::OneTerm(t) => is_before(row, t),
        Parts::TwoTerms(t, u) => is_before(row, t) & is_before(row, u),
        Parts::OneList(f) => is_before(row, f),
        Parts::TermAndList(t, f) => is_before(row, t) & is_before(row, f),
    }
}

// The sizes of the templates of all rows that a room has a place for, if the answer is that the rows are in order.
fn size_rows(text: &[u32], sizes: &mut [u32]) -> bool
    requires { length sizes.old ≤ most_cells }
    ensures { SizesRows text.now sizes.old sizes.new result }
{
    for row in 0..sizes.len() {
        let parts = parts_at(text, row as u32);
        let ordered = are_parts(row, parts);
        if !ordered {
            return false;
        }
        sizes[row] = parts_sum(sizes, parts, LARGEST_TERM as u32) + 1;
    }
    true
}

// Whether a text that reads x at a sort has no more constructors than a term may have. The room has a place for each row that the reading made. Rows that are
// not in order are walked.
pub fn is_small(text: &[u32], sort: u8, x: u32, sizes: &mut [u32]) -> bool
    requires { length sizes.old ≤ most_cells }
    ensures { result ≡ is_small_text text.now (length sizes.old) sort x }
{
    let below = is_row(sort, x);
    if below {
        let made = sizes.len();
        let ordered = size_rows(text, sizes);
        let at = x as usize;
        if ordered & (at < made) {
            return sizes[at] <= LARGEST_TERM as u32;
        }
        return 0 < size_part(&text, made, x, LARGEST_TERM + 1);
    }
    true
}
