// The number of constructors of the tree at a row: counted while some are left, or told by a pass over the rows.
ghost use Rattle.std.specs.Prelude.{◌-◌, ◌≤◌, ◌≡◌, length};
ghost use Rattle.terms.specs.Cells.{most_cells};
ghost use Rattle.rows.specs.Sizes.{rows_held, size_at, size_fields_at, cut_size, FirstCount, Ones};

use crate::sums::total_at;
use crate::{FEW_ROWS, column};
use terms::{COLUMNS, FIELD_CONS, LARGEST_TERM, TERM_APP, TERM_DOT, TERM_FUN, TERM_RCD};

// One constructor more than a term may have.
const MOST_BOUND: usize = LARGEST_TERM + 1;

// What is left of `left` constructors without those of the term at a row; 0 if it has more. `bound` bounds the tree's depth.
#[cycle(size_fields_size_term)]
fn size_term(cells: &&[u32], bound: usize, row: u32, left: usize) -> usize
    ensures { result ≡ left - size_at cells.now.now bound row }
{
    if left == 0 {
        return 0;
    }
    let rest = left - 1;
    if bound == 0 {
        return rest;
    }
    let deep = bound - 1;
    let code = column(*cells, row, 0);
    match code {
        TERM_FUN => size_term(cells, deep, column(*cells, row, 2), rest),
        TERM_APP => {
            let behind = size_term(cells, deep, column(*cells, row, 1), rest);
            size_term(cells, deep, column(*cells, row, 2), behind)
        }
        TERM_RCD => size_fields(cells, deep, column(*cells, row, 1), rest),
        TERM_DOT => size_term(cells, deep, column(*cells, row, 1), rest),
        _ => rest,
    }
}

// The same of the field list at a row.
#[cycle(size_fields_size_term)]
fn size_fields(cells: &&[u32], bound: usize, row: u32, left: usize) -> usize
    ensures { result ≡ left - size_fields_at cells.now.now bound row }
{
    if left == 0 {
        return 0;
    }
    let rest = left - 1;
    if bound == 0 {
        return rest;
    }
    let deep = bound - 1;
    let code = column(*cells, row, 0);
    if code == FIELD_CONS {
        let behind = size_term(cells, deep, column(*cells, row, 2), rest);
        return size_fields(cells, deep, column(*cells, row, 3), behind);
    }
    rest
}

// For so many rows and more, all constructors that a term may have are counted at once.
const MANY_ROWS: usize = 8_000;

// How many constructors are counted before the rows are looked at: twice as many as there are rows, and some more. Without shared parts a
// term has no more constructors than rows.
fn first_count(made: usize) -> usize
    ensures { FirstCount made result }
{
    if made < MANY_ROWS {
        2 * made + 64
    } else {
        MOST_BOUND
    }
}

// The size of the tree at a row, where each row weighs 1 in a room. Rows that are not in order are walked.
fn size_by_rows(cells: &[u32], root: u32, ones: &mut [u32]) -> usize
    requires { Ones ones.old }
    ensures { result ≡ cut_size cells.now (length ones.old) root }
{
    let made = ones.len();
    match total_at(cells, root, MOST_BOUND as u32, ones) {
        Some(size) => size as usize,
        None => MOST_BOUND - size_term(&cells, made, root, MOST_BOUND),
    }
}

// The same with a room for so many rows. Each room has a frame of its own, so that a caller's frame stays without it.
#[inline(never)]
fn size_in_room<const ROOM: usize>(cells: &[u32], made: usize, root: u32) -> usize
    requires { (made ≤ ROOM) × (ROOM ≤ most_cells) }
    ensures { result ≡ cut_size cells.now made root }
{
    let mut ones = [1u32; ROOM];
    size_by_rows(cells, root, &mut ones[..made])
}

// The number of constructors of the tree at a row, cut off behind the largest term. A term that goes on behind the first count has shared parts; a pass over
// the rows then tells its size, so that a few rows are not walked thousands of times.
pub fn size_at(cells: &[u32], root: u32) -> usize
    ensures { result ≡ cut_size cells.now (rows_held cells.now) root }
{
    let made = cells.len() / COLUMNS;
    let count = first_count(made);
    let left = size_term(&cells, made, root, count);
    if 0 < left {
        return count - left;
    }
    if MANY_ROWS <= made {
        return MOST_BOUND;
    }
    if FEW_ROWS < made {
        return size_in_room::<MANY_ROWS>(cells, made, root);
    }
    size_in_room::<FEW_ROWS>(cells, made, root)
}
