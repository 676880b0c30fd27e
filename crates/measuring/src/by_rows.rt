// The length of a text by one pass over the rows, where no name is new: the own bytes of each row, added up over the tree. A part that is used often is
// looked at once.
ghost use Rattle.std.specs.Prelude.{◌+◌, ◌<◌, ◌≤◌, ◌≡◌, length};
ghost use mathlib.Core.List.{foldr};
ghost use Rattle.terms.specs.Cells.{most_cells};
ghost use Rattle.terms.specs.Term.{largest_term};
ghost use Rattle.measuring.specs.Lengths.{term_length};
ghost use Rattle.measuring.specs.OwnLengths.{own_length, Weighable, OwnLengths, Unnumbered, TextMeasurable};

use crate::{label_length, length_term, name_length, number_length};
use rows::sums::total_at;
use rows::{FEW_ROWS, column};
use terms::{
    FIELD_CONS, FIELD_NIL, LARGEST_TERM, TERM_APP, TERM_DOT, TERM_FUN, TERM_RCD, TERM_VAR,
};

// No text that can be measured is longer.
const LONGEST_TEXT: u32 = 0x3FFF_FFFF;

// A pass takes more time for a row than a walk for a constructor. It is made where the term has more than so many times as many constructors as there are
// rows.
const SHARED: usize = 4;

// Such a term has fewer rows.
const MOST_SHARED: usize = LARGEST_TERM / SHARED;

// The own bytes of a row, where no name is new.
fn own_length(pool: &[u8], cells: &[u32], row: u32) -> usize
    requires { Weighable pool.now cells.now }
    ensures { result ≡ own_length pool.now cells.now row }
{
    let code = column(cells, row, 0);
    let first = column(cells, row, 1);
    match code {
        TERM_VAR => 11 + name_length(&pool, first, 0),
        TERM_FUN => 12 + name_length(&pool, first, 0),
        TERM_APP => 12,
        TERM_RCD => 11,
        TERM_DOT => 12 + label_length(&pool, column(cells, row, 2)),
        FIELD_NIL => 12,
        FIELD_CONS => 15 + label_length(&pool, first),
        _ => 11 + number_length(first),
    }
}

// A room with the own bytes of each row that it has a place for.
fn weigh(pool: &[u8], cells: &[u32], weights: &mut [u32])
    requires weighable { Weighable pool.now cells.now }
    requires weights_len_bound { length weights.old ≤ most_cells }
    ensures { OwnLengths pool.now cells.now weights.old weights.new }
{
    for row in 0..weights.len() {
        weights[row] = own_length(pool, cells, row as u32) as u32;
    }
}

// The sum of the numbers of new names: 0 where no name is new.
fn numbers_sum(shown: &[u16]) -> u32
    requires { length shown.now ≤ largest_term }
    ensures { result ≡ foldr ◌+◌ 0 shown.now }
{
    let mut sum: u32 = 0;
    for number in shown {
        sum += u32::from(*number);
    }
    sum
}

// The length by a walk from the first place on.
fn length_by_walk(pool: &[u8], cells: &[u32], shown: &[u16], made: usize, root: u32) -> usize
    requires { TextMeasurable pool.now cells.now shown.now made root }
    ensures { result ≡ term_length pool.now cells.now shown.now made root 0 }
{
    let mut place: usize = 0;
    length_term(&pool, &cells, &shown, made, root, &mut place)
}

// The length by a pass over as many rows as a room has places for. Rows that are not in order are walked.
fn length_by_rows(
    pool: &[u8],
    cells: &[u32],
    shown: &[u16],
    root: u32,
    weights: &mut [u32],
) -> usize
    requires text_measurable { TextMeasurable pool.now cells.now shown.now (length weights.old) root }
    requires unnumbered { Unnumbered shown.now }
    requires weights_len_bound { length weights.old ≤ most_cells }
    ensures { result ≡ term_length pool.now cells.now shown.now (length weights.old) root 0 }
{
    let made = weights.len();
    weigh(pool, cells, weights);
    match total_at(cells, root, LONGEST_TEXT, weights) {
        Some(sum) => sum as usize,
        None => length_by_walk(pool, cells, shown, made, root),
    }
}

// The same with a room for so many rows. Each room has a frame of its own, so that a caller's frame stays without it.
#[inline(never)]
fn length_in_room<const ROOM: usize>(
    pool: &[u8],
    cells: &[u32],
    shown: &[u16],
    made: usize,
    root: u32,
) -> usize
    requires text_measurable { TextMeasurable pool.now cells.now shown.now made root }
    requires unnumbered { Unnumbered shown.now }
    requires room { (made ≤ ROOM) × (ROOM ≤ most_cells) }
    ensures { result ≡ term_length pool.now cells.now shown.now made root 0 }
{
    let mut weights = [0u32; ROOM];
    length_by_rows(pool, cells, shown, root, &mut weights[..made])
}

// The length of the text of the term at a row: by a pass over the rows where parts of it are used often and no name is new, else by a walk. Where it has but
// a few times as many constructors as there are rows, a walk takes no longer than a pass; where a name is new, a part's length depends on its place.
pub fn text_length(pool: &[u8], cells: &[u32], shown: &[u16], made: usize, root: u32) -> usize
    requires { TextMeasurable pool.now cells.now shown.now made root }
    ensures { result ≡ term_length pool.now cells.now shown.now made root 0 }
{
    if shown.len() / SHARED <= made {
        return length_by_walk(pool, cells, shown, made, root);
    }
    if 0 < numbers_sum(shown) {
        return length_by_walk(pool, cells, shown, made, root);
    }
    if made <= FEW_ROWS {
        return length_in_room::<FEW_ROWS>(pool, cells, shown, made, root);
    }
    length_in_room::<MOST_SHARED>(pool, cells, shown, made, root)
}
