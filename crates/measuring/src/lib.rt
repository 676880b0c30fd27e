// The length of the text of a term, found without the text.
#![tactic(auto)]

ghost use Rattle.std.specs.Prelude.{◌≡◌, length};
ghost use Rattle.spellings.specs.Bytes.{decimal};
ghost use Rattle.rows.specs.Sizes.{size_at, size_fields_at};
ghost use Rattle.writer.specs.Pool.{spell_in};
ghost use Rattle.writer.specs.Beginnings.{name_text};
ghost use Rattle.measuring.specs.Lengths.{term_length, fields_length, TermMeasurable, FieldsMeasurable, Measured};

use rows::column;
use spellings::write_decimal;
use terms::{
    FIELD_CONS, FIELD_NIL, FRESH_CLASS, NAME_BASE, TERM_APP, TERM_DOT, TERM_FUN, TERM_RCD, TERM_VAR,
};
use writer::pool::spelling;

pub mod by_rows;

// The digits of a number, counted by the writer that finds no room for them.
fn number_length(n: u32) -> usize
    ensures { result ≡ length (decimal n) }
{
    write_decimal(&mut [], n)
}

// A label.
fn label_length(pool: &&[u8], l: u32) -> usize
    ensures { result ≡ length (spell_in pool.now.now l) }
{
    spelling(*pool, l).len()
}

// A name, by its value and the number of its new name.
fn name_length(pool: &&[u8], x: u32, shown: u16) -> usize
    ensures { result ≡ length (name_text pool.now.now x shown) }
{
    if 0 < shown {
        return 1 + number_length(u32::from(shown));
    }
    if x / NAME_BASE == FRESH_CLASS {
        return 2;
    }
    label_length(pool, x % NAME_BASE)
}

// The length of the text of the term at a row. `place` moves on by its constructors.
#[cycle(length_fields_length_term)]
fn length_term(
    pool: &&[u8],
    cells: &&[u32],
    shown: &&[u16],
    bound: usize,
    row: u32,
    place: &mut usize,
) -> usize
    requires { TermMeasurable pool.now.now cells.now.now shown.now.now bound row place.old }
    ensures { Measured (term_length pool.now.now cells.now.now shown.now.now bound row place.old)
        (size_at cells.now.now bound row) place.old result place.new }
{
    let here = *place;
    *place = here + 1;
    if bound == 0 {
        return 12;
    }
    let deep = bound - 1;
    let code = column(*cells, row, 0);
    let first = column(*cells, row, 1);
    let last = column(*cells, row, 2);
    match code {
        TERM_VAR => 11 + name_length(pool, first, shown[here]),
        TERM_FUN => {
            let name = name_length(pool, first, shown[here]);
            12 + name + length_term(pool, cells, shown, deep, last, place)
        }
        TERM_APP => {
            let function = length_term(pool, cells, shown, deep, first, place);
            12 + function + length_term(pool, cells, shown, deep, last, place)
        }
        TERM_RCD => 11 + length_fields(pool, cells, shown, deep, first, place),
        TERM_DOT => {
            let term = length_term(pool, cells, shown, deep, first, place);
            12 + term + label_length(pool, last)
        }
        FIELD_NIL => 12,
        FIELD_CONS => 12,
        _ => 11 + number_length(first),
    }
}

// The same of the field list at a row.
#[cycle(length_fields_length_term)]
fn length_fields(
    pool: &&[u8],
    cells: &&[u32],
    shown: &&[u16],
    bound: usize,
    row: u32,
    place: &mut usize,
) -> usize
    requires { FieldsMeasurable pool.now.now cells.now.now shown.now.now bound row place.old }
    ensures { Measured (fields_length pool.now.now cells.now.now shown.now.now bound row place.old)
        (size_fields_at cells.now.now bound row) place.old result place.new }
{
    let here = *place;
    *place = here + 1;
    if bound == 0 {
        return 12;
    }
    let deep = bound - 1;
    let code = column(*cells, row, 0);
    if code == FIELD_CONS {
        let label = label_length(pool, column(*cells, row, 1));
        let part = column(*cells, row, 2);
        let rest = column(*cells, row, 3);
        let term = length_term(pool, cells, shown, deep, part, place);
        return 15 + label + term + length_fields(pool, cells, shown, deep, rest, place);
    }
    12
}
