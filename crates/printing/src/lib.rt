// Printing: each part of the text is written at the front of what remains of the buffer, and a part of a term is a call. A text that is printed fits.
#![tactic(auto)]

ghost use Rattle.printing.specs.PrintedParts.{term_part, fields_part, PartFits, PartPrinted};

use rows::column;
use terms::{FIELD_CONS, TERM_APP, TERM_DOT, TERM_FUN, TERM_RCD};
use writer::beginnings::{begin_fields, begin_term, write_label};
use writer::writing::write_byte;

// The text of the term at a row, at the front of `out`; the answer is its length. `place` moves on by its constructors.
#[cycle(print_fields_print_term)]
pub fn print_term(
    out: &mut [u8],
    pool: &&[u8],
    cells: &&[u32],
    shown: &&[u16],
    bound: usize,
    row: u32,
    place: &mut usize,
) -> usize
    requires { PartFits pool.now.now cells.now.now shown.now.now (term_part bound row) place.old out.old }
    ensures { PartPrinted pool.now.now cells.now.now shown.now.now (term_part bound row) place.old
        out.old result place.new out.new }
{
    let here = *place;
    let code = column(*cells, row, 0);
    let n = begin_term(out, pool, cells, *shown, bound, row, here, code);
    *place = here + 1;
    if bound == 0 {
        return n + write_byte(&mut out[n..], b')');
    }
    let deep = bound - 1;
    let first = column(*cells, row, 1);
    let last = column(*cells, row, 2);
    match code {
        TERM_FUN => {
            let end = n + print_term(&mut out[n..], pool, cells, shown, deep, last, place);
            end + write_byte(&mut out[end..], b')')
        }
        TERM_APP => {
            let space = n + print_term(&mut out[n..], pool, cells, shown, deep, first, place);
            let next = space + write_byte(&mut out[space..], b' ');
            let end = next + print_term(&mut out[next..], pool, cells, shown, deep, last, place);
            end + write_byte(&mut out[end..], b')')
        }
        TERM_RCD => {
            let end = n + print_fields(&mut out[n..], pool, cells, shown, deep, first, place);
            end + write_byte(&mut out[end..], b')')
        }
        TERM_DOT => {
            let space = n + print_term(&mut out[n..], pool, cells, shown, deep, first, place);
            let next = space + write_byte(&mut out[space..], b' ');
            let end = next + write_label(&mut out[next..], pool, last);
            end + write_byte(&mut out[end..], b')')
        }
        _ => n + write_byte(&mut out[n..], b')'),
    }
}

// The same of the field list at a row.
#[cycle(print_fields_print_term)]
fn print_fields(
    out: &mut [u8],
    pool: &&[u8],
    cells: &&[u32],
    shown: &&[u16],
    bound: usize,
    row: u32,
    place: &mut usize,
) -> usize
    requires { PartFits pool.now.now cells.now.now shown.now.now (fields_part bound row) place.old out.old }
    ensures { PartPrinted pool.now.now cells.now.now shown.now.now (fields_part bound row) place.old
        out.old result place.new out.new }
{
    let here = *place;
    let n = begin_fields(out, pool, cells, bound, row);
    *place = here + 1;
    if bound == 0 {
        return n + write_byte(&mut out[n..], b')');
    }
    let deep = bound - 1;
    let code = column(*cells, row, 0);
    if code == FIELD_CONS {
        let part = column(*cells, row, 2);
        let rest = column(*cells, row, 3);
        let space = n + print_term(&mut out[n..], pool, cells, shown, deep, part, place);
        let next = space + write_byte(&mut out[space..], b' ');
        let end = next + print_fields(&mut out[next..], pool, cells, shown, deep, rest, place);
        return end + write_byte(&mut out[end..], b')');
    }
    n + write_byte(&mut out[n..], b')')
}
