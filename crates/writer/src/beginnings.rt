// Names, labels and numbers, and what a constructor's text begins with, each written at the front of what remains of the buffer.
ghost use Rattle.std.specs.Prelude.{◌<◌, ◌≤◌, ◌≡◌, length, get_or};
ghost use Rattle.terms.specs.Term.{largest_term};
ghost use Rattle.writer.specs.Writing.{Fits, Written};
ghost use Rattle.writer.specs.Pool.{spell_in};
ghost use Rattle.writer.specs.Beginnings.{number_beginning, term_beginning, fields_beginning, name_text, BeginningFits};

use crate::pool::spelling;
use crate::writing::{write_byte, write_bytes, write_number};
use rows::column;
use terms::{
    FIELD_CONS, FIELD_NIL, FRESH_CLASS, NAME_BASE, TERM_APP, TERM_DOT, TERM_FUN, TERM_RCD, TERM_VAR,
};

// A name, by its value and the number of its new name.
fn write_name(out: &mut [u8], pool: &&[u8], x: u32, shown: u16) -> usize
    requires { Fits (name_text pool.now.now x shown) out.old }
    ensures { Written (name_text pool.now.now x shown) out.old result out.new }
{
    if 0 < shown {
        let number = u32::from(shown);
        let digits = write_byte(out, b'_');
        return digits + write_number(&mut out[digits..], number);
    }
    if x / NAME_BASE == FRESH_CLASS {
        return write_bytes(out, b"_0");
    }
    write_bytes(out, spelling(*pool, x % NAME_BASE))
}

fn shown_at(shown: &[u16], place: usize) -> u16
    requires { (place < length shown.now) × (length shown.now ≤ largest_term) }
    ensures { result ≡ get_or shown.now place 0 }
{
    shown[place]
}

// What the text of a number begins with: all but the parenthesis.
fn begin_number(out: &mut [u8], n: u32) -> usize
    requires { Fits (number_beginning n) out.old }
    ensures { Written (number_beginning n) out.old result out.new }
{
    let digits = write_bytes(out, b"mkTermNum(");
    digits + write_number(&mut out[digits..], n)
}

// What the text of the term at a row begins with, by the row's code.
pub fn begin_term(
    out: &mut [u8],
    pool: &&[u8],
    cells: &&[u32],
    shown: &[u16],
    bound: usize,
    row: u32,
    place: usize,
    code: u32,
) -> usize
    requires { BeginningFits pool.now.now cells.now.now shown.now bound row place code out.old }
    ensures { Written (term_beginning pool.now.now cells.now.now shown.now bound row place) out.old result
        out.new }
{
    if bound == 0 {
        return begin_number(out, 0);
    }
    let x = column(*cells, row, 1);
    match code {
        TERM_VAR => {
            let number = shown_at(shown, place);
            let name = write_bytes(out, b"mkTermVar(");
            name + write_name(&mut out[name..], pool, x, number)
        }
        TERM_FUN => {
            let number = shown_at(shown, place);
            let name = write_bytes(out, b"mkTermFun(");
            let behind = name + write_name(&mut out[name..], pool, x, number);
            behind + write_byte(&mut out[behind..], b' ')
        }
        TERM_APP => write_bytes(out, b"mkTermApp("),
        TERM_RCD => write_bytes(out, b"mkTermRcd("),
        TERM_DOT => write_bytes(out, b"mkTermDot("),
        FIELD_NIL => begin_number(out, 0),
        FIELD_CONS => begin_number(out, 0),
        _ => begin_number(out, x),
    }
}

// A label.
pub fn write_label(out: &mut [u8], pool: &&[u8], l: u32) -> usize
    requires { Fits (spell_in pool.now.now l) out.old }
    ensures { Written (spell_in pool.now.now l) out.old result out.new }
{
    write_bytes(out, spelling(*pool, l))
}

// What the text of the field list at a row begins with.
pub fn begin_fields(out: &mut [u8], pool: &&[u8], cells: &&[u32], bound: usize, row: u32) -> usize
    requires { Fits (fields_beginning pool.now.now cells.now.now bound row) out.old }
    ensures { Written (fields_beginning pool.now.now cells.now.now bound row) out.old result out.new }
{
    if bound == 0 {
        return write_bytes(out, b"mkFieldNil(");
    }
    let code = column(*cells, row, 0);
    if code == FIELD_CONS {
        let l = column(*cells, row, 1);
        let label = write_bytes(out, b"mkFieldCons(");
        let behind = label + write_label(&mut out[label..], pool, l);
        return behind + write_byte(&mut out[behind..], b' ');
    }
    write_bytes(out, b"mkFieldNil(")
}
