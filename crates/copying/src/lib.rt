// Templates held as rows, evaluated: each constructor makes one cell, arguments first, left to right. A part that the rows share makes its cells at each
// place.
#![tactic(auto)]

ghost use Rattle.std.specs.Prelude.{◌≡◌};
ghost use Rattle.grammar.specs.Variables.{most_variables};
ghost use Rattle.copying.specs.Hanging.{is_row_at, VariableBelow, Hangs, HangsAt};
ghost use Rattle.copying.specs.Copies.{HasValue, CopiesRow, CopiesText};

use grammar::limits::MOST_VARIABLES;
use grammar::reader::arity_of;
use grammar::sorts::{Sort, argument_of};
use rows::column;
use templates::{rows_of, store_row};
use terms::{NAME_BASE, OUTSIDE};

pub mod sizes;

// The class of variables, behind those of names.
const VARIABLE_CLASS: u32 = 4;

// What a text gives: its value and the cells then made; or no row is left for a cell.
pub type Copied = Option<(u32, usize)>;

// Whether a number at a place of a sort is a row.
fn is_row(sort: u8, x: u32) -> bool
    ensures { result ≡ is_row_at sort x }
{
    let term = Sort::TERM.0;
    let fields = Sort::FIELDS.0;
    let variable = x / NAME_BASE == VARIABLE_CLASS;
    ((sort == term) | (sort == fields)) & !variable
}

// The value of a number at a place of a sort that is no row.
fn value_of(sort: u8, x: u32, env: &[u32; MOST_VARIABLES]) -> u32
    requires { VariableBelow most_variables x }
    ensures { HasValue sort x env.now result }
{
    let number = x % NAME_BASE;
    if x / NAME_BASE == VARIABLE_CLASS {
        let i = number as usize;
        return env[i];
    }
    let var = Sort::VAR.0;
    let binder = Sort::BINDER.0;
    if (sort == var) | (sort == binder) {
        return OUTSIDE + number;
    }
    if sort == Sort::UNIT.0 {
        return 0;
    }
    x
}

// The template of a row, with `made` cells made. The answer is how many are then made, the last of them for the row itself; 0 if no row is left. It calls
// itself as deep as the template is, so that little is handed on and little is answered.
fn copy_row(
    text: &&[u32],
    row: u32,
    env: &[u32; MOST_VARIABLES],
    made: usize,
    cells: &mut [u32],
) -> usize
    requires { Hangs text.now.now most_variables row }
    ensures { CopiesRow text.now.now row env.now made cells.old result cells.new }
{
    let code = column(*text, row, 0) as u8;
    let n = arity_of(code);
    let mut args = [0u32; 3];
    let mut count = made;
    for i in 0..n {
        let x = column(*text, row, i + 1);
        let sort = argument_of(code, i);
        if !is_row(sort.0, x) {
            args[i] = value_of(sort.0, x, env);
            continue;
        }
        let more = copy_row(text, x, env, count, cells);
        if more == 0 {
            return 0;
        }
        args[i] = (more - 1) as u32;
        count = more;
    }
    if rows_of(cells.len()) <= count {
        return 0;
    }
    store_row(cells, count, code, args);
    count + 1
}

// What a text gives that reads x at a sort, with `made` cells made.
pub fn copy_text(
    text: &[u32],
    sort: u8,
    x: u32,
    env: &[u32; MOST_VARIABLES],
    made: usize,
    cells: &mut [u32],
) -> Copied
    requires { HangsAt text.now most_variables sort x }
    ensures { CopiesText text.now sort x env.now made cells.old result cells.new }
{
    let below = is_row(sort, x);
    if below {
        let more = copy_row(&text, x, env, made, cells);
        if more == 0 {
            return None;
        }
        return Some(((more - 1) as u32, more));
    }
    Some((value_of(sort, x, env), made))
}
