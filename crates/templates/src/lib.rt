// Templates, evaluated from their bytes in prefix form: each constructor makes one cell, arguments first, left to right. A cell is a row
// of lent numbers.
#![tactic(auto)]

ghost use Rattle.std.specs.Prelude.{ℕ, ◌+◌, ◌*◌, ◌/◌, ◌%◌, ◌<◌, ◌≤◌, ◌≡◌, List, ◌∷◌, length, get_or, take, drop, eqb};
ghost use Rattle.std.proofs.lemmas.List.Edits.{sets};
ghost use Rattle.grammar.specs.Variables.{most_variables};
ghost use Rattle.grammar.specs.Limits.{most};
ghost use Rattle.terms.specs.Cells.{columns, most_cells, rows_lent};
ghost use Rattle.decoding.specs.Prefix.{name_by};
ghost use Rattle.expansion.specs.declared.State.{State};
ghost use Rattle.expansion.specs.Run.{done};
ghost use Rattle.expansion.specs.Expansion.{Input, build};
ghost use Rattle.templates.specs.Built.{Holds, with_value, Ahead, MayBuild, Builds, MayList, ListsAll};
ghost use Rattle.templates.specs.Heads.{HeadValue, Heads, MayMake};
ghost use Rattle.templates.specs.Stack.{MayClose, Closes};
ghost use Rattle.templates.specs.Flat.{MayStore, StoresFlat};

use grammar::codes::{NAME_AS_VAR, TERM_VAR, VARIABLES};
use grammar::limits::MOST_VARIABLES;
use grammar::reader::{arity_of, byte};
use terms::{COLUMNS, MOST_CELLS, OUTSIDE};

// What a template is evaluated with: how many variables there are, how many rows there may be, and how many cells are made.
#[derive(Clone, Copy)]
pub struct Making {
    pub count: usize,
    pub rows: usize,
    pub made: usize,
}

// What a template gives: its value, the offset behind it and the cells then made; or no row is left for a cell.
pub type Built = Option<(u32, usize, usize)>;

// What stands in front of a template: a value and the offset behind it, or a constructor.
#[derive(Drop)]
enum Head {
    Leaf(u32, usize),
    Node(u8),
}

// What a call's arguments give: how many there are and the cells then made; or no row is left for a cell.
pub type Arguments = Option<(usize, usize)>;

// How many rows some numbers make, 16,384 at most.
pub fn rows_of(numbers: usize) -> usize
    ensures { result ≡ rows_lent numbers }
{
    let rows = numbers / COLUMNS;
    if rows < MOST_CELLS { rows } else { MOST_CELLS }
}

// The value of variable i of k.
pub fn pick(env: &[u32; MOST_VARIABLES], k: usize, i: usize) -> u32
    requires { i < most_variables }
    ensures { (M : List ℕ) → Holds env.now k M → result ≡ get_or M i 0 }
{
    if i < k { env[i] } else { 0 }
}

// One more value behind k. The seventeenth and later ones are named by no template.
pub fn put(env: &mut [u32; MOST_VARIABLES], k: usize, v: u32)
    ensures { env.new ≡ with_value env.old k v }
{
    if k < MOST_VARIABLES {
        env[k] = v;
    }
}

// The value of an outside name: as Var, or as Label.
fn name_value(tag: u8, n: u8) -> u32
    ensures { (I : Input) (M : List ℕ) (s : State) (cells : List ℕ) → build (name_by (eqb tag 0x10) n) I M s cells ≡ done result s cells }
{
    if tag == NAME_AS_VAR {
        OUTSIDE + n as u32
    } else {
        n as u32
    }
}

// A row: a constructor's code and its arguments.
pub fn store_row(cells: &mut [u32], row: usize, code: u8, args: [u32; 3])
    requires { (row ≤ most_cells) × (row * columns + columns ≤ length cells.old) }
    ensures { cells.new ≡ sets cells.old (row * columns) (code ∷ args) }
{
    let i = row * COLUMNS;
    cells[i] = code as u32;
    cells[i + 1] = args[0];
    cells[i + 2] = args[1];
    cells[i + 3] = args[2];
}

// What the template at an offset begins with, under k variables.
fn head_at(v: &[u8], at: usize, env: &[u32; MOST_VARIABLES], k: usize) -> Head
    requires { Ahead v.now at }
    ensures by_index { (M : List ℕ) → Holds env.now k M → HeadValue v.now at M result }
    ensures heads { Heads v.now at result }
{
    let b = byte(v, at);
    if b < VARIABLES {
        return Head::Leaf(pick(env, k, b as usize), at + 1);
    }
    if b < TERM_VAR {
        let n = byte(v, at + 1);
        return Head::Leaf(name_value(b, n), at + 2);
    }
    Head::Node(b)
}

// An open constructor in one number: its code, and where the one around it has its first argument.
fn opening(code: u8, around: usize) -> u32
    requires { around ≤ most.bytes }
    ensures { result ≡ code + 256 * around }
{
    code as u32 + 256 * around as u32
}

fn code_of(w: u32) -> u8
    ensures { result ≡ w % 256 }
{
    (w % 256) as u8
}

fn around_of(w: u32) -> usize
    ensures { result ≡ w / 256 }
{
    (w / 256) as usize
}

// Number i of the n that stand from a place on; 0 past them.
fn given_at(stack: &[u32], pos: usize, n: usize, i: usize) -> u32
    requires { pos + n ≤ length stack.now }
    ensures { result ≡ get_or (take n (drop pos stack.now)) i 0 }
{
    if i < n { stack[pos + i] } else { 0 }
}

// The row of an open constructor whose n arguments stand from a place on, with its own number before them. The answer is where the one around it
// has its first argument.
fn store_cell(cells: &mut [u32], row: usize, stack: &[u32], pos: usize, n: usize) -> usize
    requires { MayClose row stack.now pos n cells.old }
    ensures { Closes row stack.now pos n cells.old result cells.new }
{
    let w = stack[pos - 1];
    let args = [
        given_at(stack, pos, n, 0),
        given_at(stack, pos, n, 1),
        given_at(stack, pos, n, 2),
    ];
    store_row(cells, row, code_of(w), args);
    around_of(w)
}

// The row of a constructor whose arguments are all values, which are read one behind the other, without a stack, and the offset behind it. Nothing is done
// where one of them is a constructor or no row is left.
fn store_flat(
    cells: &mut [u32],
    v: &[u8],
    from: usize,
    code: u8,
    env: &[u32; MOST_VARIABLES],
    m: Making,
) -> Option<usize>
    requires { MayStore v.now from code m cells.old }
    ensures { StoresFlat v.now from env.now m cells.old result cells.new }
{
    if m.rows <= m.made {
        return None;
    }
    let n = arity_of(code);
    let mut args = [0u32; 3];
    let mut at = from + 1;
    for i in 0..n {
        let Head::Leaf(x, next) = head_at(v, at, env, m.count) else {
            return None;
        };
        args[i] = x;
        at = next;
    }
    store_row(cells, m.made, code, args);
    Some(at)
}

// The template of a constructor at an offset. The stack holds the open constructors, each with its arguments so far behind it; `pos` is
// where those of the innermost one begin, `top` where they end, and n how many it takes.
fn build_nested(
    cells: &mut [u32],
    stack: &mut [u32],
    v: &[u8],
    from: usize,
    code: u8,
    env: &[u32; MOST_VARIABLES],
    m: Making,
) -> Built
    requires { MayMake v.now from code m cells.old stack.old }
    ensures { Builds v.now from env.now m cells.old result cells.new }
{
    stack[0] = opening(code, 0);
    let mut at = from + 1;
    let mut count = m.made;
    let mut pos: usize = 1;
    let mut top: usize = 1;
    let mut n = arity_of(code);
    loop {
        if top - pos < n {
            let head = head_at(v, at, env, m.count);
            match head {
                Head::Leaf(x, next) => {
                    stack[top] = x;
                    top += 1;
                    at = next;
                }
                Head::Node(b) => {
                    stack[top] = opening(b, pos);
                    top += 1;
                    pos = top;
                    at += 1;
                    n = arity_of(b);
                }
            }
        } else {
            if m.rows <= count {
                return None;
            }
            let around = store_cell(cells, count, stack, pos, n);
            if around == 0 {
                return Some((count as u32, at, count + 1));
            }
            stack[pos - 1] = count as u32;
            count += 1;
            top = pos;
            pos = around;
            n = arity_of(code_of(stack[pos - 1]));
        }
    }
}

// The template of a constructor at an offset: most have values for arguments, and need no stack.
fn build_node(
    cells: &mut [u32],
    stack: &mut [u32],
    v: &[u8],
    from: usize,
    code: u8,
    env: &[u32; MOST_VARIABLES],
    m: Making,
) -> Built
    requires { MayMake v.now from code m cells.old stack.old }
    ensures { Builds v.now from env.now m cells.old result cells.new }
{
    match store_flat(cells, v, from, code, env, m) {
        Some(next) => Some((m.made as u32, next, m.made + 1)),
        None => build_nested(cells, stack, v, from, code, env, m),
    }
}

// The template at an offset of a field's value.
pub fn build(
    cells: &mut [u32],
    stack: &mut [u32],
    v: &[u8],
    at: usize,
    env: &[u32; MOST_VARIABLES],
    m: Making,
) -> Built
    requires { MayBuild v.now at m cells.old stack.old }
    ensures { Builds v.now at env.now m cells.old result cells.new }
{
    match head_at(v, at, env, m.count) {
        Head::Leaf(x, next) => Some((x, next, m.made)),
        Head::Node(b) => build_node(cells, stack, v, at, b, env, m),
    }
}

// The templates of a call, from an offset of its item's value on; `out` takes their values.
pub fn build_arguments(
    out: &mut [u32; MOST_VARIABLES],
    cells: &mut [u32],
    stack: &mut [u32],
    v: &[u8],
    start: usize,
    env: &[u32; MOST_VARIABLES],
    m: Making,
) -> Arguments
    requires { MayList v.now start m cells.old stack.old }
    ensures { ListsAll v.now start env.now m out.old cells.old result out.new cells.new }
{
    let mut at = start;
    let mut n: usize = 0;
    let mut count = m.made;
    while at < v.len() {
        match head_at(v, at, env, m.count) {
            Head::Leaf(x, next) => {
                put(out, n, x);
                at = next;
                n += 1;
            }
            Head::Node(b) => {
                let here = Making { made: count, ..m };
                let (x, after, more) = build_node(cells, stack, v, at, b, env, here)?;
                put(out, n, x);
                at = after;
                count = more;
                n += 1;
            }
        }
    }
    Some((n, count))
}
