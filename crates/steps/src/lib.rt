// The items of an alternative, read off the table's bytes, and its result.
#![tactic(auto)]

mod taking;
mod texts;

ghost use Rattle.std.specs.Prelude.{◌+◌, ◌^◌, ◌<◌, ◌≤◌, ◌≡◌, length};
ghost use Rattle.std.specs.Int.Count.{ones};
ghost use Rattle.answers.specs.Refusals.{refusal};
ghost use Rattle.templates.specs.Built.{with_made};
ghost use Rattle.steps.specs.Source.{size_at, GoesOn, SomeSource, EachSource, SomeLent, EachLent};
ghost use Rattle.steps.specs.Steps.{MayReadItem, MayStep, MayFinish, GivesFresh, ReadsItem, read_step, call_step, result_step, ItemStepped, Finishes};

use crate::taking::{take, take_ide};
use crate::texts::{copied_step, text_result};
use answers::Refusal;
use answers::causes::Cause;
use expansion::{Outcome, State};
use grammar::codes::{CALL_ITEM, IDE_ITEM, ITEM_TAG, KEYWORD_ITEM, LOCAL_ITEM, PLACE_ITEM};
use grammar::limits::MOST_VARIABLES;
use kinds::{KEYWORD_KIND, NUMBER_KIND, VARIABLE_KIND};
use scanner::room::{TOKEN, value_at};
use templates::{Arguments, Built, Making, build, build_arguments};
use terms::FRESH;

// What is done at an offset: there is no item, the item refuses, it gives a value (with the offset behind it and where the expansion
// then stands), or it calls a nonterminal with a number of arguments.
#[derive(Drop)]
pub enum ItemStep {
    Finished,
    Stopped(Refusal),
    Taken(u32, usize, State),
    Opened(u8, usize, usize, State),
}

// The activation of a call: the place of its production in the room of the grammar, the index of the token at which it began, how many
// variables it has, and the offset of its next item. The values of its variables stand in an array; the seventeenth and later ones are named
// by no template.
#[derive(Clone, Copy)]
pub struct Activation {
    pub production: usize,
    pub began: usize,
    pub count: usize,
    pub next: usize,
}

// Where a call goes on: its activation, how many calls wait below it, and the state.
#[derive(Clone, Copy)]
pub struct Cursor {
    pub call: Activation,
    pub level: usize,
    pub state: State,
}

// Refusal 17: the token at an index is none of the kinds.
pub fn misfit(at: usize, kinds: u64) -> Refusal
    ensures { result ≡ refusal 17 at kinds (ones kinds) }
{
    let count = kinds::count(kinds);
    Cause::TokenDoesNotFit.refuse(at as u64, kinds, count as u64)
}

// A fresh name.
fn fresh_name(s: State) -> Outcome
    requires { s.fresh < 2 ^ 31 }
    ensures { GivesFresh s result }
{
    Ok((
        FRESH + s.fresh as u32,
        State {
            fresh: s.fresh + 1,
            ..s
        },
    ))
}

// An item that is no call, by its kind and operand.
fn read_item(tokens: &[u32], kind: u8, operand: u8, s: State) -> Outcome
    requires { MayReadItem tokens.now kind s }
    ensures { ReadsItem tokens.now kind operand s result }
{
    let at = s.at;
    let n = tokens.len() / TOKEN;
    let value = value_at(tokens, n, at);
    match kind {
        KEYWORD_ITEM => take(tokens, operand as u32 + KEYWORD_KIND, 0, s),
        IDE_ITEM => take_ide(tokens, operand, s),
        LOCAL_ITEM => fresh_name(s),
        PLACE_ITEM => take(tokens, VARIABLE_KIND + operand as u32, value, s),
        _ => take(tokens, NUMBER_KIND, value, s),
    }
}

// Refusal 21: no row is left for a cell.
fn no_row(s: State) -> Refusal
    ensures { result ≡ refusal 21 s.at 0 0 }
{
    Cause::NoRow.refuse(s.at as u64, 0, 0)
}

// The state with another number of cells made.
fn with_made(s: State, made: usize) -> State
    ensures { result ≡ with_made s made }
{
    State { made, ..s }
}

// A token or a fresh name, as what is done at an offset: the next item stands at another.
fn read_step(outcome: Outcome, next: usize) -> ItemStep
    ensures { result ≡ read_step outcome next }
{
    match outcome {
        Err(r) => ItemStep::Stopped(r),
        Ok((x, t)) => ItemStep::Taken(x, next, t),
    }
}

// The arguments of a call, as what is done at an offset.
fn call_step(listed: Arguments, callee: u8, next: usize, s: State) -> ItemStep
    ensures { result ≡ call_step listed callee next s }
{
    match listed {
        None => ItemStep::Stopped(no_row(s)),
        Some((given, made)) => ItemStep::Opened(callee, given, next, with_made(s, made)),
    }
}

// The value of a template, as the outcome of the alternative that it is the result of.
fn result_step(b: Built, s: State) -> Outcome
    ensures { result ≡ result_step b s }
{
    match b {
        Some((v, _, made)) => Ok((v, with_made(s, made))),
        None => Err(no_row(s)),
    }
}

// The bytes of a field before its value: its tag and its size.
const FRONT: usize = 3;

// The tag of a result that is a text.
const TEXT_TAG: u8 = 9;

// The size of the value of a field at an offset.
fn value_size(table: &[u8], at: usize) -> usize
    requires { at + 3 ≤ length table.now }
    ensures { result ≡ size_at table.now at }
{
    table[at + 1] as usize * 256 + table[at + 2] as usize
}

// What is done at an offset of the table, where a production goes on; `out` takes a call's arguments.
pub fn item_step(
    cells: &mut [u32],
    stack: &mut [u32],
    out: &mut [u32; MOST_VARIABLES],
    table: &[u8],
    tokens: &[u32],
    rows: usize,
    vars: &[u32; MOST_VARIABLES],
    c: Cursor,
) -> ItemStep
    requires { SomeSource table.now (λ S. MayStep S tokens.now rows c cells.old stack.old) }
    ensures { EachSource table.now (λ S. GoesOn S c.call.next) (λ S. ItemStepped S tokens.now rows vars.now c
        out.old cells.old result out.new cells.new) }
{
    let s = c.state;
    let at = c.call.next;
    if table[at] != ITEM_TAG {
        return ItemStep::Finished;
    }
    let from = at + FRONT;
    let next = from + value_size(table, at);
    let kind = table[from];
    let operand = table[from + 1];
    if kind == CALL_ITEM {
        let count = c.call.count;
        let made = s.made;
        let m = Making { count, rows, made };
        let listed = build_arguments(out, cells, stack, &table[from..next], 2, vars, m);
        return call_step(listed, operand, next, s);
    }
    read_step(read_item(tokens, kind, operand, s), next)
}

// The result of the production whose items end at an offset: a template in the table's bytes, or a text, which is held in `texts`.
pub fn finish(
    cells: &mut [u32],
    stack: &mut [u32],
    table: &[u8],
    texts: &[u32],
    rows: usize,
    vars: &[u32; MOST_VARIABLES],
    c: Cursor,
) -> Outcome
    requires { SomeLent table.now texts.now (λ S. MayFinish S rows c cells.old stack.old) }
    ensures { EachLent table.now texts.now (λ S. MayFinish S rows c cells.old stack.old) (λ S. Finishes S
        rows vars.now c cells.old result cells.new) }
{
    let s = c.state;
    let at = c.call.next;
    let count = c.call.count;
    let made = s.made;
    if table[at] == TEXT_TAG {
        let copied = text_result(cells, texts, vars, at, count, made);
        return copied_step(copied, s);
    }
    let from = at + FRONT;
    let to = from + value_size(table, at);
    let m = Making { count, rows, made };
    let value = build(cells, stack, &table[from..to], 0, vars, m);
    result_step(value, s)
}
