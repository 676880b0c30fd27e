// The result that is a text: its template is held as rows in a lent slice.
ghost use Rattle.std.specs.Prelude.{ℕ, ◌≡◌, List};
ghost use Rattle.templates.specs.Built.{Holds};
ghost use Rattle.steps.specs.HeldTexts.{TextHangs};
ghost use Rattle.steps.specs.TextSteps.{Shows, copied_step, GivesText};

use crate::{no_row, with_made};
use copying::{Copied, copy_text};
use expansion::{Outcome, State};
use grammar::limits::MOST_VARIABLES;

// A field with a text has so many bytes at least, and a pair of numbers.
const LEAST_FIELD: usize = 4;

const PAIR: usize = 2;

// The sorts are below this.
const SORTS: usize = 8;

// The values of the first `count` variables, and 0 behind them.
fn values_of(vars: &[u32; MOST_VARIABLES], count: usize) -> [u32; MOST_VARIABLES]
    ensures { (M : List ℕ) → Holds vars.now count M → Shows result M }
{
    let mut env = [0u32; MOST_VARIABLES];
    let given = count.min(MOST_VARIABLES);
    env[..given].copy_from_slice(&vars[..given]);
    env
}

// What a text gives, as the outcome of the alternative that it is the result of.
pub(crate) fn copied_step(copied: Copied, s: State) -> Outcome
    ensures { result ≡ copied_step copied s }
{
    match copied {
        Some((v, made)) => Ok((v, with_made(s, made))),
        None => Err(no_row(s)),
    }
}

// What the text gives that is held for the field at an offset, with `count` variables and `made` cells made. It is laid into no caller, so that templates in
// bytes are evaluated without its frame.
#[inline(never)]
pub(crate) fn text_result(
    cells: &mut [u32],
    texts: &[u32],
    vars: &[u32; MOST_VARIABLES],
    at: usize,
    count: usize,
    made: usize,
) -> Copied
    requires { TextHangs texts.now at }
    ensures { GivesText texts.now at vars.now count made cells.old result cells.new }
{
    let pair = at / LEAST_FIELD * PAIR;
    let value = texts[pair];
    let word = texts[pair + 1] as usize;
    let start = word / SORTS;
    let sort = (word % SORTS) as u8;
    let env = values_of(vars, count);
    copy_text(&texts[start..], sort, value, &env, made, cells)
}
