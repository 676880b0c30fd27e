// The tokens of a text: whether one is a number, and its words as outside names.
ghost use Rattle.std.specs.Prelude.{◌≡◌};
ghost use Rattle.steps.specs.Steps.{tokens_lent};
ghost use Rattle.texts.specs.Reading.{has_number};
ghost use Rattle.reader.specs.Words.{MadeOutside, zeroed};

use kinds::{NUMBER_KIND, OUTSIDE_KIND, WORD_KIND};
use scanner::room::TOKEN;

// Whether one of the tokens is a number.
pub fn has_number(tokens: &[u32]) -> bool
    ensures { result ≡ has_number (tokens_lent tokens.now) }
{
    let n = tokens.len() / TOKEN;
    (0..n).any(|i| tokens[i * TOKEN] == NUMBER_KIND)
}

// Each word gets the kind of an outside name, which no ide of Binder reads.
pub fn as_outside(tokens: &mut [u32])
    ensures { MadeOutside tokens.old tokens.new }
{
    let n = tokens.len() / TOKEN;
    for i in 0..n {
        let at = i * TOKEN;
        if tokens[at] == WORD_KIND {
            tokens[at] = OUTSIDE_KIND;
        }
    }
}

// Numbers that a run left are zeroed for the next one.
pub fn clear(cells: &mut [u32])
    ensures { cells.new ≡ zeroed cells.old }
{
    cells.fill(0);
}
