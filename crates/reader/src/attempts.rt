// The two runs of a text's tokens: with its words as outside names, and, if that halts, with its words as words, which tells why.
ghost use Rattle.calls.specs.Lent.{Ready};
ghost use Rattle.steps.specs.Source.{SomeLent, EachLent};
ghost use Rattle.reader.specs.TextRuns.{RunnableText};
ghost use Rattle.reader.specs.TextReadings.{Attempts, Explains};

use crate::judging::{TextAnswer, TextFault, TextHead, because, judge};
use crate::runs::run_text;
use crate::words::{as_outside, clear, has_number};
use productions::room::ROOM;

// The tokens of a text are run with its words as outside names, where it has so many other words: it is answered, or not read so. What the tokens then hold
// is of no account.
pub fn read_tokens(
    cells: &mut [u32],
    table: &[u8],
    texts: &[u32],
    room: &[u64; ROOM],
    head: TextHead,
    tokens: &mut [u32],
    others: usize,
) -> Option<TextAnswer>
    requires { SomeLent table.now texts.now (RunnableText room.now tokens.old) }
    ensures { EachLent table.now texts.now (λ S. Ready S room.now)
        (Attempts tokens.old head others cells.old result cells.new) }
{
    let number = has_number(tokens);
    if number {
        return Some(Err(TextFault::Unread));
    }
    as_outside(tokens);
    let outcome = run_text(cells, table, texts, room, head.nonterminal, tokens);
    match outcome {
        Err(_) => None,
        Ok((x, s)) => Some(judge(cells, head, x, s, others)),
    }
}

// Why a text is not read with its words as outside names: its tokens are run once more as they are, in cells that are zeroed again.
pub fn explain(
    cells: &mut [u32],
    table: &[u8],
    texts: &[u32],
    room: &[u64; ROOM],
    head: TextHead,
    tokens: &[u32],
) -> TextFault
    requires { SomeLent table.now texts.now (RunnableText room.now tokens.now) }
    ensures { EachLent table.now texts.now (λ S. Ready S room.now)
        (Explains tokens.now head cells.old result) }
{
    clear(cells);
    let outcome = run_text(cells, table, texts, room, head.nonterminal, tokens);
    match outcome {
        Err(_) => TextFault::Unread,
        Ok((x, s)) => because(cells, head.sort, x, s),
    }
}
