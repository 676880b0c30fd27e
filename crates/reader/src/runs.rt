// The run of a text's tokens, with a room for the templates of a table by its size.
ghost use Rattle.std.specs.Prelude.{◌≤◌, length};
ghost use Rattle.grammar.specs.Limits.{most};
ghost use Rattle.steps.specs.Source.{SomeLent};
ghost use Rattle.reader.specs.TextRuns.{RunnableText, RunsText};

use expander::run;
use expansion::Outcome;
use grammar::limits::{LONGEST_TABLE, MIDDLE_TABLE, SMALL_TABLE};
use productions::room::ROOM;

// With a room for the templates of a table of up to N bytes. It is never laid into its caller, whose frame stays without this room.
#[inline(never)]
fn run_with<const N: usize>(
    cells: &mut [u32],
    table: &[u8],
    texts: &[u32],
    room: &[u64; ROOM],
    root: u8,
    tokens: &[u32],
) -> Outcome
    requires runnable { SomeLent table.now texts.now (RunnableText room.now tokens.now) }
    requires within { (length table.now ≤ N) × (N ≤ most.bytes) }
    ensures { RunsText table.now texts.now room.now tokens.now root
        cells.old result cells.new }
{
    let mut stack = [0u32; N];
    run(cells, &mut stack, table, texts, room, root, tokens)
}

// The run of a text's tokens from a nonterminal, by the productions of some bytes.
pub fn run_text(
    cells: &mut [u32],
    table: &[u8],
    texts: &[u32],
    room: &[u64; ROOM],
    root: u8,
    tokens: &[u32],
) -> Outcome
    requires { SomeLent table.now texts.now (RunnableText room.now tokens.now) }
    ensures { RunsText table.now texts.now room.now tokens.now root
        cells.old result cells.new }
{
    if table.len() <= SMALL_TABLE {
        return run_with::<SMALL_TABLE>(cells, table, texts, room, root, tokens);
    }
    if table.len() <= MIDDLE_TABLE {
        return run_with::<MIDDLE_TABLE>(cells, table, texts, room, root, tokens);
    }
    run_with::<LONGEST_TABLE>(cells, table, texts, room, root, tokens)
}
