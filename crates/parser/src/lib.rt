// Scan and run in one, under a table that passed the check: from the bytes of a formula to the value of the root's call, or a refusal 14 to 21.
#![tactic(auto)]

ghost use Rattle.std.specs.Prelude.{◌≤◌, ◌≡◌, length};
ghost use Rattle.grammar.specs.Limits.{most};
ghost use Rattle.checker.specs.Syntax.{syntax_of};
ghost use Rattle.checker.specs.Passes.{Passes};
ghost use Rattle.expansion.specs.Outcomes.{ran};
ghost use Rattle.parser.specs.Parse.{Runnable, Parseable, parsed_into, parse_into, run_in};

use answers::Refusal;
use expander::run;
use expansion::Outcome;
use grammar::limits::{LONGEST_TABLE, MIDDLE_TABLE, SMALL_TABLE};
use productions::index::root_of;
use productions::room::{ROOM, reached};
use scanner::room::TOKEN;

// The outcome of a parse, and how many words the formula has that are neither keywords nor outside names.
#[derive(Drop)]
pub struct Parsed {
    pub outcome: Outcome,
    pub words: usize,
}

// A refusal before the run.
fn halted(r: Refusal) -> Parsed
    ensures { result ≡ record { outcome = Err r; words = 0 } }
{
    Parsed {
        outcome: Err(r),
        words: 0,
    }
}

// The run of tokens with a room for the templates of a table of up to N bytes. It is never laid into its caller, whose frame stays without this room.
#[inline(never)]
fn run_with<const N: usize>(
    cells: &mut [u32],
    table: &[u8],
    room: &[u64; ROOM],
    tokens: &[u32],
) -> Outcome
    requires runnable { Runnable table.now room.now tokens.now }
    requires within { (length table.now ≤ N) × (N ≤ most.bytes) }
    ensures { ran result cells.new ≡ run_in table.now tokens.now cells.old }
{
    let root = root_of(table);
    let mut stack = [0u32; N];
    run(cells, &mut stack, table, &[], room, root, tokens)
}

// The run of tokens, with a room for the templates of a table of its size.
fn run_tokens(cells: &mut [u32], table: &[u8], room: &[u64; ROOM], tokens: &[u32]) -> Outcome
    requires { Runnable table.now room.now tokens.now }
    ensures { ran result cells.new ≡ run_in table.now tokens.now cells.old }
{
    if table.len() <= SMALL_TABLE {
        return run_with::<SMALL_TABLE>(cells, table, room, tokens);
    }
    if table.len() <= MIDDLE_TABLE {
        return run_with::<MIDDLE_TABLE>(cells, table, room, tokens);
    }
    run_with::<LONGEST_TABLE>(cells, table, room, tokens)
}

// Scans a formula under a table that passed the check, and runs its tokens, with rooms that take all tokens and all words of the formula. The promise
// fixes the answer and every number of the three rooms.
pub fn parse_passed(
    table: &[u8],
    room: &[u64; ROOM],
    formula: &[u8],
    tokens: &mut [u32],
    words: &mut [u32],
    cells: &mut [u32],
) -> Parsed
    requires { Parseable table.now room.now formula.now tokens.old words.old }
    ensures { (P : Passes table.now) → parsed_into result tokens.new words.new cells.new
        ≡ parse_into (syntax_of P.table) formula.now tokens.old words.old cells.old }
{
    let scanned = scanner::scan(table, reached(room), &[], formula, tokens, words);
    match scanned {
        Err(r) => halted(r),
        Ok((n, count)) => {
            let end = n * TOKEN;
            let outcome = run_tokens(cells, table, room, &tokens[..end]);
            Parsed {
                outcome,
                words: count,
            }
        }
    }
}
