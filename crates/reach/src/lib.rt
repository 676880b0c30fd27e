// What is reached from a nonterminal by calls: which keywords count (document 02, C-13).
#![tactic(auto)]

ghost use Rattle.std.specs.Prelude.{◌≡◌};
ghost use Rattle.firsts.specs.Reach.{kinds_by};

use firsts::items::set_at;
use kinds::{join, lowest, only};

// The kinds that occur in the alternatives that are reached from a nonterminal, by what the alternatives of each nonterminal read and call: one
// nonterminal after the other is taken, of those that are reached and not yet done. This rules out that the start is not reached, and that a callee's
// callee is lost.
pub fn reached_kinds(kinds: &[u64], calls: &[u64], start: u8) -> u64
    ensures { result ≡ kinds_by kinds.now calls.now start }
{
    let mut reached = only(start);
    let mut done: u64 = 0;
    let mut found: u64 = 0;
    while done != reached {
        let n = lowest(reached ^ done) as u8;
        found = join(found, set_at(kinds, n as usize));
        reached = join(reached, set_at(calls, n as usize));
        done = join(done, only(n));
    }
    found
}
