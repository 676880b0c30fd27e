// The first sets of a grammar and its left calls, a set for each of the 64 nonterminals. One round over the productions finds what each
// nonterminal gives by itself and whom it calls; then the sets are closed over the calls: one nonterminal after the other is taken as a
// callee, and what it gives is joined to what its callers give.
ghost use Rattle.std.specs.Prelude.{◌≤◌, ◌≡◌, length, get_or, set};
ghost use Rattle.std.specs.Int.Bits.{bit_or};
ghost use Rattle.grammar.specs.Limits.{most};
ghost use Rattle.kinds.specs.Kinds.{has_kind};
ghost use Rattle.firsts.specs.SetCalls.{StepTaken, RoundTaken, BothSets, joined_if, StepLent, union_of, OwnersBelow, Closable, CalleeTaken, ClosedBoth};
ghost use Rattle.productions.specs.Index.{production_at, productions_by};

use super::items::{gather, set_at};
use grammar::limits::EACH_NONTERMINAL;
use grammar::reader::byte;
use kinds::{has, join};
use productions::index::offset;

// Joins what was found to the set of nonterminal n.
pub(crate) fn join_at(sets: &mut [u64], n: u8, found: u64)
    ensures { sets.new ≡ set sets.old n (bit_or (get_or sets.old n 0) found) }
{
    let i = n as usize;
    if i < sets.len() {
        sets[i] = join(sets[i], found);
    }
}

// What a production gives is joined to the sets of its nonterminal.
fn first_step(
    table: &[u8],
    owner: u8,
    start: usize,
    nulls: u64,
    kinds: &mut [u64],
    calls: &mut [u64],
)
    ensures { StepTaken nulls (production_at table.now owner start)
        kinds.old calls.old kinds.new calls.new }
{
    let found = gather(table, start, nulls, kinds, calls);
    join_at(kinds, owner, found.kinds);
    join_at(calls, owner, found.calls);
}

// One round: a step for each production, in order.
fn first_round(
    table: &[u8],
    owners: &[u8],
    starts: &[u16],
    m: usize,
    nulls: u64,
    kinds: &mut [u64],
    calls: &mut [u64],
)
    ensures { RoundTaken nulls (productions_by m table.now owners.now starts.now)
        kinds.old calls.old kinds.new calls.new }
{
    for j in 0..m {
        let owner = byte(owners, j);
        let start = offset(starts, j);
        first_step(table, owner, start, nulls, kinds, calls);
    }
}

// A set, with more joined to it if k is among the calls.
fn with_callee(calls: u64, k: u8, set: u64, more: u64) -> u64
    ensures { result ≡ joined_if (has_kind calls k) set more }
{
    let called = has(calls, k);
    if called { join(set, more) } else { set }
}

// Joins what k gives to what each nonterminal below `many` gives that calls k.
fn take_callee(calls: &mut [u64], kinds: &mut [u64], many: u8, k: u8)
    requires { StepLent many calls.old kinds.old }
    ensures { CalleeTaken k many calls.old kinds.old calls.new kinds.new }
{
    let more_calls = set_at(calls, k as usize);
    let more_kinds = set_at(kinds, k as usize);
    for n in 0..many {
        let i = n as usize;
        let old = calls[i];
        let given = kinds[i];
        calls[i] = with_callee(old, k, old, more_calls);
        kinds[i] = with_callee(old, k, given, more_kinds);
    }
}

// The nonterminals that those below `many` call.
fn callees(calls: &[u64], many: u8) -> u64
    requires { many ≤ length calls.now }
    ensures { result ≡ union_of many calls.now }
{
    let mut all: u64 = 0;
    for set in &calls[..many as usize] {
        all = join(all, *set);
    }
    all
}

// Closes the calls over themselves, and the kinds over the calls; only nonterminals below `many` have any. A nonterminal that nobody calls
// gives nothing to others. This rules out that a callee's callee is lost.
fn close(calls: &mut [u64], kinds: &mut [u64], many: u8)
    requires { Closable many calls.old kinds.old }
    ensures { ClosedBoth most.nonterminals calls.old kinds.old calls.new kinds.new }
{
    let called = callees(calls, many);
    for k in 0..many {
        let taken = has(called, k);
        if taken {
            take_callee(calls, kinds, many, k);
        }
    }
}

// The sets of all nonterminals, of which only those below `many` have productions. This rules out that what stands behind a nullable item is lost,
// and that a set still grows at the end.
pub fn sets_of(
    table: &[u8],
    owners: &[u8],
    starts: &[u16],
    m: usize,
    many: u8,
    nulls: u64,
    kinds: &mut [u64; EACH_NONTERMINAL],
    calls: &mut [u64; EACH_NONTERMINAL],
)
    requires { OwnersBelow many m owners.now }
    ensures { BothSets nulls (productions_by m table.now owners.now starts.now)
        kinds.new calls.new }
{
    *kinds = [0u64; EACH_NONTERMINAL];
    *calls = [0u64; EACH_NONTERMINAL];
    first_round(table, owners, starts, m, nulls, kinds, calls);
    close(calls, kinds, many);
}
