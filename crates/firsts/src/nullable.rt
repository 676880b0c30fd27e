// The nullable nonterminals of a grammar, bit n for nonterminal n. What the items of each production mention is noted once; the passes
// then look at what productions need to be nullable.
ghost use Rattle.std.specs.Prelude.{◌<◌, ◌≡◌};
ghost use Rattle.productions.specs.Index.{productions_by};
ghost use Rattle.firsts.specs.Needs.{need_step, step_place, need_pass, NeedsLent, NoteTaken, NotesLent, NeedsNoted, NullablesNoted};
ghost use Rattle.firsts.specs.Room.{WholeIndex};

use super::items::{mention, set_at};
use super::sets::join_at;
use crate::Gathered;
use grammar::limits::{EACH_ALTERNATIVE, EACH_NONTERMINAL};
use grammar::reader::byte;
use kinds::{join, only};
use productions::index::offset;

// What the items of a production mention, joined to what is noted of its nonterminal.
fn note(table: &[u8], owner: u8, start: usize, kinds: &mut [u64], calls: &mut [u64]) -> Gathered
    ensures { NoteTaken table.now owner start kinds.old calls.old kinds.new calls.new result }
{
    let found = mention(table, start);
    join_at(kinds, owner, found.kinds);
    join_at(calls, owner, found.calls);
    found
}

// Notes what the productions of each nonterminal read and call; holds the nonterminal and the needs of each production that has only locals
// and calls, and tells how many of these there are: what they call is what they need.
fn needs_of(
    table: &[u8],
    owners: &[u8],
    starts: &[u16],
    m: usize,
    whose: &mut [u8],
    needs: &mut [u64],
    kinds: &mut [u64],
    calls: &mut [u64],
) -> usize
    requires needs_lent { NeedsLent m whose.old needs.old }
    requires notes_lent { NotesLent kinds.old calls.old }
    ensures { NeedsNoted (productions_by m table.now owners.now starts.now) result
        whose.new needs.new kinds.new calls.new }
{
    let mut k: usize = 0;
    for j in 0..m {
        let owner = byte(owners, j);
        let start = offset(starts, j);
        let found = note(table, owner, start, kinds, calls);
        if found.nullable {
            whose[k] = owner;
            needs[k] = found.calls;
            k += 1;
        }
    }
    k
}

// A production whose needs are all nullable makes its nonterminal nullable.
fn null_step(owner: u8, needs: u64, nulls: u64) -> u64
    ensures { result ≡ need_step owner needs nulls }
{
    let with = join(nulls, needs);
    if with == nulls {
        join(nulls, only(owner))
    } else {
        nulls
    }
}

// The place of step j of k, from the last place down or from the first place up.
fn step_place(down: bool, k: usize, j: usize) -> usize
    requires { j < k }
    ensures { result ≡ step_place down k j }
{
    if down { k - 1 - j } else { j }
}

// One pass: a step for each production that is held, down or up.
fn null_pass(whose: &[u8], needs: &[u64], k: usize, down: bool, nulls: u64) -> u64
    ensures { result ≡ need_pass (step_place down k) k whose.now needs.now nulls }
{
    let mut set = nulls;
    for j in 0..k {
        let i = step_place(down, k, j);
        set = null_step(byte(whose, i), set_at(needs, i), set);
    }
    set
}

// The nullable nonterminals: passes down and up until one changes nothing. A nonterminal's callees mostly stand behind it, or all before
// it, so that few passes are needed. What the productions of each nonterminal read and call is left in two arrays. This rules out that a call never
// passes, and that one pass is taken for all.
pub fn nullables(
    table: &[u8],
    owners: &[u8; EACH_ALTERNATIVE],
    starts: &[u16; EACH_ALTERNATIVE],
    m: usize,
    kinds: &mut [u64; EACH_NONTERMINAL],
    calls: &mut [u64; EACH_NONTERMINAL],
) -> u64
    requires { WholeIndex table.now m owners.now starts.now }
    ensures { NullablesNoted (productions_by m table.now owners.now starts.now) result
        kinds.new calls.new }
{
    *kinds = [0u64; EACH_NONTERMINAL];
    *calls = [0u64; EACH_NONTERMINAL];
    let mut whose = [0u8; EACH_ALTERNATIVE];
    let mut needs = [0u64; EACH_ALTERNATIVE];
    let k = needs_of(
        table, owners, starts, m, &mut whose, &mut needs, kinds, calls,
    );
    let mut set: u64 = 0;
    let mut down = true;
    loop {
        let more = null_pass(&whose, &needs, k, down, set);
        if more == set {
            return set;
        }
        set = more;
        down = !down;
    }
}
