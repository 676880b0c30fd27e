// The check of a grammar's first sets, with the room that an expansion reads: refusals 12 and 13.
ghost use Rattle.std.specs.Prelude.{◌≡◌};
ghost use Rattle.answers.specs.Checked.{verdict};
ghost use Rattle.productions.specs.Index.{places_in};
ghost use Rattle.clashes.specs.Pairs.{PlacesBelow, no_clash_in};
ghost use Rattle.firsts.specs.SetCalls.{OwnersBelow};
ghost use Rattle.firsts.specs.Room.{WholeIndex};
ghost use Rattle.clashes.specs.CheckCalls.{Filled, FillRoom, OwnersSmall, BoundIndex, Prepared, FirstsChecked};

use super::clash::{clashing, left_recursive, shared};
use super::sorts::check_sorts;
use crate::Preparation;
use answers::Verdict;
use answers::causes::Cause;
use firsts::nullable::nullables;
use firsts::sets::sets_of;
use grammar::limits::{EACH_ALTERNATIVE, EACH_NONTERMINAL};
use kinds::{join, lowest};
use patterns::openings::opening;
use productions::index::{offset, root_of};
use productions::room::{ROOM, begin, lay};
use reach::reached_kinds;

// Writes the room of a grammar with these reached kinds, nullable nonterminals and first sets. The productions are laid from the last to the first, so
// that each finds the next one of its nonterminal. What is told is the pattern places that stand first in productions.
fn fill(
    table: &[u8],
    owners: &[u8; EACH_ALTERNATIVE],
    starts: &[u16; EACH_ALTERNATIVE],
    m: usize,
    kinds: u64,
    nulls: u64,
    sets: &[u64],
    room: &mut [u64],
) -> u64
    requires { FillRoom table.now m owners.now starts.now sets.now room.old }
    ensures { Filled table.now m owners.now starts.now kinds nulls sets.now
        room.old room.new result }
{
    begin(room, kinds, sets);
    let mut places: u64 = 0;
    for j in (0..m).rev() {
        let owner = owners[j];
        let start = offset(starts, j);
        let found = opening(table, start, nulls, sets);
        lay(room, j, owner, starts[j], found.kinds, found.nullable);
        places = join(places, found.places);
    }
    places
}

// One more than the highest nonterminal that has a production.
fn bound(owners: &[u8; EACH_ALTERNATIVE], m: usize) -> u8
    requires { OwnersSmall m owners.now }
    ensures { OwnersBelow result m owners.now }
{
    let mut many: u8 = 0;
    for owner in &owners[..m] {
        many = many.max(*owner + 1);
    }
    many
}

// The lowest nonterminal that is left recursive, `many` if there is none, with what the search for a clash needs, and what an expansion needs of a grammar
// in the room; only nonterminals below `many` have productions.
fn prepare(
    table: &[u8],
    owners: &[u8; EACH_ALTERNATIVE],
    starts: &[u16; EACH_ALTERNATIVE],
    m: usize,
    many: u8,
    room: &mut [u64; ROOM],
) -> Preparation
    requires { BoundIndex many table.now m owners.now starts.now }
    ensures { Prepared many table.now (places_in m owners.now starts.now) room.old room.new result }
{
    let mut sets = [0u64; EACH_NONTERMINAL];
    let mut calls = [0u64; EACH_NONTERMINAL];
    let nulls = nullables(table, owners, starts, m, &mut sets, &mut calls);
    let kinds = reached_kinds(&sets, &calls, root_of(table));
    sets_of(table, owners, starts, m, many, nulls, &mut sets, &mut calls);
    let places = fill(table, owners, starts, m, kinds, nulls, &sets, room);
    let recursive = left_recursive(&calls, many);
    Preparation {
        recursive,
        nulls,
        places,
    }
}

// Whether two productions of one nonterminal clash: refusal 13.
fn check_clash(room: &[u64; ROOM], many: u8) -> Verdict
    requires { PlacesBelow many room.now }
    ensures { result ≡ verdict (no_clash_in room.now) }
{
    let n = clashing(room, many);
    if n < many {
        let kinds = shared(room, n);
        Err(Cause::Ambiguous.refuse(n as u64, lowest(kinds) as u64, 0))
    } else {
        Ok(())
    }
}

// Whether a grammar can be read by its next token: refusal 12 or 13, with what an expansion needs of it in the room. This rules out
// that two nullable productions pass, and that a clash is told before left recursion, or with the kinds of one pair alone. Pattern places are compared only
// where one stands first in a production.
pub fn check_firsts(
    table: &[u8],
    owners: &[u8; EACH_ALTERNATIVE],
    starts: &[u16; EACH_ALTERNATIVE],
    m: usize,
    room: &mut [u64; ROOM],
) -> Verdict
    requires { WholeIndex table.now m owners.now starts.now }
    ensures { FirstsChecked table.now (places_in m owners.now starts.now) room.old room.new result }
{
    let many = bound(owners, m);
    let found = prepare(table, owners, starts, m, many, room);
    if found.recursive < many {
        Err(Cause::LeftRecursion.refuse(found.recursive as u64, 0, 0))
    } else if found.places == 0 {
        check_clash(room, many)
    } else {
        check_sorts(table, owners, starts, m, many, found.nulls, room)
    }
}
