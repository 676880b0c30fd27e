// The room of a grammar for a text (document 02, C-14): the one for a formula, with what reads a `$` variable first in each production.
ghost use Rattle.std.specs.Prelude.{◌≡◌};
ghost use Rattle.kinds.specs.Kinds.{only};
ghost use Rattle.productions.specs.Room.{Patterned};
ghost use Rattle.firsts.specs.Patterns.{patterns_in};
ghost use Rattle.firsts.specs.Room.{productions_in, HoldsFor};
ghost use Rattle.firsts.specs.SetCalls.{joined_if};
ghost use Rattle.patterns.specs.TextRoom.{nulls_in, pattern_at, MayAdd, RoomAndIndex};

use crate::{gather, pattern_sets};
use grammar::limits::{EACH_ALTERNATIVE, EACH_NONTERMINAL};
use grammar::reader::byte;
use kinds::{join, only};
use productions::index::offset;
use productions::room::{ROOM, add_patterns, is_nullable};

// A set of nonterminals, with one more if a production of it is nullable.
fn with_owner(set: u64, owner: u8, nullable: bool) -> u64
    ensures { result ≡ joined_if nullable set (only owner) }
{
    if nullable {
        join(set, only(owner))
    } else {
        set
    }
}

// The nullable nonterminals, read off the room: those that have a nullable production.
fn null_set(owners: &[u8], m: usize, room: &[u64; ROOM]) -> u64
    ensures { result ≡ nulls_in m owners.now room.now }
{
    let mut set: u64 = 0;
    for j in 0..m {
        let nullable = is_nullable(room, j);
        set = with_owner(set, byte(owners, j), nullable);
    }
    set
}

// Adds to the links of the productions what reads a variable first in them, where the sets of the nonterminals are given.
fn add_all(table: &[u8], starts: &[u16], m: usize, nulls: u64, sets: &[u64], room: &mut [u64])
    requires { MayAdd m sets.now room.old }
    ensures { Patterned (pattern_at table.now starts.now nulls sets.now) room.old m room.new }
{
    for j in 0..m {
        let start = offset(starts, j);
        let found = gather(table, start, nulls, sets);
        add_patterns(room, j, found);
    }
}

// Makes the room of a grammar one for a text. This rules out that what a variable opens is lost behind a call or a nullable item, and that
// it is written to the link of another production.
pub fn lay_patterns(
    table: &[u8],
    owners: &[u8; EACH_ALTERNATIVE],
    starts: &[u16; EACH_ALTERNATIVE],
    m: usize,
    room: &mut [u64; ROOM],
)
    requires { RoomAndIndex table.now m owners.now starts.now room.old }
    ensures { HoldsFor (patterns_in (productions_in table.now)) table.now room.new }
{
    let nulls = null_set(owners, m, room);
    let mut sets = [0u64; EACH_NONTERMINAL];
    pattern_sets(table, owners, starts, m, nulls, &mut sets);
    add_all(table, starts, m, nulls, &sets, room);
}
