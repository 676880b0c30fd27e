// Left recursion and clashes: refusals 12 and 13. The clash search goes over the productions of each nonterminal, by the links of the room.
ghost use Rattle.std.specs.Prelude.{◌≡◌};
ghost use Rattle.productions.specs.Room.{first_place_in};
ghost use Rattle.clashes.specs.Pairs.{after_in, shared_in, clash_in, clash_seen, seen_with, other_from, recursive_below, clashing_below, all_shared_in};

use crate::Seen;
use firsts::items::set_at;
use kinds::{has, join, meet};
use productions::room::{NO_PLACE, ROOM, first, first_place, is_nullable, next_place};

// The lowest nonterminal below `many` that reaches itself by left calls, `many` if none does.
pub(crate) fn left_recursive(calls: &[u64], many: u8) -> u8
    ensures { result ≡ recursive_below many calls.now }
{
    for n in 0..many {
        let reached = set_at(calls, n as usize);
        let found = has(reached, n);
        if found {
            return n;
        }
    }
    many
}

// The place that the link at place i leads to; 256 if it leads to none, or not on.
fn after(room: &[u64; ROOM], i: usize) -> usize
    ensures { result ≡ after_in room.now i }
{
    let next = next_place(room, i);
    if i < next { next } else { NO_PLACE }
}

// The kinds that two productions share.
fn shared_by(room: &[u64; ROOM], i: usize, j: usize) -> u64
    ensures { result ≡ shared_in room.now i j }
{
    meet(first(room, i), first(room, j))
}

// Whether two productions share a kind, or are both nullable.
fn clash(room: &[u64; ROOM], i: usize, j: usize) -> bool
    ensures { result ≡ clash_in room.now i j }
{
    let shared = shared_by(room, i, j);
    let a = is_nullable(room, i);
    let b = is_nullable(room, j);
    (0 < shared) | (a & b)
}

// Whether the production at a place clashes with one of those seen.
fn clashes(room: &[u64; ROOM], i: usize, seen: Seen) -> bool
    ensures { result ≡ clash_seen room.now seen i }
{
    let shared = meet(seen.kinds, first(room, i));
    let nullable = is_nullable(room, i);
    (0 < shared) | (seen.nullable & nullable)
}

// The productions seen, and the one at a place.
fn seen_with(room: &[u64; ROOM], i: usize, seen: Seen) -> Seen
    ensures { result ≡ seen_with room.now seen i }
{
    let kinds = join(seen.kinds, first(room, i));
    let nullable = is_nullable(room, i);
    Seen {
        kinds,
        nullable: seen.nullable | nullable,
    }
}

// Where the search for the other of a pair begins: at the first production of n, if the one at place i clashes with one of those seen; else
// at i, before which none is left.
fn other_from(room: &[u64; ROOM], n: u8, i: usize, seen: Seen) -> usize
    ensures { result ≡ other_from room.now (first_place_in room.now n) i seen }
{
    let found = clashes(room, i, seen);
    if found { first_place(room, n) } else { i }
}

// The lowest nonterminal below `many` of which two productions clash, `many` if there is none: the search ends at the first clash. A
// production is held against those before it only where it clashes with what they give together.
pub(crate) fn clashing(room: &[u64; ROOM], many: u8) -> u8
    ensures { result ≡ clashing_below many room.now }
{
    let mut n: u8 = 0;
    // The label leaves all three loops at the first clash, and n is what is told.
    'search: while n < many {
        let mut seen = Seen {
            kinds: 0,
            nullable: false,
        };
        let mut i = first_place(room, n);
        while i < NO_PLACE {
            let mut j = other_from(room, n, i, seen);
            while j < i {
                let found = clash(room, j, i);
                if found {
                    break 'search;
                }
                j = after(room, j);
            }
            seen = seen_with(room, i, seen);
            i = after(room, i);
        }
        n += 1;
    }
    n
}

// The kinds that any two productions of n share: those that one has and one before it.
pub(crate) fn shared(room: &[u64; ROOM], n: u8) -> u64
    ensures { result ≡ all_shared_in room.now n }
{
    let mut seen: u64 = 0;
    let mut found: u64 = 0;
    let mut i = first_place(room, n);
    while i < NO_PLACE {
        let own = first(room, i);
        let more = meet(seen, own);
        found = join(found, more);
        seen = join(seen, own);
        i = after(room, i);
    }
    found
}
