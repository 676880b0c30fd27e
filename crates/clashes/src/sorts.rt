// Refusal 13 where pattern places open productions (document 02, C-14): two productions of a nonterminal that open with places of one sort clash
// too. The sorts lie in a room of their own, so that one search goes over kinds and over sorts.
ghost use Rattle.std.specs.Prelude.{◌≡◌};
ghost use Rattle.answers.specs.Checked.{verdict};
ghost use Rattle.productions.specs.Index.{places_in};
ghost use Rattle.clashes.specs.Openings.{lowest_of};
ghost use Rattle.clashes.specs.Pairs.{no_clash_with};
ghost use Rattle.clashes.specs.CheckCalls.{FillRoom, sorts_filled, PlacesBelowBoth, SortsAsked, sorts_room};

use super::clash::{clashing, shared};
use answers::Verdict;
use answers::causes::Cause;
use grammar::limits::{EACH_ALTERNATIVE, EACH_NONTERMINAL};
use kinds::{NO_KIND, VARIABLE_KIND, lowest};
use patterns::{gather, pattern_sets};
use productions::index::offset;
use productions::room::{ROOM, begin, lay};

// The bits of what reads a variable first that are below those of pattern places.
const BELOW_PLACES: u64 = 256;

// Writes a room with the sorts of the pattern places that open each production for its kinds, and none nullable.
fn fill_sorts(
    table: &[u8],
    owners: &[u8; EACH_ALTERNATIVE],
    starts: &[u16; EACH_ALTERNATIVE],
    m: usize,
    nulls: u64,
    sets: &[u64],
    room: &mut [u64],
)
    requires { FillRoom table.now m owners.now starts.now sets.now room.old }
    ensures { room.new
        ≡ sorts_filled table.now m owners.now starts.now nulls sets.now room.old }
{
    begin(room, 0, sets);
    for j in (0..m).rev() {
        let owner = owners[j];
        let start = offset(starts, j);
        let found = gather(table, start, nulls, sets);
        lay(room, j, owner, starts[j], found / BELOW_PLACES, false);
    }
}

// What 13 names of some kinds and sorts that are shared.
fn name_of(kinds: u64, sorts: u64) -> u64
    ensures { result ≡ lowest_of kinds sorts }
{
    if 0 < kinds {
        lowest(kinds) as u64
    } else if 0 < sorts {
        VARIABLE_KIND as u64 + lowest(sorts) as u64
    } else {
        NO_KIND as u64
    }
}

// Whether two productions of one nonterminal clash, by their kinds in one room or by the sorts of places in another.
fn check_both(room: &[u64; ROOM], sorts: &[u64; ROOM], many: u8) -> Verdict
    requires { PlacesBelowBoth many room.now sorts.now }
    ensures { result ≡ verdict (no_clash_with room.now sorts.now) }
{
    let n = clashing(room, many).min(clashing(sorts, many));
    if n < many {
        let name = name_of(shared(room, n), shared(sorts, n));
        Err(Cause::Ambiguous.refuse(n as u64, name, 0))
    } else {
        Ok(())
    }
}

// Whether two productions of one nonterminal clash, where a pattern place opens one.
pub(crate) fn check_sorts(
    table: &[u8],
    owners: &[u8; EACH_ALTERNATIVE],
    starts: &[u16; EACH_ALTERNATIVE],
    m: usize,
    many: u8,
    nulls: u64,
    room: &[u64; ROOM],
) -> Verdict
    requires { SortsAsked many table.now m owners.now starts.now room.now }
    ensures { result ≡ verdict (no_clash_with room.now
        (sorts_room table.now (places_in m owners.now starts.now) nulls)) }
{
    let mut sets = [0u64; EACH_NONTERMINAL];
    pattern_sets(table, owners, starts, m, nulls, &mut sets);
    let mut sorts = [0u64; ROOM];
    fill_sorts(table, owners, starts, m, nulls, &sets, &mut sorts);
    check_both(room, &sorts, many)
}
