// The one room in which the grammar of a passed table lies: 641 numbers, written and read by these functions. Any room is read without a
// fault: what is not there is 0.
ghost use Rattle.std.specs.Prelude.{◌+◌, ◌*◌, ◌/◌, ◌<◌, ◌≤◌, ◌≡◌, length, get_or, true, false};
ghost use Rattle.grammar.specs.Limits.{most};
ghost use Rattle.productions.specs.Room.{room_size, productions_at, links_at, place_base, nullable_base};
ghost use Rattle.productions.specs.Room.{begun, laid, patterned, RoomAndSets, RoomAt, PatternsAt};
ghost use Rattle.productions.specs.Room.{kinds_in, first_set_in, first_place_in, nullable_place_in, first_in, start_in, next_place_in, nullable_in, patterns_in};

use grammar::limits::{EACH_ALTERNATIVE, EACH_NONTERMINAL};

// Where the room has the first sets of nonterminals, the places of their productions, and two numbers for each production: its first set
// and its link.
const FIRST_SETS: usize = 1;

const PLACES: usize = FIRST_SETS + EACH_NONTERMINAL;

const PRODUCTIONS: usize = PLACES + EACH_NONTERMINAL;

const LINKS: usize = PRODUCTIONS + 1;

// The numbers of the room.
pub const ROOM: usize = PRODUCTIONS + 2 * EACH_ALTERNATIVE;

// The place that is no production's.
pub const NO_PLACE: usize = EACH_ALTERNATIVE;

// Places, with that one, are below this; so two of them are one number.
const PLACE_BASE: u64 = 512;

const NO_PLACES: u64 = NO_PLACE as u64 * (PLACE_BASE + 1);

// Offsets are below this; a link is an offset, a place, whether the production is nullable, and what reads a variable first in it.
const START_BASE: u64 = 65536;

const NULLABLE: u64 = START_BASE * PLACE_BASE;

const PATTERNS: u64 = NULLABLE * 2;

// The kinds that occur in the alternatives that the root reaches.
pub fn reached(room: &[u64; ROOM]) -> u64
    ensures { result ≡ kinds_in room.now }
{
    room[0]
}

// The first set of a nonterminal.
pub fn first_set(room: &[u64; ROOM], n: u8) -> u64
    ensures { result ≡ first_set_in room.now n }
{
    room[FIRST_SETS + n as usize]
}

// The place of a nonterminal's first production, 256 if it has none.
pub fn first_place(room: &[u64; ROOM], n: u8) -> usize
    ensures { result ≡ first_place_in room.now n }
{
    (room[PLACES + n as usize] % PLACE_BASE) as usize
}

// The place of a nonterminal's nullable production, 256 if it has none.
pub fn nullable_place(room: &[u64; ROOM], n: u8) -> usize
    ensures { result ≡ nullable_place_in room.now n }
{
    (room[PLACES + n as usize] / PLACE_BASE) as usize
}

// One of the two numbers of the production at a place.
fn number(room: &[u64], base: usize, j: usize) -> u64
    requires { (length room.now ≡ room_size) × (productions_at ≤ base) × (base ≤ links_at) }
    ensures { result ≡ get_or room.now (base + 2 * j) 0 }
{
    if j < NO_PLACE { room[base + 2 * j] } else { 0 }
}

// The first set of the production at a place.
pub fn first(room: &[u64; ROOM], j: usize) -> u64
    ensures { result ≡ first_in room.now j }
{
    number(room, PRODUCTIONS, j)
}

// The offset, the next place, the nullability and the patterns of the production at a place, in one number.
fn link(room: &[u64; ROOM], j: usize) -> u64
    ensures { result ≡ get_or room.now (links_at + 2 * j) 0 }
{
    number(room, LINKS, j)
}

// The offset in the table of its first item, or of its result if it has none.
pub fn start(room: &[u64; ROOM], j: usize) -> usize
    ensures { result ≡ start_in room.now j }
{
    (link(room, j) % START_BASE) as usize
}

// The place of the next production of the same nonterminal, 256 if there is none.
pub fn next_place(room: &[u64; ROOM], j: usize) -> usize
    ensures { result ≡ next_place_in room.now j }
{
    (link(room, j) / START_BASE % PLACE_BASE) as usize
}

// Whether all its items may read nothing.
pub fn is_nullable(room: &[u64; ROOM], j: usize) -> bool
    ensures { result ≡ nullable_in room.now j }
{
    link(room, j) / NULLABLE % 2 == 1
}

// What reads a variable first in it (document 02, C-14): 0 in the room for a formula.
pub fn patterns(room: &[u64; ROOM], j: usize) -> u64
    ensures { result ≡ patterns_in room.now j }
{
    link(room, j) / PATTERNS
}

// Begins a room: the kinds that are reached, and the first sets of the nonterminals, which have no production yet. One by one, as `spellings::copy_into`.
pub fn begin(room: &mut [u64], kinds: u64, sets: &[u64])
    requires { RoomAndSets room.old sets.now }
    ensures { room.new ≡ begun kinds sets.now room.old }
{
    room[0] = kinds;
    for n in 0..EACH_NONTERMINAL {
        room[FIRST_SETS + n] = sets[n];
        room[PLACES + n] = NO_PLACES;
    }
}

// Where the productions of a nonterminal are, with one more at a place in front of the others.
fn places_from(nullable: bool, place: u64, old: u64) -> u64
    requires { place < most.alternatives }
    ensures { result ≡ place + place_base * (elim nullable [ true ↦ place | false ↦ old / place_base ]) }
{
    let null = if nullable { place } else { old / PLACE_BASE };
    place + PLACE_BASE * null
}

// Lays a production at a place, in front of those at later places. Nothing reads a variable in a room for a formula.
pub fn lay(room: &mut [u64], j: usize, owner: u8, start: u16, first: u64, nullable: bool)
    requires { RoomAt j owner room.old }
    ensures { room.new ≡ laid (record { nonterminal = owner; start = start; first = first; nullable = nullable; patterns = 0 }) j room.old }
{
    let own = PLACES + owner as usize;
    let old = room[own];
    room[PRODUCTIONS + 2 * j] = first;
    room[LINKS + 2 * j] = start as u64
        + START_BASE * (old % PLACE_BASE)
        + NULLABLE * u64::from(nullable);
    room[own] = places_from(nullable, j as u64, old);
}

// Adds to the link of the production at a place what reads a variable first in it, of which the link has nothing.
pub fn add_patterns(room: &mut [u64], j: usize, patterns: u64)
    requires { PatternsAt j patterns room.old }
    ensures { room.new ≡ patterned j patterns room.old }
{
    let at = LINKS + 2 * j;
    let link = room[at];
    room[at] = link + PATTERNS * patterns;
}
