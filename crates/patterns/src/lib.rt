// What reads a `$` variable first in the productions of a grammar (document 02, C-14): gathered where a text is read, as first sets are gathered where a
// table is checked.
#![tactic(auto)]

pub mod openings;
pub mod text_room;

ghost use Rattle.std.specs.Prelude.{◌≡◌, get_or, set};
ghost use Rattle.std.specs.Int.Bits.{bit_or};
ghost use Rattle.grammar.specs.SortTests.{is_sort, is_ide_sort};
ghost use Rattle.grammar.specs.Table.{terminal};
ghost use Rattle.grammar.specs.Lookup.{fields_at};
ghost use Rattle.productions.specs.Index.{items_of, production_at, productions_by};
ghost use Rattle.productions.specs.Symbols.{terminal_in, with_symbol};
ghost use Rattle.firsts.specs.FirstSets.{is_nullable, joined, gather, first_step, over_all};
ghost use Rattle.firsts.specs.Patterns.{only_if, place_bit, pattern_of, pattern_sets};
ghost use Rattle.patterns.specs.Grown.{Grown};

use firsts::items::set_at;
use grammar::limits::EACH_NONTERMINAL;
use grammar::reader::byte;
use grammar::sorts::Sort;
use kinds::{has, join, only};
use productions::index::offset;
use productions::items::item_at;
use productions::{Symbol, Terminal};

// What opens a production: its kinds, the pattern places that stand first in it, and whether it is nullable.
#[derive(Drop)]
pub struct Opening {
    pub kinds: u64,
    pub places: u64,
    pub nullable: bool,
}

// The bit of a pattern place of sort 0.
const PLACE_BIT: u8 = 8;

// The bit of an ide of a sort, of one that the layout passes.
fn ide_bit(sort: u8) -> u64
    ensures { result ≡ only_if (is_ide_sort sort) sort }
{
    let known = Sort::is_ide_code(sort);
    if known { only(sort) } else { 0 }
}

// The bit of a pattern place of a sort, of one that the layout passes.
fn place_bit(sort: u8) -> u64
    ensures { result ≡ only_if (is_sort sort) (place_bit sort) }
{
    let known = Sort::is_code(sort);
    if known { only(PLACE_BIT + sort) } else { 0 }
}

// What a terminal gives by itself.
fn pattern_of(t: Terminal) -> u64
    ensures { result ≡ pattern_of (terminal (terminal_in t)) }
{
    match t {
        Terminal::Keyword(_) | Terminal::Number => 0,
        Terminal::Ide(sort) => ide_bit(sort),
        Terminal::Place(sort) => place_bit(sort),
    }
}

// What is found with an item, behind what was found before it.
fn with_item(s: Symbol, sets: &[u64], found: u64) -> u64
    ensures { result ≡ joined pattern_of sets.now (with_symbol s) found }
{
    match s {
        Symbol::Read(t) => join(found, pattern_of(t)),
        Symbol::Local => found,
        Symbol::Call(n) => join(found, set_at(sets, n as usize)),
    }
}

// Whether an item may read nothing.
fn is_nullable(s: Symbol, nulls: u64) -> bool
    ensures { result ≡ is_nullable nulls (with_symbol s) }
{
    match s {
        Symbol::Read(_) => false,
        Symbol::Local => true,
        Symbol::Call(n) => has(nulls, n),
    }
}

// What the items of the alternative at an offset give, up to the first that is not nullable, with that one.
pub fn gather(table: &[u8], start: usize, nulls: u64, sets: &[u64]) -> u64
    ensures { result ≡ gather pattern_of nulls sets.now (items_of (fields_at table.now start)) 0 }
{
    let mut found: u64 = 0;
    let mut at = start;
    while let Some((s, next)) = item_at(table, at) {
        found = with_item(s, sets, found);
        let goes = is_nullable(s, nulls);
        if goes {
            at = next;
        } else {
            return found;
        }
    }
    found
}

// Joins what was found to the set of nonterminal n; whether the set grew.
fn join_at(sets: &mut [u64], n: u8, found: u64) -> bool
    ensures { Grown (set sets.old n (bit_or (get_or sets.old n 0) found)) sets.old sets.new result }
{
    let i = n as usize;
    if i < sets.len() {
        let old = sets[i];
        let new = join(old, found);
        sets[i] = new;
        return new != old;
    }
    false
}

// What a production gives is joined to the set of its nonterminal; whether the set grew.
fn step(table: &[u8], owner: u8, start: usize, nulls: u64, sets: &mut [u64]) -> bool
    ensures { Grown (first_step pattern_of nulls (production_at table.now owner start) sets.old)
        sets.old sets.new result }
{
    let found = gather(table, start, nulls, sets);
    join_at(sets, owner, found)
}

// One round: a step for each production, in order; whether a set grew.
fn round(
    table: &[u8],
    owners: &[u8],
    starts: &[u16],
    m: usize,
    nulls: u64,
    sets: &mut [u64],
) -> bool
    ensures { Grown (over_all (first_step pattern_of nulls) (productions_by m table.now owners.now
        starts.now) sets.old) sets.old sets.new result }
{
    let mut grew = false;
    for j in 0..m {
        let owner = byte(owners, j);
        let start = offset(starts, j);
        let more = step(table, owner, start, nulls, sets);
        grew = grew | more;
    }
    grew
}

// What reads a variable first in the alternatives of each nonterminal: rounds, until one changes nothing.
pub fn pattern_sets(
    table: &[u8],
    owners: &[u8],
    starts: &[u16],
    m: usize,
    nulls: u64,
    sets: &mut [u64; EACH_NONTERMINAL],
)
    ensures { sets.new ≡ pattern_sets nulls (productions_by m table.now owners.now starts.now) }
{
    *sets = [0u64; EACH_NONTERMINAL];
    for _ in 0..EACH_NONTERMINAL {
        let grew = round(table, owners, starts, m, nulls, sets);
        if !grew {
            return;
        }
    }
}
