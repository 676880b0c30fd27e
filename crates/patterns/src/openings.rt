// What opens a production, gathered in one walk where the room of a grammar is filled: its kinds, and the pattern places (document 02, C-14)
// that stand first in it. What calls give of places is left out: where no production has a place first, none is opened by one.
ghost use Rattle.std.specs.Prelude.{◌≡◌};
ghost use Rattle.grammar.specs.Table.{terminal};
ghost use Rattle.grammar.specs.Lookup.{fields_at};
ghost use Rattle.productions.specs.Index.{items_of};
ghost use Rattle.productions.specs.Symbols.{terminal_in, with_symbol};
ghost use Rattle.patterns.specs.Opened.{place_of, with_item, opening_by};

use crate::{Opening, place_bit};
use firsts::items::set_at;
use kinds::{has, join, set_of_kind};
use productions::items::{item_at, kind_of};
use productions::{Symbol, Terminal};

// The place that a terminal is, if it is one.
fn place_of(t: Terminal) -> u64
    ensures { result ≡ place_of (terminal (terminal_in t)) }
{
    match t {
        Terminal::Place(sort) => place_bit(sort),
        _ => 0,
    }
}

// What is found with an item, behind what was found before it; and whether the item may read nothing.
fn with_item(s: Symbol, nulls: u64, sets: &[u64], found: Opening) -> Opening
    ensures { result ≡ with_item nulls sets.now (with_symbol s) found }
{
    match s {
        Symbol::Read(t) => Opening {
            kinds: join(found.kinds, set_of_kind(kind_of(t))),
            places: join(found.places, place_of(t)),
            nullable: false,
        },
        Symbol::Local => Opening {
            kinds: found.kinds,
            places: found.places,
            nullable: true,
        },
        Symbol::Call(n) => Opening {
            kinds: join(found.kinds, set_at(sets, n as usize)),
            places: found.places,
            nullable: has(nulls, n),
        },
    }
}

// What the items of the alternative at an offset give, up to the first that is not nullable, with that one; and whether all of them are nullable.
pub fn opening(table: &[u8], start: usize, nulls: u64, sets: &[u64]) -> Opening
    ensures { result ≡ opening_by nulls sets.now (items_of (fields_at table.now start)) }
{
    let mut found = Opening {
        kinds: 0,
        places: 0,
        nullable: true,
    };
    let mut at = start;
    while let Some((s, next)) = item_at(table, at) {
        found = with_item(s, nulls, sets, found);
        if found.nullable {
            at = next;
        } else {
            return found;
        }
    }
    found
}
