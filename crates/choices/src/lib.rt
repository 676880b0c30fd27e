// The production that a call takes, by its place in the room of a grammar.
#![tactic(auto)]

ghost use Rattle.std.specs.Prelude.{ℕ, Bool, ◌+◌, ◌^◌, ◌<◌, ◌≤◌, ◌≡◌, List};
ghost use Rattle.grammar.specs.Limits.{most};
ghost use Rattle.kinds.specs.Kinds.{no_kind};
ghost use Rattle.productions.specs.Room.{Entry};
ghost use Rattle.firsts.specs.Patterns.{opens_ide};
ghost use Rattle.grammar.specs.Table.{Item};
ghost use Rattle.choices.specs.Held.{HeldFor, HoldsSome};
ghost use Rattle.choices.specs.Chosen.{kinds_in, entries_for, holds_kind, opens_by, opens_sort, first_with, chosen_place, RemembersFor, MayChoose};
ghost use Rattle.choices.specs.Chosen.{ChoosesFor, Tests};

use grammar::limits::{EACH_NONTERMINAL, NONTERMINALS};
use grammar::sorts::Sort;
use kinds::{NO_KIND, OUTSIDE_KIND, VARIABLE_KIND, WORD_KIND, has_kind};
use productions::room::{
    NO_PLACE, ROOM, first, first_place, first_set, next_place, nullable_place, patterns,
};

const KINDS: usize = NO_KIND as usize;

// The sorts at which an identifier is read, and the bit of a place of sort 0, in a set of what reads a variable first.
const VAR: u32 = Sort::VAR.0 as u32;

const BINDER: u32 = Sort::BINDER.0 as u32;

const LABEL: u32 = Sort::LABEL.0 as u32;

const PLACE_BIT: u32 = 8;

// What is remembered: a byte for each nonterminal and kind.
pub const MEMORY: usize = EACH_NONTERMINAL * KINDS;

// The place of the first production of nonterminal n that passes a test, which is asked of its place; 256 if there is none.
fn first_that<F: Fn(usize) -> bool>(room: &[u64; ROOM], n: u8, test: F) -> usize
    requires held { HoldsSome room.now × (n < most.nonterminals) }
    requires asked { F.IsAlwaysCallable test }
    ensures { (P : List Item → ℕ) (bs : List ℕ) → HeldFor P bs room.now → (passes : Entry → Bool) → Tests (F.post test) (entries_for P bs) passes
        → result ≡ first_with (entries_for P bs) n passes }
{
    let mut j = first_place(room, n);
    while j < NO_PLACE {
        let fits = test(j);
        if fits {
            return j;
        }
        j = next_place(room, j);
    }
    NO_PLACE
}

// The place of the first production of nonterminal n whose first set holds a kind, 256 if there is none.
fn opened(room: &[u64; ROOM], n: u8, kind: u32) -> usize
    requires { HoldsSome room.now × (n < most.nonterminals) }
    ensures { (P : List Item → ℕ) (bs : List ℕ) → HeldFor P bs room.now → result ≡ first_with (entries_for P bs) n (holds_kind kind) }
{
    first_that(room, n, |j| has_kind(first(room, j), kind))
}

// The place of the production whose first set holds the kind of the next token, one of a formula, else of the nullable one; 256 if there is neither. The
// first set of the nonterminal says whether there is one of the first; only then its productions are looked at.
fn search(room: &[u64; ROOM], n: u8, kind: u32) -> usize
    requires { HoldsSome room.now × (n < most.nonterminals) × (kind ≤ no_kind) }
    ensures { (P : List Item → ℕ) (bs : List ℕ) → HeldFor P bs room.now → result ≡ chosen_place (entries_for P bs) n kind }
{
    let opens = has_kind(first_set(room, n), kind);
    if opens {
        opened(room, n, kind)
    } else {
        nullable_place(room, n)
    }
}

// Whether an ide that a variable of a sort fits is in a set: the same sort, or a Var for a Binder.
fn opens_ide(patterns: u64, sort: u32) -> bool
    ensures { result ≡ opens_ide patterns sort }
{
    match sort {
        VAR => has_kind(patterns, VAR),
        BINDER => has_kind(patterns, VAR) | has_kind(patterns, BINDER),
        LABEL => has_kind(patterns, LABEL),
        _ => false,
    }
}

// Whether a variable of a sort opens what reads variables first so: by a place of the sort, or by an ide that it fits.
fn opens_by(placed: bool, patterns: u64, sort: u32) -> bool
    requires { sort + 65 < 2 ^ 32 }
    ensures { result ≡ opens_by placed patterns sort }
{
    if placed {
        has_kind(patterns, PLACE_BIT + sort)
    } else {
        opens_ide(patterns, sort)
    }
}

// The place of the first production of nonterminal n that opens with a variable of a sort, by a place or by an ide; 256 if there is none.
fn opened_by(room: &[u64; ROOM], n: u8, placed: bool, sort: u32) -> usize
    requires { HoldsSome room.now × (n < most.nonterminals) × (sort + 65 < 2 ^ 32) }
    ensures { (P : List Item → ℕ) (bs : List ℕ) → HeldFor P bs room.now → result ≡ first_with (entries_for P bs) n (opens_sort placed sort) }
{
    first_that(room, n, |j| opens_by(placed, patterns(room, j), sort))
}

// The same for a token of a text: an outside name chooses as a word does, a variable an ide that it fits before a place of its sort. It stands apart from
// the choice for a formula, which is looked for more often.
#[inline(never)]
fn search_text(room: &[u64; ROOM], n: u8, kind: u32) -> usize
    requires { HoldsSome room.now × (n < most.nonterminals) × (no_kind < kind) }
    ensures { (P : List Item → ℕ) (bs : List ℕ) → HeldFor P bs room.now → result ≡ chosen_place (entries_for P bs) n kind }
{
    if kind == OUTSIDE_KIND {
        return search(room, n, WORD_KIND);
    }
    let sort = kind - VARIABLE_KIND;
    let by_ide = opened_by(room, n, false, sort);
    if by_ide < NO_PLACE {
        return by_ide;
    }
    let by_place = opened_by(room, n, true, sort);
    if by_place < NO_PLACE {
        return by_place;
    }
    nullable_place(room, n)
}

// The same, remembered: a choice is searched for where it is met first, and then looked up. A place is remembered as it is, and 0 says that
// none is. So place 0 is searched for each time, and so is what is not there; but place 0 is that of a nonterminal's first production, which is
// looked at first, and the first set says that there is none.
pub fn choose(room: &[u64; ROOM], memory: &mut [u8; MEMORY], n: u8, kind: u32) -> usize
    requires { MayChoose room.now memory.old }
    ensures { (P : List Item → ℕ) (bs : List ℕ) → HeldFor P bs room.now → RemembersFor P bs memory.old → ChoosesFor P bs n
        kind result memory.new }
{
    if NONTERMINALS <= n {
        return NO_PLACE;
    }
    if NO_KIND <= kind {
        if NO_KIND < kind {
            return search_text(room, n, kind);
        }
        return search(room, n, kind);
    }
    let at = n as usize * KINDS + kind as usize;
    let known = usize::from(memory[at]);
    if 0 < known {
        return known;
    }
    let place = search(room, n, kind);
    if place < NO_PLACE {
        memory[at] = place as u8;
    }
    place
}

// The first set of a nonterminal, empty for what is none.
pub fn kinds_of(room: &[u64; ROOM], nonterminal: u8) -> u64
    ensures { result ≡ kinds_in room.now nonterminal }
{
    if nonterminal < NONTERMINALS {
        first_set(room, nonterminal)
    } else {
        0
    }
}
