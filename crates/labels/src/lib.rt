// A label given twice in one record: refusal 29. Labels are told apart by their spelling numbers.
#![tactic(auto)]

ghost use Rattle.std.specs.Prelude.{◌+◌, ◌<◌, ◌≤◌, ◌≡◌, length, replicate};
ghost use Rattle.grammar.specs.Limits.{most};
ghost use Rattle.tokens.specs.Tokens.{most_tokens};
ghost use Rattle.terms.specs.Term.{largest_term};
ghost use Rattle.rows.specs.Sizes.{WholeRows, rows_held};
ghost use Rattle.labels.specs.Stamps.{has_fields, PutsStamp, Stampable, Stamps};
ghost use Rattle.labels.specs.Searches.{Searchable, SearchableFields, Searches, SearchesFields, LabelsFit, Finds};

use grammar::limits::MOST_OUTSIDES;
use rows::column;
use terms::{COLUMNS, FIELD_CONS, TERM_APP, TERM_DOT, TERM_FUN, TERM_RCD};
use tokens::MOST_TOKENS;

// The stamp of the record at a place.
fn stamp_of(place: usize) -> u16
    requires { place ≤ largest_term }
    ensures { result ≡ place + 1 }
{
    (place + 1) as u16
}

// Puts a stamp at a label's number; the answer is whether it stood there.
fn put_stamp(stamps: &mut [u16], label: u32, stamp: u16) -> bool
    requires { label < length stamps.old }
    ensures { PutsStamp stamps.old label stamp result stamps.new }
{
    let at = label as usize;
    let before = stamps[at];
    stamps[at] = stamp;
    before == stamp
}

// How many labels at the front of the field list at a row differ from all before them. Each leaves the stamp at its number.
fn differing(cells: &[u32], bound: usize, row: u32, stamp: u16, stamps: &mut [u16]) -> usize
    requires { Stampable cells.now bound row stamps.old stamp }
    ensures { Stamps cells.now bound row stamps.old stamp result stamps.new }
{
    let mut part = row;
    for count in 0..bound {
        let code = column(cells, part, 0);
        if code != FIELD_CONS {
            return count;
        }
        let again = put_stamp(stamps, column(cells, part, 1), stamp);
        if again {
            return count;
        }
        part = column(cells, part, 3);
    }
    bound
}

// Whether a label inside the term at a row stood earlier in its record: `place` is then the place of the first such field, else the one behind the term.
// At a record its labels are gone through once, before its fields are walked, so each constructor is met twice at most, however long, deep or shared its
// record is. The stamp is the record's own place, which is above all stamps before it: none is cleared, and an inner record may write over those of an
// outer one, whose labels are counted by then.
#[cycle(repeated_fields_repeated_term)]
fn repeated_term(
    cells: &&[u32],
    bound: usize,
    row: u32,
    place: &mut usize,
    stamps: &mut &mut [u16],
) -> bool
    requires { Searchable cells.now.now bound row place.old stamps.old.now }
    ensures { Searches cells.now.now bound row place.old stamps.old.now result place.new
        stamps.new.now }
{
    let here = *place;
    *place = here + 1;
    if bound == 0 {
        return false;
    }
    let deep = bound - 1;
    let code = column(*cells, row, 0);
    let first = column(*cells, row, 1);
    match code {
        TERM_FUN => repeated_term(cells, deep, column(*cells, row, 2), place, stamps),
        TERM_APP => {
            let found = repeated_term(cells, deep, first, place, stamps);
            if found {
                return true;
            }
            repeated_term(cells, deep, column(*cells, row, 2), place, stamps)
        }
        TERM_RCD => {
            let left = differing(*cells, deep, first, stamp_of(here), *stamps);
            repeated_fields(cells, deep, first, left, place, stamps)
        }
        TERM_DOT => repeated_term(cells, deep, first, place, stamps),
        _ => false,
    }
}

// The same of the field list at a row, of whose labels `left` at the front differ from all before them in their record.
#[cycle(repeated_fields_repeated_term)]
fn repeated_fields(
    cells: &&[u32],
    bound: usize,
    row: u32,
    left: usize,
    place: &mut usize,
    stamps: &mut &mut [u16],
) -> bool
    requires { SearchableFields cells.now.now bound row place.old stamps.old.now }
    ensures { SearchesFields cells.now.now bound row left place.old stamps.old.now result place.new
        stamps.new.now }
{
    let here = *place;
    if bound == 0 {
        *place = here + 1;
        return false;
    }
    let deep = bound - 1;
    let code = column(*cells, row, 0);
    if code == FIELD_CONS {
        if left == 0 {
            return true;
        }
        *place = here + 1;
        let found = repeated_term(cells, deep, column(*cells, row, 2), place, stamps);
        if found {
            return true;
        }
        return repeated_fields(cells, deep, column(*cells, row, 3), left - 1, place, stamps);
    }
    *place = here + 1;
    false
}

// Whether some row is a mkFieldCons.
fn has_fields(cells: &[u32]) -> bool
    requires { WholeRows cells.now }
    ensures { result ≡ has_fields cells.now }
{
    for row in 0..cells.len() / COLUMNS {
        let code = column(cells, row as u32, 0);
        if code == FIELD_CONS {
            return true;
        }
    }
    false
}

// The search with a room that has a stamp for each label's number: the first place of a label that stood earlier in its record. Each room has a frame of its
// own, so that a caller's frame stays without it.
#[inline(never)]
fn search_in<const ROOM: usize>(cells: &[u32], root: u32) -> Option<usize>
    requires searchable { Searchable cells.now (rows_held cells.now) root 0 (replicate ROOM 0) }
    requires room { ROOM ≤ most.outsides + most_tokens }
    ensures { Finds cells.now root result }
{
    let mut stamps = [0u16; ROOM];
    let mut room = &mut stamps[..];
    let mut place: usize = 0;
    let found = repeated_term(&cells, cells.len() / COLUMNS, root, &mut place, &mut room);
    if found { Some(place) } else { None }
}

// The numbers of outside names, which come before those of words.
const OUTSIDES: usize = MOST_OUTSIDES as usize;

// Words for which a shorter room is lent.
const FEW_WORDS: usize = 64;

const SMALL_ROOM: usize = OUTSIDES + FEW_WORDS;

const LARGE_ROOM: usize = OUTSIDES + MOST_TOKENS;

// The first place of a label that stood earlier in its record, in the term at a row whose labels are outside names or among so many words. Rows without a
// mkFieldCons are looked at once, and not walked.
pub fn find_repetition(cells: &[u32], root: u32, words: usize) -> Option<usize>
    requires { LabelsFit cells.now root words }
    ensures { Finds cells.now root result }
{
    if !has_fields(cells) {
        return None;
    }
    if words <= FEW_WORDS {
        return search_in::<SMALL_ROOM>(cells, root);
    }
    search_in::<LARGE_ROOM>(cells, root)
}
