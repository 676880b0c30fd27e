// The layout of a phrase table, field by field: refusals 1 to 6 and 10.
#![tactic(auto)]

mod index;

ghost use Rattle.std.specs.Prelude.{◌≡◌, true, List, ◌-◌, eqb};
ghost use Rattle.grammar.specs.Values.{Field};
ghost use Rattle.answers.specs.Causes.{cause_number};
ghost use Rattle.answers.specs.Refusals.{refusal};
ghost use Rattle.answers.specs.Checked.{need, verdict};
ghost use Rattle.decoding.specs.Layout.{is_spelled, check_field};
ghost use Rattle.decoding.specs.Layout.{layout};
ghost use Rattle.layout.specs.Before.{fields_before, checking};
ghost use Rattle.layout.specs.Index.{spellings_under, Indexed, SpellingLent, FieldLent, EnterableUnder, EnteredUnder};

use answers::causes::Cause;
use answers::{Refusal, Verdict};
use decoding::Progress;
use fields::{further, has_room, is_known, is_whole, may_follow};
use grammar::codes::{HEADER, KEYWORD_TAG, OUTSIDE_TAG, ROOT_TAG};
use grammar::limits::LONGEST_TABLE;
use grammar::{Front, front_at};
use index::{ROOM, enter, is_among, spelling_hash};
use spellings::{is_keyword_spelling, is_word};

// ---------------------------------------------------------------- 5: spellings

// A keyword or an outside name is spelled as it must be and stands once under its tag; the rooms have those before it.
fn is_spelled(
    keywords: &[u32; ROOM],
    outsides: &[u32; ROOM],
    table: &[u8],
    tag: u8,
    v: &[u8],
    h: usize,
) -> bool
    requires { SpellingLent tag v.now h keywords.now outsides.now }
    ensures { (before : List Field) → Indexed table.now keywords.now (spellings_under 1 before)
        → Indexed table.now outsides.now (spellings_under 2 before) → result ≡ is_spelled tag v.now before }
{
    match tag {
        KEYWORD_TAG => is_keyword_spelling(v) & !is_among(keywords, table, v, h),
        OUTSIDE_TAG => is_word(v) & !is_among(outsides, table, v, h),
        _ => true,
    }
}

// ---------------------------------------------------------------- field by field

fn stopped(cause: Cause, at: usize) -> Result<Progress, Refusal>
    ensures { result ≡ Err (refusal (cause_number cause) at 0 0) }
{
    Err(cause.refuse(at as u64, 0, 0))
}

// One field of a table at an offset, after those that begin before it, whose spellings the rooms have: what has then been read, or the
// refusal at which the check stops. A keyword or an outside name has the hash h.
fn check_field(
    keywords: &[u32; ROOM],
    outsides: &[u32; ROOM],
    table: &[u8],
    at: usize,
    tag: u8,
    v: &[u8],
    h: usize,
    s: Progress,
) -> Result<Progress, Refusal>
    requires { FieldLent table.now at tag v.now h s keywords.now outsides.now }
    ensures { result ≡ checking (check_field (fields_before table.now at) at tag v.now s) }
{
    if !is_known(tag, v) {
        return stopped(Cause::UnknownField, at);
    }
    if !may_follow(tag, s.last) {
        return stopped(Cause::FieldOutOfOrder, at);
    }
    if !is_spelled(keywords, outsides, table, tag, v, h) {
        return stopped(Cause::BadSpelling, at);
    }
    if !has_room(tag, s) {
        return stopped(Cause::TooMany, at);
    }
    if !is_whole(tag, v) {
        return stopped(Cause::BadTemplate, at);
    }
    Ok(further(tag, s))
}

// The end of a table: the root is last.
fn check_end(at: usize, s: Progress) -> Verdict
    ensures { result ≡ verdict (need (eqb s.last 8) 4 at) }
{
    if s.last == ROOT_TAG {
        return Ok(());
    }
    Cause::FieldOutOfOrder.refused(at)
}

// Enters the spelling of a field in the room of its tag, if it is a keyword or an outside name; s is what was read before it.
fn remember(
    keywords: &mut [u32; ROOM],
    outsides: &mut [u32; ROOM],
    tag: u8,
    s: Progress,
    from: usize,
    v: &[u8],
    h: usize,
)
    requires { EnterableUnder tag s from v.now h }
    ensures { EnteredUnder tag s from v.now keywords.old outsides.old keywords.new outsides.new }
{
    enter(
        keywords,
        tag == KEYWORD_TAG,
        s.keywords as usize,
        from,
        v,
        h,
    );
    enter(
        outsides,
        tag == OUTSIDE_TAG,
        s.outsides as usize,
        from,
        v,
        h,
    );
}

// The layout of a table: refusals 1 to 6 and 10.
pub fn check_layout(table: &[u8]) -> Verdict
    ensures { result ≡ verdict (layout table.now) }
{
    if LONGEST_TABLE < table.len() {
        return Cause::TableTooLong.refused(0);
    }
    let mut keywords = [0u32; ROOM];
    let mut outsides = [0u32; ROOM];
    let mut at: usize = 0;
    let mut s = Progress::default();
    loop {
        let front = front_at(table, at);
        match front {
            Front::Nothing => {
                return check_end(at, s);
            }
            Front::Short => {
                return Cause::FieldPastEnd.refused(at);
            }
            Front::Field(tag, size) => {
                let from = at + HEADER;
                let to = from + size;
                let v = &table[from..to];
                let h = spelling_hash(tag, v);
                let checked = check_field(&keywords, &outsides, table, at, tag, v, h, s)?;
                remember(&mut keywords, &mut outsides, tag, s, from, v, h);
                s = checked;
                at = to;
            }
        }
    }
}
