// The check of a phrase table: refusals 1 to 13 in document 01's order.
#![tactic(auto)]

ghost use Rattle.std.specs.Prelude.{◌≡◌, ◌↔◌};
ghost use Rattle.answers.specs.Refusals.{numbered_verdict};
ghost use Rattle.checker.specs.Check.{check};
ghost use Rattle.checker.specs.CheckedInto.{CheckedInto};
ghost use Rattle.checker.specs.Passes.{Passes};

use answers::Verdict;
use clashes::prepared::check_firsts;
use grammar::limits::EACH_ALTERNATIVE;
use layout::check_layout;
use productions::index::build_index;
use productions::room::ROOM;
use sorts::check_sorts;

// Checks a table, for any bytes, and lays in one lent room what an expansion needs of its grammar. The room is written where layout and
// sorts are right, and else stays as it was. This rules out that a refused table passes, and that the room of one table holds another's.
pub fn check_into(table: &[u8], room: &mut [u64; ROOM]) -> Verdict
    ensures { CheckedInto table.now room.old room.new result }
{
    check_layout(table)?;
    // The layout passes no text, so that the check of sorts meets none.
    check_sorts(table).unwrap()?;
    let mut owners = [0u8; EACH_ALTERNATIVE];
    let mut starts = [0u16; EACH_ALTERNATIVE];
    let m = build_index(table, &mut owners, &mut starts);
    check_firsts(table, &owners, &starts, m, room)
}

// The check of a table, for any bytes: the verdict, document 01's number and values of it, and when a table passes. Ruled out are, among others, a
// check that passes every table, one that gives 11 before 9, and one that reports a place one field off.
pub fn check_table(table: &[u8]) -> Verdict
    ensures value { result ≡ check table.now }
    ensures result_value { numbered_verdict result ≡ numbered_verdict (check table.now) }
    ensures variant { (result ≡ Ok tt) ↔ Passes table.now }
{
    let mut room = [0u64; ROOM];
    check_into(table, &mut room)
}
