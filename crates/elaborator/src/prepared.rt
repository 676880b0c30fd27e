// What is prepared of the blocks before a text's own (document 02, C-14): their grammar in a room, with what reads a variable first in each production, and the
// kinds that are reached from the text's nonterminal. The table is the bytes of these blocks: a prefix of the whole, with its keywords and outside names.
ghost use Rattle.std.specs.Prelude.{◌≡◌, take};
ghost use Rattle.productions.specs.Index.{productions_by};
ghost use Rattle.firsts.specs.Reach.{kinds_reached};
ghost use Rattle.firsts.specs.Room.{productions_in, WholeIndex};
ghost use Rattle.elaborator.specs.PreparedTexts.{Indexable, PreparedText, PreparableOnce};

use answers::Verdict;
use clashes::prepared::check_firsts;
use firsts::nullable::nullables;
use grammar::limits::{EACH_ALTERNATIVE, EACH_NONTERMINAL};
use patterns::text_room::lay_patterns;
use productions::index::build_index;
use productions::room::ROOM;
use reach::reached_kinds;

// The kinds that are reached from a nonterminal in the productions of an index: what is read and called is noted where nullables are sought.
fn reached_from(
    table: &[u8],
    owners: &[u8; EACH_ALTERNATIVE],
    starts: &[u16; EACH_ALTERNATIVE],
    m: usize,
    n: u8,
) -> u64
    requires { WholeIndex table.now m owners.now starts.now }
    ensures { result ≡ kinds_reached (productions_by m table.now owners.now starts.now) n }
{
    let mut kinds = [0u64; EACH_NONTERMINAL];
    let mut calls = [0u64; EACH_NONTERMINAL];
    nullables(table, owners, starts, m, &mut kinds, &mut calls);
    reached_kinds(&kinds, &calls, n)
}

// The kinds of the keywords that count in a text: those reached from its nonterminal. This rules out that those reached from the table's root are taken.
pub fn kinds_from(table: &[u8], n: u8) -> u64
    requires { Indexable table.now }
    ensures { result ≡ kinds_reached (productions_in table.now) n }
{
    let mut owners = [0u8; EACH_ALTERNATIVE];
    let mut starts = [0u16; EACH_ALTERNATIVE];
    let m = build_index(table, &mut owners, &mut starts);
    reached_from(table, &owners, &starts, m, n)
}

// Whether the grammar of the blocks before can be read by its next token, refusal 12 or 13, with what the reading of a text needs of it in the room. This
// rules out that a grammar that is refused is read by, and that the room lacks what a variable opens.
pub fn prepare(table: &[u8], room: &mut [u64; ROOM]) -> Verdict
    requires { Indexable table.now }
    ensures { PreparedText table.now room.new result }
{
    let mut owners = [0u8; EACH_ALTERNATIVE];
    let mut starts = [0u16; EACH_ALTERNATIVE];
    let m = build_index(table, &mut owners, &mut starts);
    let judged = check_firsts(table, &owners, &starts, m, room);
    lay_patterns(table, &owners, &starts, m, room);
    judged
}

// The same for the block at an offset, once for all its texts: where the room is prepared for this block it passed, and stays as it is. This rules out that
// the room of another block is read by.
pub fn prepare_once(table: &[u8], block: usize, prepared: usize, room: &mut [u64; ROOM]) -> Verdict
    requires { PreparableOnce table.now block prepared room.old }
    ensures { PreparedText (take block table.now) room.new result }
{
    if prepared == block {
        return Ok(());
    }
    prepare(&table[..block], room)
}
