// The reading of a text under the blocks before its own (document 02, C-14), where their room is prepared.
ghost use Rattle.elaborator.specs.TextsUnder.{ReadableUnder, ReadsUnder};

use crate::prepared::kinds_from;
use productions::room::ROOM;
use reader::judging::{TextAnswer, TextHead};
use reader::read_text;

// Reads a text from nonterminal n, which has a sort, where another is asked: under the bytes of the blocks before and the texts that they hold, with their
// room, the sorts of the alternative's variables, and cells that are zero, as many rows as are left for texts. The keywords that count are those reached
// from n.
pub fn read_under(
    cells: &mut [u32],
    table: &[u8],
    texts: &[u32],
    room: &[u64; ROOM],
    variables: &[u8],
    text: &[u8],
    n: u8,
    sort: u8,
    asked: u8,
) -> TextAnswer
    requires { ReadableUnder table.now texts.now room.now variables.now }
    ensures { ReadsUnder table.now texts.now variables.now text.now n sort asked
        cells.old result cells.new }
{
    let kinds = kinds_from(table, n);
    let head = TextHead {
        nonterminal: n,
        sort,
        asked,
        kinds,
    };
    read_text(cells, table, texts, room, variables, text, head)
}
