// The text of a result, read: from its bytes to the rows of the template that it stands for, or a refusal 26, 27, 28, 9 or 11 (document 02, C-14).
#![tactic(auto)]

pub mod attempts;
pub mod judging;
pub mod measuring;
pub mod runs;
pub mod storing;
pub mod words;

ghost use Rattle.std.specs.Prelude.{◌*◌, ◌≤◌, replicate};
ghost use Rattle.tokens.specs.Tokens.{most_tokens};
ghost use Rattle.scanner.specs.Rooms.{RoomFor};
ghost use Rattle.calls.specs.Lent.{Ready};
ghost use Rattle.steps.specs.Source.{SomeLent, EachLent};
ghost use Rattle.reader.specs.TextReadings.{Readable, ReadableIn, ExplainsText, ReadsText};

use crate::attempts::{explain, read_tokens};
use crate::judging::{TextAnswer, TextFault, TextHead};
use productions::room::ROOM;
use scanner::room::{ALL_TOKENS, ALL_WORDS, PLACE, TOKEN};

// Texts up to this have the shortest rooms.
const SHORT_TEXT: usize = 128;

const SHORT_TOKENS: usize = SHORT_TEXT * TOKEN;

const SHORT_WORDS: usize = SHORT_TEXT * PLACE;

// Texts up to this have rooms between those and the longest.
const MIDDLE_TEXT: usize = 1024;

const MIDDLE_TOKENS: usize = MIDDLE_TEXT * TOKEN;

const MIDDLE_WORDS: usize = MIDDLE_TEXT * PLACE;

// Why a text is not read with its words as outside names: it is scanned once more, as the first run changed its tokens.
fn explain_in(
    cells: &mut [u32],
    table: &[u8],
    texts: &[u32],
    room: &[u64; ROOM],
    variables: &[u8],
    text: &[u8],
    tokens: &mut [u32],
    words: &mut [u32],
    head: TextHead,
) -> TextFault
    requires { SomeLent table.now texts.now (ReadableIn room.now variables.now text.now tokens.old words.old) }
    ensures { EachLent table.now texts.now (λ S. Ready S room.now)
        (ExplainsText variables.now text.now head cells.old result) }
{
    let Ok((n, _)) = scanner::scan(table, head.kinds, variables, text, tokens, words) else {
        return TextFault::Unread;
    };
    let end = n * TOKEN;
    explain(cells, table, texts, room, head, &tokens[..end])
}

// The reading of a text with rooms that take all its tokens and words.
fn read_in(
    cells: &mut [u32],
    table: &[u8],
    texts: &[u32],
    room: &[u64; ROOM],
    variables: &[u8],
    text: &[u8],
    tokens: &mut [u32],
    words: &mut [u32],
    head: TextHead,
) -> TextAnswer
    requires { SomeLent table.now texts.now (ReadableIn room.now variables.now text.now tokens.old words.old) }
    ensures { EachLent table.now texts.now (λ S. Ready S room.now)
        (ReadsText variables.now text.now head cells.old result cells.new) }
{
    let Ok((n, others)) = scanner::scan(table, head.kinds, variables, text, tokens, words) else {
        return Err(TextFault::Unread);
    };
    let end = n * TOKEN;
    let attempt = read_tokens(cells, table, texts, room, head, &mut tokens[..end], others);
    match attempt {
        Some(a) => a,
        None => Err(explain_in(
            cells, table, texts, room, variables, text, tokens, words, head,
        )),
    }
}

// The reading of a text with rooms of so many numbers. It is never laid into its caller, whose frame stays without these rooms.
#[inline(never)]
fn read_with<const TOKENS: usize, const WORDS: usize>(
    cells: &mut [u32],
    table: &[u8],
    texts: &[u32],
    room: &[u64; ROOM],
    variables: &[u8],
    text: &[u8],
    head: TextHead,
) -> TextAnswer
    requires readable { SomeLent table.now texts.now (Readable room.now variables.now) }
    requires rooms { RoomFor text.now (replicate TOKENS 0) (replicate WORDS 0) }
    requires few { (TOKENS ≤ most_tokens * 4) × (WORDS ≤ most_tokens * 2) }
    ensures { EachLent table.now texts.now (λ S. Ready S room.now)
        (ReadsText variables.now text.now head cells.old result cells.new) }
{
    let mut tokens = [0u32; TOKENS];
    let mut words = [0u32; WORDS];
    read_in(
        cells,
        table,
        texts,
        room,
        variables,
        text,
        &mut tokens,
        &mut words,
        head,
    )
}

// Reads a text under the blocks before its own: their bytes, a room that holds their grammar with what reads variables first, the sorts of the alternative's
// variables, and cells that are zero, as many rows as are left for texts. The answer is that of the check of a reading; where the text is read, its rows
// stand in the cells. Ruled out are, among others, a reader that takes a number, one that tells a word at a Binder as a text that is not read at all, and one
// that runs the second time over the rows of the first.
pub fn read_text(
    cells: &mut [u32],
    table: &[u8],
    texts: &[u32],
    room: &[u64; ROOM],
    variables: &[u8],
    text: &[u8],
    head: TextHead,
) -> TextAnswer
    requires { SomeLent table.now texts.now (Readable room.now variables.now) }
    ensures { EachLent table.now texts.now (λ S. Ready S room.now)
        (ReadsText variables.now text.now head cells.old result cells.new) }
{
    if text.len() <= SHORT_TEXT {
        return read_with::<SHORT_TOKENS, SHORT_WORDS>(
            cells, table, texts, room, variables, text, head,
        );
    }
    if text.len() <= MIDDLE_TEXT {
        return read_with::<MIDDLE_TOKENS, MIDDLE_WORDS>(
            cells, table, texts, room, variables, text, head,
        );
    }
    read_with::<ALL_TOKENS, ALL_WORDS>(cells, table, texts, room, variables, text, head)
}
