// The lines of an input, and what is written for them, laid in a room.
ghost use Rattle.std.specs.Prelude.{◌+◌, ◌≤◌, min, ◌≡◌, length, drop};
ghost use Rattle.spellings.specs.Bytes.{longest_run};
ghost use Rattle.rooms.specs.Laying.{Lays};
ghost use Rattle.parser.specs.Parse.{CheckedRoom};
ghost use Rattle.phrases.specs.Output.{phrase_output};
ghost use Rattle.formulas.specs.Output.{is_line_byte, Tells};

use answers::Verdict;
use checker::check_into;
use handover::expand_checked;
use phrases::{CELLS, TEXT, lay_told};
use productions::room::ROOM;

// The most bytes that are written for a line: its text, and less than this behind and before.
const LONGEST: usize = TEXT + 128;

// The bytes of the room: for two of the longest lines.
pub const OUT: usize = 2 * LONGEST;

// Where the next line begins that is not told, and how many bytes are laid.
#[derive(Drop)]
pub struct Laid {
    pub next: usize,
    pub size: usize,
}

// How many bytes stand before the first line end, or in all.
fn line_run(s: &[u8]) -> usize
    ensures { result ≡ length (longest_run is_line_byte s.now) }
{
    s.iter().position(|b| *b == b'\n').unwrap_or(s.len())
}

// Where the line ends that begins at an offset.
fn line_end(input: &[u8], at: usize) -> usize
    requires { at ≤ length input.now }
    ensures { (result ≡ at + length (longest_run is_line_byte (drop at input.now))) × (result ≤ length input.now) }
{
    at + line_run(&input[at..])
}

// Where the next line begins behind one that ends at an offset.
fn next_line(input: &[u8], end: usize) -> usize
    ensures { result ≡ min (end + 1) (length input.now) }
{
    end.saturating_add(1).min(input.len())
}

// Expands a line as a formula after the check of a table, and lays behind the first `at` bytes of a room what `phrase` writes for it. What cells and text held
// before is of no account.
fn lay_line(
    table: &[u8],
    room: &[u64; ROOM],
    verdict: Verdict,
    line: &[u8],
    cells: &mut [u32; CELLS],
    text: &mut [u8; TEXT],
    out: &mut [u8],
    at: usize,
) -> usize
    requires { CheckedRoom table.now room.now verdict }
    ensures lays { Lays out.old at (phrase_output table.now line.now) result out.new }
    ensures line_len_bound { length (phrase_output table.now line.now) ≤ 65629 }
{
    let answer = expand_checked(table, room, verdict, line, cells, text);
    lay_told(out, at, answer, text)
}

// The lines from an offset on, as far as the room has place for one of the longest.
fn lay_checked(
    table: &[u8],
    room: &[u64; ROOM],
    verdict: Verdict,
    input: &[u8],
    from: usize,
    cells: &mut [u32; CELLS],
    text: &mut [u8; TEXT],
    out: &mut [u8],
) -> Laid
    requires checked_room { CheckedRoom table.now room.now verdict }
    requires from_in_bounds { (from ≤ length input.now) × (65664 ≤ length out.old) }
    ensures { Tells table.now input.now from out.old result out.new }
{
    let mut at = from;
    let mut n: usize = 0;
    while at < input.len() {
        if out.len() - n < LONGEST {
            return Laid { next: at, size: n };
        }
        let end = line_end(input, at);
        n = lay_line(table, room, verdict, &input[at..end], cells, text, out, n);
        at = next_line(input, end);
    }
    Laid { next: at, size: n }
}

// Lays at the front of a room what is to be written for the lines of an input from an offset on, for as many as have place; tells where it goes on. The table
// is checked once for them.
pub fn lay_lines(table: &[u8], input: &[u8], from: usize, out: &mut [u8; OUT]) -> Laid
    requires { from ≤ length input.now }
    ensures { Tells table.now input.now from out.old result out.new }
{
    let mut room = [0u64; ROOM];
    let verdict = check_into(table, &mut room);
    let mut cells = [0u32; CELLS];
    let mut text = [0u8; TEXT];
    lay_checked(
        table, &room, verdict, input, from, &mut cells, &mut text, out,
    )
}
