// All that the program `phrase` writes, laid out in one room.
#![tactic(auto)]

ghost use Rattle.std.specs.Prelude.{◌≡◌, ◌++◌, ◌+◌, ◌≤◌, length, drop};
ghost use Rattle.rooms.specs.Laying.{Lays};
ghost use Rattle.phrases.specs.Output.{text_line, told_lines, phrase_output};

use answers::Answer;
use reports::lay_answer;
use rooms::{front, lay};
use terms::COLUMNS;

// The cells that are lent: 4,096 rows.
pub const CELLS: usize = 4_096 * COLUMNS;

// The bytes that are lent for text.
pub const TEXT: usize = 65_536;

// The bytes of the room: a text, and more than a line.
pub const OUTPUT: usize = TEXT + 128;

// Lays the text of an acceptance on a line of its own.
fn lay_text(out: &mut [u8], at: usize, answer: Answer, text: &[u8; TEXT]) -> usize
    ensures { Lays out.old at (text_line answer text.now) result out.new }
{
    match answer {
        Ok(made) => {
            let n = lay(out, at, front(text, made.length));
            lay(out, n, b"\n")
        }
        Err(_) => lay(out, at, b""),
    }
}

// Lays the lines that tell of an expansion: that of its answer, and its text.
pub fn lay_told(out: &mut [u8], at: usize, answer: Answer, text: &[u8; TEXT]) -> usize
    ensures lays { Lays out.old at (told_lines answer text.now) result out.new }
    ensures text_in_bounds { length (told_lines answer text.now) ≤ length text.now + 93 }
{
    let n = lay_answer(out, at, answer);
    lay_text(out, n, answer, text)
}

// Expands a formula by a table, with 4,096 rows of cells and 65,536 bytes for text, and lays at the front of a room all that is to be written; tells how much
// it is. It is never cut.
pub fn lay_output(table: &[u8], formula: &[u8], out: &mut [u8; OUTPUT]) -> usize
    ensures value { result ≡ length (phrase_output table.now formula.now) }
    ensures out_after { out.new ≡ phrase_output table.now formula.now ++ drop result out.old }
{
    let mut cells = [0u32; CELLS];
    let mut text = [0u8; TEXT];
    let answer = vegzump::expand(table, formula, &mut cells, &mut text);
    lay_told(out, 0, answer, &text)
}
