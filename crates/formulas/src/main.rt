// Expands formulas, one a line. The table is the file `phrases.tab` in the folder it is started in, empty if it can't be opened or read; the lines are
// standard input, up to 262,144 bytes: of more, one line says so, and nothing is expanded. For each line stands what the program `phrase` writes for it:
// `ok` with three counts and then the text, or `refused` with the number and three values. What is written is a definition of these bytes, `formulas_output`.
#![tactic(auto)]

mod lines;

ghost use Rattle.std.specs.Prelude.{OnOk, take};
ghost use Rattle.std.specs.Io.KnownBytes.{Appends};
ghost use Rattle.formulas.specs.Output.{formulas_output};

use crate::lines::{OUT, lay_lines};
use rooms::{TABLE, read_file, read_full};
use std::io;
use std::io::Write;

// The most bytes of lines.
const MOST: usize = 262_144;

// Hands the first bytes of the room to an output.
fn write<W: Write>(to: &mut W, out: &[u8; OUT], size: usize) -> io::Result<()>
    ensures { OnOk result (Appends (W.contents to.old) (W.contents to.new) (take size out.now)) }
{
    reports::print(to, out, size)
}

// Writes what is to be written for the lines of an input, as many at a time as the room has place for.
fn tell<W: Write>(to: &mut W, table: &[u8], input: &[u8], out: &mut [u8; OUT]) -> io::Result<()>
    ensures { OnOk result (Appends (W.contents to.old) (W.contents to.new) (formulas_output table.now input.now)) }
{
    let mut from: usize = 0;
    while from < input.len() {
        let laid = lay_lines(table, input, from, out);
        let size = laid.size;
        write(to, out, size)?;
        from = laid.next;
    }
    Ok(())
}

fn main(rt: HostRuntime) -> io::Result<()> {
    let mut table = [0u8; TABLE];
    let mut input = [0u8; MOST + 1];
    let mut out = [0u8; OUT];
    let mut to = rt.stdout();
    let n = read_file(&rt, b"phrases.tab", &mut table);
    let m = read_full(&mut rt.stdin(), &mut input);
    if MOST < m {
        return Write::write_all(&mut to, b"over 262144 bytes of lines\n");
    }
    tell(&mut to, &table[..n], &input[..m], &mut out)
}
