// A text that was read is stored behind those before it, for the run that evaluates it: its value, its sort and where its rows begin as a pair of numbers by
// the place of its field, and its rows. The cells are zero again, for the next text.
ghost use Rattle.std.specs.Prelude.{◌+◌, ◌*◌, ◌≤◌, length};
ghost use Rattle.terms.specs.Cells.{columns};
ghost use Rattle.reader.specs.Storing.{StorablePair, MovesRows, StoresText};

use terms::COLUMNS;

// A field with a text has so many bytes at least, and a pair of numbers.
const LEAST_FIELD: usize = 4;

const PAIR: usize = 2;

// The sorts are below this.
const SORTS: usize = 8;

// So many numbers are moved from the front of the cells to an index of `texts`, and zeroed.
fn move_rows(texts: &mut [u32], start: usize, cells: &mut [u32], numbers: usize)
    requires { (start + numbers ≤ length texts.old) × (numbers ≤ length cells.old) }
    ensures { MovesRows texts.old start cells.old numbers texts.new cells.new }
{
    let rows = &mut cells[..numbers];
    texts[start..start + numbers].copy_from_slice(rows);
    rows.fill(0);
}

// The text of the field at an offset, which has a sort, reads x and made so many rows, is stored with its rows from an index on.
pub fn store_text(
    texts: &mut [u32],
    cells: &mut [u32],
    at: usize,
    sort: u8,
    start: usize,
    x: u32,
    made: usize,
)
    requires { StorablePair texts.old cells.old at sort start made }
    ensures { StoresText texts.old cells.old at sort start x made texts.new cells.new }
{
    let pair = at / LEAST_FIELD * PAIR;
    let word = start * SORTS + sort as usize;
    texts[pair] = x;
    texts[pair + 1] = word as u32;
    move_rows(texts, start, cells, made * COLUMNS);
}
