// The size of the template that a text's rows hold, with a room for the sizes of rows by how many there are.
ghost use Rattle.std.specs.Prelude.{◌≤◌, ◌≡◌};
ghost use Rattle.terms.specs.Cells.{most_cells};
ghost use Rattle.copying.specs.TemplateSizes.{is_small_text};

use copying::sizes::is_small;
use rows::FEW_ROWS;
use terms::MOST_CELLS;

// With a room for up to N rows. It is never laid into its caller, whose frame stays without this room.
#[inline(never)]
fn is_small_in<const N: usize>(cells: &[u32], sort: u8, x: u32, made: usize) -> bool
    requires { (made ≤ N) × (N ≤ most_cells) }
    ensures { result ≡ is_small_text cells.now made sort x }
{
    let mut sizes = [0u32; N];
    is_small(cells, sort, x, &mut sizes[..made])
}

// Whether a text that reads x at a sort, where so many rows are made, has no more constructors than a term may have.
pub fn is_small_text(cells: &[u32], sort: u8, x: u32, made: usize) -> bool
    requires { made ≤ most_cells }
    ensures { result ≡ is_small_text cells.now made sort x }
{
    if made <= FEW_ROWS {
        return is_small_in::<FEW_ROWS>(cells, sort, x, made);
    }
    is_small_in::<MOST_CELLS>(cells, sort, x, made)
}
