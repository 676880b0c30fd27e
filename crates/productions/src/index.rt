// The index of a grammar in a table: the nonterminal of each production, and the offset of its first item.
ghost use Rattle.std.specs.Prelude.{◌+◌, ◌≡◌, get_or};
ghost use Rattle.productions.specs.Index.{places_in, places_without, root_in};
ghost use Rattle.productions.specs.IndexCalls.{IndexRoomFor, LaidIndex, BuiltIndex, FitsIndex, behind, redefined};

use grammar::codes::{ALTERNATIVE_TAG, HEAD_TAG, UPDATE};
use grammar::field_at;
use grammar::limits::EACH_ALTERNATIVE;
use grammar::reader::byte;

// The offset at a place of the index, 0 past its end.
pub fn offset(starts: &[u16], j: usize) -> usize
    ensures { result ≡ get_or starts.now j 0 }
{
    if j < starts.len() {
        usize::from(starts[j])
    } else {
        0
    }
}

// The nonterminal that a formula is: the last byte of a table, 0 if it has none.
pub fn root_of(table: &[u8]) -> u8
    ensures { result ≡ root_in table.now }
{
    table.last().copied().unwrap_or(0)
}

// Lays a production behind the first k.
fn push(owners: &mut [u8], starts: &mut [u16], k: usize, owner: u8, start: u16)
    requires { IndexRoomFor (k + 1) owners.old starts.old }
    ensures { LaidIndex (behind (places_in k owners.old starts.old) owner start) (k + 1) (k + 1)
        owners.old starts.old owners.new starts.new }
{
    owners[k] = owner;
    starts[k] = start;
}

// Drops the productions of nonterminal n among the first k, and tells how many are left.
fn without(owners: &mut [u8], starts: &mut [u16], k: usize, n: u8) -> usize
    requires { IndexRoomFor k owners.old starts.old }
    ensures { LaidIndex (places_without n (places_in k owners.old starts.old)) k result
        owners.old starts.old owners.new starts.new }
{
    let mut w: usize = 0;
    for i in 0..k {
        let owner = owners[i];
        let start = starts[i];
        if owner != n {
            owners[w] = owner;
            starts[w] = start;
            w += 1;
        }
    }
    w
}

// The productions that the head of a definition leaves: an update drops those of its nonterminal.
fn redefine(head: &[u8], owners: &mut [u8], starts: &mut [u16], k: usize) -> usize
    requires { IndexRoomFor k owners.old starts.old }
    ensures { LaidIndex (redefined head.now (places_in k owners.old starts.old)) k result
        owners.old starts.old owners.new starts.new }
{
    let mode = byte(head, 1);
    if mode == UPDATE {
        let n = byte(head, 0);
        without(owners, starts, k, n)
    } else {
        k
    }
}

// The places of the productions of a table, in two arrays, and how many there are. This rules out that an extension replaces, and that
// an update adds.
pub fn build_index(
    table: &[u8],
    owners: &mut [u8; EACH_ALTERNATIVE],
    starts: &mut [u16; EACH_ALTERNATIVE],
) -> usize
    requires { FitsIndex table.now }
    ensures { BuiltIndex table.now result owners.old starts.old owners.new starts.new }
{
    let mut at: usize = 0;
    let mut n: u8 = 0;
    let mut k: usize = 0;
    while at < table.len() {
        let field = field_at(table, at);
        let tag = field.tag;
        let from = field.from;
        let to = field.to;
        if tag == HEAD_TAG {
            n = byte(&table[from..to], 0);
            k = redefine(&table[from..to], owners, starts, k);
        } else if tag == ALTERNATIVE_TAG {
            push(owners, starts, k, n, to as u16);
            k += 1;
        }
        at = to;
    }
    k
}
