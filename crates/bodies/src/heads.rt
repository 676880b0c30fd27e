// The heads of definitions: signatures, and refusals 7 and 8.
ghost use Rattle.std.specs.Prelude.{◌+◌, ◌≤◌, ◌≡◌, length, get_or};
ghost use Rattle.grammar.specs.Limits.{most};
ghost use Rattle.bodies.specs.HeadBytes.{signature_at, head_before, fault_of, Defined, collected, collect_at};

use crate::Fault;
use answers::Verdict;
use answers::causes::Cause;
use grammar::codes::{BLOCK_TAG, EXTEND, HEAD_TAG, HEADER, ROOT_TAG, UPDATE};
use grammar::field_at;
use grammar::limits::MOST_PARAMETERS;
use grammar::reader::{byte, part};
use spellings::equal;

// A head's nonterminal, its mode and its signature, from the offset of the head on; the signature is a sort and those of the parameters.
const NONTERMINAL: usize = HEADER;

const MODE: usize = NONTERMINAL + 1;

const SIGNATURE: usize = MODE + 1;

// How many bytes of a head's value stand before its signature, how many a signature has, and both, at most.
const BEFORE_SIGNATURE: usize = SIGNATURE - HEADER;

const LONGEST_SIGNATURE: usize = 1 + MOST_PARAMETERS;

const LONGEST_HEAD: usize = BEFORE_SIGNATURE + LONGEST_SIGNATURE;

// The signature in the head at an offset: the sort of the result, then those of the parameters, four at most.
pub fn signature_at(table: &[u8], at: usize) -> &[u8]
    ensures { result.now ≡ signature_at table.now at }
{
    if table.len() <= at {
        return part(table, at, 0);
    }
    let size = byte(table, at + 1) as usize * 256 + byte(table, at + 2) as usize;
    if size < BEFORE_SIGNATURE {
        return part(table, at + SIGNATURE, 0);
    }
    if size < LONGEST_HEAD {
        return part(table, at + SIGNATURE, size - BEFORE_SIGNATURE);
    }
    part(table, at + SIGNATURE, LONGEST_SIGNATURE)
}

// The offset of a nonterminal's newest head, 0 for none.
pub fn head_of(heads: &[u16], n: u8) -> usize
    ensures { result ≡ get_or heads.now n 0 }
{
    heads.get(n as usize).copied().unwrap_or(0) as usize
}

// The offset of the head that a nonterminal has from the blocks before the one that begins at `block`, 0 for none.
pub fn head_before(table: &[u8], heads: &[u16], block: usize, n: u8) -> usize
    ensures { result ≡ head_before table.now heads.now block n }
{
    let h = head_of(heads, n);
    let mode = byte(table, h + MODE);
    if (h <= block) | (mode == EXTEND) | (mode == UPDATE) {
        h
    } else {
        0
    }
}

// What is wrong with the head at an offset, in the block that begins at `block`.
fn fault_of(table: &[u8], at: usize, block: usize, heads: &[u16]) -> Result<(), Fault>
    requires { at ≤ most.bytes }
    ensures { result ≡ fault_of table.now at block heads.now }
{
    let n = byte(table, at + NONTERMINAL);
    let mode = byte(table, at + MODE);
    let h = head_of(heads, n);
    if (mode == EXTEND) | (mode == UPDATE) {
        let alike = equal(signature_at(table, h), signature_at(table, at));
        if (h <= block) & (0 < h) & alike {
            Ok(())
        } else {
            Err(Fault::BadExtension)
        }
    } else if h == 0 {
        Ok(())
    } else {
        Err(Fault::NumberInUse)
    }
}

// A field at an offset: a head goes among the heads, if nothing is wrong with it.
fn define(heads: &mut [u16], table: &[u8], at: usize, tag: u8, block: usize) -> Result<(), Fault>
    requires { at ≤ most.bytes }
    ensures { Defined table.now at tag block heads.old result heads.new }
{
    if tag != HEAD_TAG {
        return Ok(());
    }
    fault_of(table, at, block, heads)?;
    let n = byte(table, at + NONTERMINAL) as usize;
    if n < heads.len() {
        heads[n] = at as u16;
    }
    Ok(())
}

// The heads of the block that begins at an offset, from its first field on.
pub fn collect(heads: &mut [u16], table: &[u8], block: usize, from: usize) -> Verdict
    requires { length table.now ≤ most.bytes }
    ensures { collected result heads.new ≡ collect_at table.now block from heads.old }
{
    let mut at = from;
    while at < table.len() {
        let field = field_at(table, at);
        let tag = field.tag;
        if (tag == BLOCK_TAG) | (tag == ROOT_TAG) {
            return Ok(());
        }
        if let Err(fault) = define(heads, table, at, tag, block) {
            return Cause::from(fault).refused(at);
        }
        at = field.to;
    }
    Ok(())
}
