// The tests that a table's layout makes on one field: its tag, length and value, its order, the counts, whole templates. Refusals 3, 4, 6 and 10.
#![tactic(auto)]

ghost use Rattle.std.specs.Prelude.{◌≡◌, true, ℕ, drop};
ghost use Rattle.kinds.specs.Kinds.{has_kind};
ghost use Rattle.decoding.specs.Prefix.{templates_of};
ghost use Rattle.decoding.specs.Layout.{is_head, is_item, is_root, is_known, follows, has_room, passed, is_whole};
ghost use Rattle.fields.specs.Due.{head_size, arguments, is_wholly};

use decoding::Progress;
use grammar::codes::{
    ALTERNATIVE_TAG, BLOCK_TAG, CALL_ITEM, HEAD_TAG, IDE_ITEM, ITEM_TAG, KEYWORD_ITEM, KEYWORD_TAG,
    LOCAL_ITEM, NAME_AS_LABEL, NAME_AS_VAR, NUMBER_ITEM, OUTSIDE_TAG, RESULT_TAG, ROOT_TAG,
    TERM_NUM, TERM_VAR, UPDATE, VARIABLES,
};
use grammar::limits::{
    MOST_ALTERNATIVES, MOST_BLOCKS, MOST_ITEMS, MOST_KEYWORDS, MOST_OUTSIDES, MOST_PARAMETERS,
    NONTERMINALS,
};
use grammar::reader::{arity_of, byte};
use grammar::sorts::Sort;

// ---------------------------------------------------------------- 3: known tag, length and value

// The most bytes of a definition's head.
const LONGEST_HEAD: usize = 3 + MOST_PARAMETERS;

// A definition's head: nonterminal, mode, result sort, parameter sorts.
fn is_head(v: &[u8]) -> bool
    ensures { result ≡ is_head v.now }
{
    let sized = (3 <= v.len())
        & (v.len() <= LONGEST_HEAD)
        & (byte(v, 0) < NONTERMINALS)
        & (byte(v, 1) <= UPDATE);
    sized && v[2..].iter().all(|b| Sort::is_code(*b))
}

// An item's kind and operand; only a call has more bytes.
fn is_item(v: &[u8]) -> bool
    ensures { result ≡ is_item v.now }
{
    let kind = byte(v, 0);
    let operand = byte(v, 1);
    let pair = v.len() == 2;
    match kind {
        KEYWORD_ITEM => pair,
        IDE_ITEM => pair & Sort::is_ide_code(operand),
        NUMBER_ITEM => pair & (operand == 0),
        LOCAL_ITEM => pair & (operand == 0),
        CALL_ITEM => (2 <= v.len()) & (operand < NONTERMINALS),
        _ => false,
    }
}

// The root: a nonterminal.
fn is_root(v: &[u8]) -> bool
    ensures { result ≡ is_root v.now }
{
    (v.len() == 1) & (byte(v, 0) < NONTERMINALS)
}

// A known tag with a length and a value that it may have.
pub fn is_known(tag: u8, v: &[u8]) -> bool
    ensures { result ≡ is_known tag v.now }
{
    match tag {
        KEYWORD_TAG => true,
        OUTSIDE_TAG => true,
        BLOCK_TAG => v.len() == 0,
        HEAD_TAG => is_head(v),
        ALTERNATIVE_TAG => v.len() == 0,
        ITEM_TAG => is_item(v),
        RESULT_TAG => true,
        ROOT_TAG => is_root(v),
        _ => false,
    }
}

// ---------------------------------------------------------------- 4: order

// The tags that a tag may follow, as a set: bit k stands for tag k, bit 0 for the start.
fn tags_before(tag: u8) -> u64
    ensures { (last : ℕ) → has_kind result last ≡ follows tag last }
{
    match tag {
        KEYWORD_TAG => 0x03,
        OUTSIDE_TAG => 0x07,
        BLOCK_TAG => 0x8F,
        HEAD_TAG => 0x88,
        ALTERNATIVE_TAG => 0x90,
        ITEM_TAG => 0x60,
        RESULT_TAG => 0x60,
        ROOT_TAG => 0x8F,
        _ => 0,
    }
}

// Whether a tag may follow another, which is 0 at the start.
pub fn may_follow(tag: u8, last: u8) -> bool
    ensures { result ≡ follows tag last }
{
    kinds::has(tags_before(tag), last)
}

// ---------------------------------------------------------------- 6: counts

// Whether there is room for one more field of this tag.
pub fn has_room(tag: u8, s: Progress) -> bool
    ensures { result ≡ has_room tag s }
{
    ((tag != KEYWORD_TAG) | (s.keywords < MOST_KEYWORDS))
        & ((tag != OUTSIDE_TAG) | (s.outsides < MOST_OUTSIDES))
        & ((tag != BLOCK_TAG) | (s.blocks < MOST_BLOCKS))
        & ((tag != ALTERNATIVE_TAG) | (s.alternatives < MOST_ALTERNATIVES))
        & ((tag != ITEM_TAG) | (s.items < MOST_ITEMS))
}

// The items of the alternative begun last, one field further.
fn items_after(tag: u8, s: Progress) -> u16
    requires { has_room tag s ≡ true }
    ensures { result ≡ (passed tag s).items }
{
    if tag == ALTERNATIVE_TAG {
        return 0;
    }
    s.items + u16::from(tag == ITEM_TAG)
}

// One field further.
pub fn further(tag: u8, s: Progress) -> Progress
    requires { has_room tag s ≡ true }
    ensures { result ≡ passed tag s }
{
    Progress {
        last: tag,
        keywords: s.keywords + u16::from(tag == KEYWORD_TAG),
        outsides: s.outsides + u16::from(tag == OUTSIDE_TAG),
        blocks: s.blocks + u16::from(tag == BLOCK_TAG),
        alternatives: s.alternatives + u16::from(tag == ALTERNATIVE_TAG),
        items: items_after(tag, s),
    }
}

// ---------------------------------------------------------------- 10: templates

// The bytes of a template before its arguments; 0 for an unknown byte.
fn head_size(b: u8) -> usize
    ensures { result ≡ head_size b }
{
    if (b == NAME_AS_VAR) | (b == NAME_AS_LABEL) {
        2
    } else {
        usize::from((b < VARIABLES) | ((TERM_VAR <= b) & (b <= TERM_NUM)))
    }
}

// How many templates follow as the arguments of the one that a byte begins.
fn argument_count(b: u8) -> usize
    ensures { result ≡ arguments b }
{
    if (TERM_VAR <= b) & (b <= TERM_NUM) {
        arity_of(b)
    } else {
        0
    }
}

// Whether the bytes from an offset on are whole templates in prefix form, exactly one if `single`. One pass counts the templates
// that are still due.
fn are_templates(v: &[u8], from: usize, single: bool) -> bool
    ensures { result ≡ is_wholly single (templates_of (drop from v.now)) }
{
    let mut due = usize::from(single);
    let mut i = from;
    while i < v.len() {
        let b = v[i];
        let size = head_size(b);
        if (size == 0) | (v.len() - i < size) | (single & (due == 0)) {
            return false;
        }
        due = due.saturating_sub(1) + argument_count(b);
        i += size;
    }
    due == 0
}

// A call's bytes after the nonterminal are whole templates, a result's bytes are one.
pub fn is_whole(tag: u8, v: &[u8]) -> bool
    ensures { result ≡ is_whole tag v.now }
{
    if tag == ITEM_TAG {
        return (byte(v, 0) != CALL_ITEM) | are_templates(v, 2, false);
    }
    if tag == RESULT_TAG {
        return are_templates(v, 0, true);
    }
    true
}
