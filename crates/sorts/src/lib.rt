// The sorts of a grammar sequence, field by field: refusals 7, 8, 9 and 11.
#![tactic(auto)]

ghost use Rattle.std.specs.Prelude.{◌+◌, ◌*◌, ◌≤◌, ◌≡◌, length};
ghost use Rattle.grammar.specs.Limits.{most};
ghost use Rattle.grammar.specs.Lookup.{fields_at};
ghost use Rattle.sorts.specs.ByBytes.{root_at, unknown, verdict_step, counting, sorts_from, sorts_of};
ghost use Rattle.sorts.specs.ByBytes.{Countable, ItemChecked, FieldChecked, Room, FieldReady, Stacked};

use answers::Verdict;
use answers::causes::Cause;
use bodies::faults::verdict_of;
use bodies::heads::{collect, head_of, signature_at};
use bodies::items::{add_sort, check_item, check_result, load_params};
use bodies::{Fault, ItemSort, Known};
use grammar::codes::{
    ALTERNATIVE_TAG, BLOCK_TAG, HEAD_TAG, ITEM_TAG, KEYWORD_TAG, OUTSIDE_TAG, RESULT_TAG, ROOT_TAG,
};
use grammar::field_at;
use grammar::limits::{EACH_NONTERMINAL, LONGEST_TABLE, MIDDLE_TABLE, MOST_VARIABLES, SMALL_TABLE};
use grammar::reader::byte;
use grammar::sorts::Sort;

// A result that is written as a text.
const TEXT_TAG: u8 = 9;

// What the check of sorts finds: its verdict, or none where it meets a text, which only the check that has rooms to read it judges.
pub type Finding = Option<Verdict>;

// What is wrong with the root: it is defined, has no parameters and gives a Term.
fn check_root(table: &[u8], heads: &[u16], n: u8) -> Result<(), Fault>
    ensures { result ≡ root_at table.now heads.now n }
{
    let h = head_of(heads, n);
    if h == 0 {
        return Err(Fault::Undefined);
    }
    let signature = signature_at(table, h);
    let term = Sort::TERM.0;
    if (signature.len() <= 1) & (byte(signature, 0) == term) {
        Ok(())
    } else {
        Err(Fault::WrongSort)
    }
}

// The check goes on with what is known, or stops.
fn step_of(v: Verdict, known: Known) -> Result<Known, Finding>
    ensures { result ≡ verdict_step known v }
{
    match v {
        Ok(()) => Ok(known),
        Err(_) => Err(Some(v)),
    }
}

// What is known after a keyword, an outside name or a head at an offset; no other field counts.
fn count(known: Known, tag: u8, at: usize) -> Known
    requires { Countable known }
    ensures { result ≡ counting known tag at }
{
    match tag {
        KEYWORD_TAG => Known {
            keywords: known.keywords + 1,
            ..known
        },
        OUTSIDE_TAG => Known {
            outsides: known.outsides + 1,
            ..known
        },
        HEAD_TAG => Known { head: at, ..known },
        _ => known,
    }
}

// An item at an offset: one variable more, or its refusal.
fn check_variable(
    sorts: &mut [u8],
    stack: &mut [u8],
    table: &[u8],
    heads: &[u16],
    known: Known,
    at: usize,
    v: &[u8],
) -> Result<Known, Finding>
    requires { Room v.now sorts.old stack.old }
    ensures { ItemChecked table.now at v.now known heads.now sorts.old result sorts.new }
{
    match check_item(stack, table, heads, sorts, known, v) {
        Err(fault) => Err(Some(Cause::from(fault).refused(at))),
        Ok(s) => {
            let variables = add_sort(sorts, known.variables, s);
            Ok(Known { variables, ..known })
        }
    }
}

// The field at an offset, where the next one stands at `to`: a block's definitions are collected at its beginning, the variables of an
// alternative are its parameters at its beginning.
fn check_field(
    heads: &mut [u16],
    sorts: &mut [u8],
    stack: &mut [u8],
    table: &[u8],
    at: usize,
    tag: u8,
    v: &[u8],
    to: usize,
    known: Known,
) -> Result<Known, Finding>
    requires { FieldReady known table.now v.now sorts.old stack.old }
    ensures { FieldChecked table.now at tag v.now to known heads.old sorts.old
        result heads.new sorts.new }
{
    match tag {
        BLOCK_TAG => step_of(collect(heads, table, at, to), known),
        ALTERNATIVE_TAG => {
            let variables = load_params(sorts, signature_at(table, known.head));
            Ok(Known { variables, ..known })
        }
        ITEM_TAG => check_variable(sorts, stack, table, heads, known, at, v),
        RESULT_TAG => step_of(
            verdict_of(check_result(stack, table, sorts, known, v), at),
            known,
        ),
        ROOT_TAG => Err(Some(verdict_of(check_root(table, heads, byte(v, 0)), at))),
        TEXT_TAG => Err(None),
        _ => Ok(count(known, tag, at)),
    }
}

// A table's fields from the first on, with no head known yet and room for the variables and for the places that templates open.
fn check_fields(heads: &mut [u16], sorts: &mut [u8], stack: &mut [u8], table: &[u8]) -> Finding
    requires { (length table.now ≤ most.bytes) × Room table.now sorts.old stack.old }
    ensures { result ≡ sorts_from (fields_at table.now 0) table.now unknown heads.old sorts.old }
{
    let mut at: usize = 0;
    let mut known = Known {
        keywords: 0,
        outsides: 0,
        head: 0,
        variables: 0,
    };
    while at < table.len() {
        let field = field_at(table, at);
        let from = field.from;
        let to = field.to;
        let v = &table[from..to];
        match check_field(heads, sorts, stack, table, at, field.tag, v, to, known) {
            Err(finding) => return finding,
            Ok(k) => {
                known = k;
                at = to;
            }
        }
    }
    Some(Ok(()))
}

// The places that the templates of a table open: at most two for each of its bytes, and some more.
const SMALL_STACK: usize = 2 * SMALL_TABLE + 8;

const MIDDLE_STACK: usize = 2 * MIDDLE_TABLE + 8;

const LARGE_STACK: usize = 2 * LONGEST_TABLE + 8;

// The sorts of a table, with a stack for the places of its templates, which is in no frame but this function's.
#[inline(never)]
fn check_with<const STACK: usize>(table: &[u8]) -> Finding
    requires { Stacked table.now STACK }
    ensures { result ≡ sorts_of table.now }
{
    let mut heads = [0u16; EACH_NONTERMINAL];
    let mut sorts = [0u8; MOST_VARIABLES];
    let mut stack = [0u8; STACK];
    check_fields(&mut heads, &mut sorts, &mut stack, table)
}

// The sorts of a table whose layout is right: refusals 7, 8, 9 and 11. A longer table is refused before.
pub fn check_sorts(table: &[u8]) -> Finding
    ensures { result ≡ sorts_of table.now }
{
    if LONGEST_TABLE < table.len() {
        return Some(Ok(()));
    }
    if MIDDLE_TABLE < table.len() {
        return check_with::<LARGE_STACK>(table);
    }
    if SMALL_TABLE < table.len() {
        return check_with::<MIDDLE_STACK>(table);
    }
    check_with::<SMALL_STACK>(table)
}
