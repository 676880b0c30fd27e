// The items of an alternative, read off the table's bytes.
ghost use Rattle.std.specs.Prelude.{◌≡◌};
ghost use Rattle.grammar.specs.Table.{kind_of};
ghost use Rattle.grammar.specs.Lookup.{field_at};
ghost use Rattle.decoding.specs.Decode.{item_of};
ghost use Rattle.productions.specs.Symbols.{terminal_in, symbol_of, symbol_step};

use crate::{Symbol, SymbolStep, Terminal};
use grammar::codes::{CALL_ITEM, IDE_ITEM, ITEM_TAG, KEYWORD_ITEM, LOCAL_ITEM, PLACE_ITEM};
use grammar::field_at;
use grammar::reader::byte;
use kinds::{KEYWORD_KIND, NUMBER_KIND, VARIABLE_KIND, WORD_KIND};

// The symbol of the item that is the value of a field.
fn symbol(v: &[u8]) -> Symbol
    ensures { result ≡ symbol_of (item_of v.now) }
{
    let kind = byte(v, 0);
    let operand = byte(v, 1);
    match kind {
        KEYWORD_ITEM => Symbol::Read(Terminal::Keyword(operand)),
        IDE_ITEM => Symbol::Read(Terminal::Ide(operand)),
        LOCAL_ITEM => Symbol::Local,
        CALL_ITEM => Symbol::Call(operand),
        PLACE_ITEM => Symbol::Read(Terminal::Place(operand)),
        _ => Symbol::Read(Terminal::Number),
    }
}

// What stands at an offset.
pub fn item_at(table: &[u8], at: usize) -> SymbolStep
    ensures { result ≡ symbol_step table.now (field_at table.now at) }
{
    let field = field_at(table, at);
    if field.tag != ITEM_TAG {
        return None;
    }
    let from = field.from;
    let to = field.to;
    Some((symbol(&table[from..to]), to))
}

// The kind of token that a terminal reads.
pub fn kind_of(t: Terminal) -> u32
    ensures { result ≡ kind_of (terminal_in t) }
{
    match t {
        Terminal::Keyword(k) => k as u32 + KEYWORD_KIND,
        Terminal::Ide(_) => WORD_KIND,
        Terminal::Number => NUMBER_KIND,
        Terminal::Place(s) => VARIABLE_KIND + s as u32,
    }
}
