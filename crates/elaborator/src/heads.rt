// What is tested of a text before it is read (document 02, C-14): refusals 9 and 11 of its head.
ghost use Rattle.std.specs.Prelude.{◌≤◌, ◌≡◌};
ghost use Rattle.grammar.specs.Variables.{most_variables};
ghost use Rattle.elaborator.specs.TextHeads.{text_head};

use bodies::heads::{head_before, signature_at};
use bodies::{Fault, ItemSort};
use grammar::reader::byte;
use scanner::dollars::dollars_below;

// The sort of a text's nonterminal: the blocks before define it and each `$` of the text names a variable (9), and it has no parameters (11). This rules out
// that a nonterminal of the text's own block is taken, and that 11 is told before 9.
pub fn text_head(
    table: &[u8],
    heads: &[u16],
    block: usize,
    n: u8,
    variables: usize,
    text: &[u8],
) -> ItemSort
    requires { variables ≤ most_variables }
    ensures { result ≡ text_head table.now heads.now block n variables text.now }
{
    let h = head_before(table, heads, block, n);
    if h == 0 {
        return Err(Fault::Undefined);
    }
    let named = dollars_below(text, variables);
    if !named {
        return Err(Fault::Undefined);
    }
    let signature = signature_at(table, h);
    if 1 < signature.len() {
        return Err(Fault::WrongSort);
    }
    Ok(byte(signature, 0))
}
