// `$` before digits: which variable it names, and whether every `$` of a text names one. Document 02, C-14.
ghost use Rattle.std.specs.Prelude.{◌≡◌, ◌≤◌, ◌<◌, length, drop};
ghost use Rattle.tokens.specs.Variables.{is_dollar, dollars_below};
ghost use Rattle.grammar.specs.Variables.{most_variables};
ghost use Rattle.scanner.specs.Dollars.{is_named, variable_of};

// The byte `$`.
pub const DOLLAR: u8 = b'$';

// Whether `$` directly before a digit stands at an offset.
fn is_dollar(text: &[u8], at: usize) -> bool
    requires { at < length text.now }
    ensures { result ≡ is_dollar (drop at text.now) }
{
    if text[at] != DOLLAR {
        return false;
    }
    let next = at + 1;
    if next == text.len() {
        return false;
    }
    spellings::is_digit(text[next])
}

// Which of `count` variables stands at an offset, by its number, with the bytes that its token has. There may be thousands of digits: a value too large for
// a number is no variable's.
pub fn variable_at(text: &[u8], at: usize, count: usize) -> Option<(u32, usize)>
    requires { (at < length text.now) × (count ≤ most_variables) }
    ensures { result ≡ variable_of count (drop at text.now) }
{
    if count == 0 {
        return None;
    }
    let dollar = is_dollar(text, at);
    if !dollar {
        return None;
    }
    let digits = &text[at + 1..];
    let n = spellings::digit_run(digits);
    let v = spellings::value(&digits[..n])?;
    if (v as usize) < count {
        return Some((v, n + 1));
    }
    None
}

// Whether what stands at an offset is one of `count` variables, or no `$` before a digit.
fn is_named(text: &[u8], at: usize, count: usize) -> bool
    requires { (at < length text.now) × (count ≤ most_variables) }
    ensures { result ≡ is_named count (drop at text.now) }
{
    let dollar = is_dollar(text, at);
    if !dollar {
        return true;
    }
    variable_at(text, at, count).is_some()
}

// Whether every `$` directly before a digit names one of `count` variables, wherever in a text it stands.
// Ruled out are, among others, a test that stops at a bad byte, and one that takes part of the digits for the number.
pub fn dollars_below(text: &[u8], count: usize) -> bool
    requires { count ≤ most_variables }
    ensures { result ≡ dollars_below count text.now }
{
    for at in 0..text.len() {
        let named = is_named(text, at, count);
        if !named {
            return false;
        }
    }
    true
}
