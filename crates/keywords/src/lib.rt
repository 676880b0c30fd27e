// Which keywords count in formulas, and which are given back (document 02, C-13).
#![tactic(auto)]

ghost use Rattle.std.specs.Prelude.{◌≡◌, ◌<◌};
ghost use Rattle.keywords.specs.KeptSizes.{kept_size};

use kinds::{KEYWORD_KIND, has_kind};

// How many bytes of a spelling are kept: all of them, or none for a keyword whose kind is not among some.
pub fn kept_size(every: bool, kinds: u64, k: usize, size: usize) -> usize
    requires { k < 128 }
    ensures { result ≡ kept_size every kinds k size }
{
    if every || has_kind(kinds, k as u32 + KEYWORD_KIND) {
        size
    } else {
        0
    }
}
