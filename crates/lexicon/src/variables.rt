// The sorts of `$` variables in the room of a lexicon: how many there are, then each. Document 02, C-14.
ghost use Rattle.std.specs.Prelude.{◌≡◌, ◌≤◌, length};
ghost use Rattle.grammar.specs.Variables.{most_variables};
ghost use Rattle.lexicon.specs.LexiconRoom.{lexicon_size, SortsEntered};

use crate::{VARIABLE_COUNT, VARIABLES};

// The sorts of variables are stored. A formula has none.
pub fn enter_sorts(sorts: &[u8], room: &mut [u32])
    requires { (length sorts.now ≤ most_variables) × (length room.old ≡ lexicon_size) }
    ensures { SortsEntered sorts.now room.old room.new }
{
    room[VARIABLE_COUNT] = sorts.len() as u32;
    for i in 0..sorts.len() {
        room[VARIABLES + i] = sorts[i] as u32;
    }
}
