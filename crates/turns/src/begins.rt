// The beginning of a call.
ghost use Rattle.std.specs.Prelude.{ℕ, ◌<◌, ◌≤◌, ◌≡◌};
ghost use Rattle.expansion.specs.Expansion.{call_begun, initial_state};
ghost use Rattle.expansion.specs.Limits.{most_open, most_calls};
ghost use Rattle.turns.specs.Lent.{MayBegin};
ghost use Rattle.turns.specs.Begins.{StartsFor};

use answers::Refusal;
use answers::causes::Cause;
use choices::{MEMORY, choose, kinds_of};
use expansion::{MOST_CALLS, State};
use productions::room::{NO_PLACE, ROOM, start};
use scanner::room::{TOKEN, kind_at};
use steps::{Activation, misfit};

// How a call begins: it refuses, or a production is entered.
pub type Begun = Result<(Activation, State), Refusal>;

// The state with one more call begun.
fn with_call(s: State) -> State
    requires { s.calls ≤ most_calls }
    ensures { result ≡ call_begun s }
{
    State {
        calls: s.calls + 1,
        ..s
    }
}

// The production that is chosen at the next token is entered; 17 if there is none.
#[inline(always)]
fn enter(
    memory: &mut [u8; MEMORY],
    room: &[u64; ROOM],
    tokens: &[u32],
    nonterminal: u8,
    given: usize,
    s: State,
) -> Begun
    requires may_begin { MayBegin room.now memory.old tokens.now }
    requires may_call { s.calls < most_calls }
    ensures { (depth : ℕ) → 0 < depth → StartsFor room.now memory.old tokens.now depth nonterminal given s result memory.new }
{
    let n = tokens.len() / TOKEN;
    let kind = kind_at(tokens, n, s.at);
    let place = choose(room, memory, nonterminal, kind);
    if place < NO_PLACE {
        let call = Activation {
            production: place,
            began: s.at,
            count: given,
            next: start(room, place),
        };
        return Ok((call, with_call(s)));
    }
    Err(misfit(s.at, kinds_of(room, nonterminal)))
}

// The beginning of a call of a nonterminal with so many arguments, while `depth` more calls may be open: tested 19, 20, 17. It has one caller, the loop
// over calls, so that the back end lays it into that loop; the root's call is begun by a function of its own.
pub fn begin(
    memory: &mut [u8; MEMORY],
    room: &[u64; ROOM],
    tokens: &[u32],
    depth: usize,
    nonterminal: u8,
    given: usize,
    s: State,
) -> Begun
    requires { MayBegin room.now memory.old tokens.now }
    ensures { StartsFor room.now memory.old tokens.now depth nonterminal given s result memory.new }
{
    if depth == 0 {
        return Err(Cause::TooManyOpenCalls.refuse(s.at as u64, 0, 0));
    }
    if MOST_CALLS <= s.calls {
        return Err(Cause::TooManyCalls.refuse(s.at as u64, 0, 0));
    }
    enter(memory, room, tokens, nonterminal, given, s)
}

// The beginning of the root's call, which has no arguments: none is open and none was begun, so that only 17 is tested.
pub fn begin_root(memory: &mut [u8; MEMORY], room: &[u64; ROOM], tokens: &[u32], root: u8) -> Begun
    requires { MayBegin room.now memory.old tokens.now }
    ensures { StartsFor room.now memory.old tokens.now most_open root 0 initial_state result memory.new }
{
    let s = State {
        at: 0,
        fresh: 1,
        calls: 0,
        made: 0,
    };
    enter(memory, room, tokens, root, 0, s)
}
