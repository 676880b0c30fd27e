// The calls of an expansion: a rule is chosen, its items are done from the left, and its result is built, as far as a room of frames holds
// the calls that wait.
#![tactic(auto)]

ghost use Rattle.steps.specs.Source.{SomeLent, EachLent};
ghost use Rattle.calls.specs.Calls.{MayGo, Continues};

use choices::MEMORY;
use expansion::MOST_OPEN;
use frames::FRAME;
use grammar::limits::MOST_VARIABLES;
use productions::room::ROOM;
use steps::{ItemStep, finish, item_step};
use templates::rows_of;
use turns::begins::begin;
use turns::{Advance, Resumption, entered, paused, resumed, returned, valued};

// How many calls may wait.
const MOST_WAITING: usize = MOST_OPEN - 1;

// The items of the call at a level of `frames`, its result, and so on with the calls that wait below it. The call that goes on is kept
// apart from its frame.
pub fn items(
    cells: &mut [u32],
    stack: &mut [u32],
    frames: &mut [u32],
    memory: &mut [u8; MEMORY],
    table: &[u8],
    texts: &[u32],
    room: &[u64; ROOM],
    tokens: &[u32],
    from: Resumption,
) -> Advance
    requires { SomeLent table.now texts.now (λ S. MayGo S room.now memory.old tokens.now cells.old stack.old frames.old from) }
    ensures { EachLent table.now texts.now (λ S. MayGo S room.now memory.old tokens.now cells.old stack.old frames.old from) (λ S.
        Continues S tokens.now cells.old frames.old from result cells.new frames.new memory.new) }
{
    let rows = rows_of(cells.len());
    let mut vars = [0u32; MOST_VARIABLES];
    let mut args = [0u32; MOST_VARIABLES];
    let mut c = resumed(frames, &mut vars, from);
    loop {
        let level = c.level;
        let step = item_step(cells, stack, &mut args, table, tokens, rows, &vars, c);
        match step {
            ItemStep::Finished => {
                let outcome = finish(cells, stack, table, texts, rows, &vars, c);
                let Ok((x, t)) = outcome else {
                    return Advance::Ended(outcome);
                };
                if level == 0 {
                    return Advance::Ended(outcome);
                }
                c = returned(frames, &mut vars, level - 1, x, t);
            }
            ItemStep::Stopped(r) => return Advance::Ended(Err(r)),
            ItemStep::Taken(x, next, t) => {
                c = valued(&mut vars, c, x, next, t);
            }
            ItemStep::Opened(callee, given, next, t) => {
                let begun = begin(memory, room, tokens, MOST_WAITING - level, callee, given, t);
                match begun {
                    Err(r) => return Advance::Ended(Err(r)),
                    Ok((call, u)) => {
                        c = entered(frames, &mut vars, &args, c, next, call, u);
                        if frames.len() < (level + 3) * FRAME {
                            return paused(frames, &vars, c);
                        }
                    }
                }
            }
        }
    }
}
