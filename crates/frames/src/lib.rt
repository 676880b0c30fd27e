// The calls that wait. Each has the values of its variables and its activation.
#![tactic(auto)]

ghost use Rattle.std.specs.Prelude.{◌≤◌, ◌≡◌, length};
ghost use Rattle.frames.specs.Frames.{activation_in, LevelFits, Storable, Saved, Loaded, with_front};

use expansion::MOST_OPEN;
use grammar::limits::MOST_VARIABLES;
use steps::Activation;

// Where a frame has the numbers of the activation, behind the values of the variables.
const PRODUCTION: usize = MOST_VARIABLES;

const BEGAN: usize = PRODUCTION + 1;

const COUNT: usize = BEGAN + 1;

const NEXT: usize = COUNT + 1;

// The numbers of a frame.
pub const FRAME: usize = NEXT + 1;

// The numbers of rooms for 16, 64 and 256 calls, and for all calls that may be open.
pub const SHORT_FRAMES: usize = 16 * FRAME;

pub const MIDDLE_FRAMES: usize = 64 * FRAME;

pub const LONG_FRAMES: usize = 256 * FRAME;

pub const ALL_FRAMES: usize = (MOST_OPEN + 1) * FRAME;

// One more call waits above `level` others.
pub fn save(frames: &mut [u32], level: usize, vars: &[u32; MOST_VARIABLES], call: Activation)
    requires level_fits { LevelFits frames.old level }
    requires storable { Storable call }
    ensures { Saved frames.old frames.new level vars.now call }
{
    let base = level * FRAME;
    frames[base..base + MOST_VARIABLES].copy_from_slice(vars);
    frames[base + PRODUCTION] = call.production as u32;
    frames[base + BEGAN] = call.began as u32;
    frames[base + COUNT] = call.count as u32;
    frames[base + NEXT] = call.next as u32;
}

// The variables of a call that waits.
pub fn load(frames: &[u32], level: usize) -> [u32; MOST_VARIABLES]
    requires { LevelFits frames.now level }
    ensures { Loaded frames.now level result }
{
    let base = level * FRAME;
    let mut vars = [0u32; MOST_VARIABLES];
    vars.copy_from_slice(&frames[base..base + MOST_VARIABLES]);
    vars
}

// Its activation.
pub fn activation_at(frames: &[u32], level: usize) -> Activation
    requires { LevelFits frames.now level }
    ensures { result ≡ activation_in frames.now level }
{
    let base = level * FRAME;
    Activation {
        production: frames[base + PRODUCTION] as usize,
        began: frames[base + BEGAN] as usize,
        count: frames[base + COUNT] as usize,
        next: frames[base + NEXT] as usize,
    }
}

// The frames of a room at the front of one that is no shorter.
pub fn copy(frames: &mut [u32], short: &[u32])
    requires { length short.now ≤ length frames.old }
    ensures { frames.new ≡ with_front frames.old short.now }
{
    frames[..short.len()].copy_from_slice(short);
}
