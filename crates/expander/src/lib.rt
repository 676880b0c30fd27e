// The expander, from tokens to cells: the root's call, in rooms of frames that are as long as the calls that wait need.
#![tactic(auto)]

ghost use Rattle.std.specs.Prelude.{ℕ, ◌≡◌, List, length};
ghost use Rattle.expansion.specs.Run.{after};
ghost use Rattle.expansion.specs.Outcomes.{ran};
ghost use Rattle.expansion.specs.Expansion.{Input, ended};
ghost use Rattle.steps.specs.Source.{SomeLent, EachLent};
ghost use Rattle.calls.specs.Lent.{reading, Lent};
ghost use Rattle.calls.specs.Calls.{MayGo};
ghost use Rattle.expander.specs.Roots.{root_items, MayBeginRoot, MayGoOn, Ends, Expands};

use answers::causes::Cause;
use calls::items;
use choices::MEMORY;
use expansion::{Outcome, State};
use frames::{ALL_FRAMES, LONG_FRAMES, MIDDLE_FRAMES, SHORT_FRAMES, copy, save};
use grammar::limits::MOST_VARIABLES;
use productions::room::ROOM;
use scanner::room::TOKEN;
use steps::Activation;
use turns::begins::begin_root;
use turns::{Advance, Resumption};

// A formula of fewer tokens than these whose calls do not fit a shorter room most often has them all fit a middle room, or a long one.
const FEW_TOKENS: usize = 64 * TOKEN;

const MANY_TOKENS: usize = 512 * TOKEN;

// The calls that stand in a room too short for one more go on in a longer one, which is zeroed at more cost the longer it is: in a middle one first.
// It calls itself, by `items_in`: so it is laid into no caller, and formulas whose calls fit the short room have no long one on their stack.
#[cycle(items_in_longer_items_longest_items)]
fn longer_items(
    cells: &mut [u32],
    stack: &mut [u32],
    memory: &mut [u8; MEMORY],
    table: &[u8],
    texts: &[u32],
    room: &[u64; ROOM],
    tokens: &[u32],
    short: &[u32],
    from: Resumption,
) -> Outcome
    requires { SomeLent table.now texts.now (λ S. MayGoOn S room.now memory.old tokens.now cells.old stack.old short.now from) }
    ensures { EachLent table.now texts.now (λ S. MayGoOn S room.now memory.old tokens.now cells.old stack.old short.now from) (λ S.
        Ends S tokens.now cells.old short.now from result cells.new) }
{
    let few = tokens.len() < FEW_TOKENS;
    if few && short.len() < MIDDLE_FRAMES {
        let mut frames = [0u32; MIDDLE_FRAMES];
        copy(&mut frames, short);
        return items_in(
            cells,
            stack,
            &mut frames,
            memory,
            table,
            texts,
            room,
            tokens,
            from,
        );
    }
    longest_items(
        cells, stack, memory, table, texts, room, tokens, short, from,
    )
}

// The same, where no middle room is long enough: in a long one, or in one for all calls.
// Each size is written out, since functions that call each other may not differ in their const parameters.
#[cycle(items_in_longer_items_longest_items)]
fn longest_items(
    cells: &mut [u32],
    stack: &mut [u32],
    memory: &mut [u8; MEMORY],
    table: &[u8],
    texts: &[u32],
    room: &[u64; ROOM],
    tokens: &[u32],
    short: &[u32],
    from: Resumption,
) -> Outcome
    requires { SomeLent table.now texts.now (λ S. MayGoOn S room.now memory.old tokens.now cells.old stack.old short.now from) }
    ensures { EachLent table.now texts.now (λ S. MayGoOn S room.now memory.old tokens.now cells.old stack.old short.now from) (λ S.
        Ends S tokens.now cells.old short.now from result cells.new) }
{
    let not_many = tokens.len() < MANY_TOKENS;
    if not_many && short.len() < LONG_FRAMES {
        let mut frames = [0u32; LONG_FRAMES];
        copy(&mut frames, short);
        return items_in(
            cells,
            stack,
            &mut frames,
            memory,
            table,
            texts,
            room,
            tokens,
            from,
        );
    }
    let mut frames = [0u32; ALL_FRAMES];
    copy(&mut frames, short);
    items_in(
        cells,
        stack,
        &mut frames,
        memory,
        table,
        texts,
        room,
        tokens,
        from,
    )
}

// The calls that stand in a room go on to their end, there and in longer rooms.
#[cycle(items_in_longer_items_longest_items)]
fn items_in(
    cells: &mut [u32],
    stack: &mut [u32],
    frames: &mut [u32],
    memory: &mut [u8; MEMORY],
    table: &[u8],
    texts: &[u32],
    room: &[u64; ROOM],
    tokens: &[u32],
    from: Resumption,
) -> Outcome
    requires { SomeLent table.now texts.now (λ S. MayGo S room.now memory.old tokens.now cells.old stack.old frames.old from) }
    ensures { EachLent table.now texts.now (λ S. MayGo S room.now memory.old tokens.now cells.old stack.old frames.old from) (λ S.
        Ends S tokens.now cells.old frames.old from result cells.new) }
{
    let progress = items(
        cells, stack, frames, memory, table, texts, room, tokens, from,
    );
    match progress {
        Advance::Ended(o) => o,
        Advance::Paused(r) => {
            longer_items(cells, stack, memory, table, texts, room, tokens, frames, r)
        }
    }
}

// The root's call, entered: in a short room first.
fn root_items(
    cells: &mut [u32],
    stack: &mut [u32],
    memory: &mut [u8; MEMORY],
    table: &[u8],
    texts: &[u32],
    room: &[u64; ROOM],
    tokens: &[u32],
    call: Activation,
    s: State,
) -> Outcome
    requires { SomeLent table.now texts.now (λ S. MayBeginRoot S room.now memory.old tokens.now stack.old call s) }
    ensures { EachLent table.now texts.now (λ S. MayBeginRoot S room.now memory.old tokens.now
        stack.old call s) (λ S. ran result cells.new ≡ root_items (reading S tokens.now cells.old) S call.next s cells.old) }
{
    let vars = [0u32; MOST_VARIABLES];
    let mut frames = [0u32; SHORT_FRAMES];
    save(&mut frames, 0, &vars, call);
    let from = Resumption { level: 0, state: s };
    let progress = items(
        cells,
        stack,
        &mut frames,
        memory,
        table,
        texts,
        room,
        tokens,
        from,
    );
    match progress {
        Advance::Ended(o) => o,
        Advance::Paused(r) => {
            longer_items(cells, stack, memory, table, texts, room, tokens, &frames, r)
        }
    }
}

// Nothing is left over behind the root's call: else refusal 18.
fn ended(n: usize, outcome: Outcome) -> Outcome
    ensures { (I : Input) (cells : List ℕ) → length I.tokens ≡ n → ran result cells ≡ after (ran outcome cells) (ended I) }
{
    let (v, s) = outcome?;
    let at = s.at;
    if at < n {
        return Err(Cause::TokenLeftOver.refuse(at as u64, 0, 0));
    }
    Ok((v, s))
}

// The expansion of a formula's tokens, or of a text's: a call of the root that leaves no token over. It works from the table's bytes, from `texts`, which
// holds its results that are texts, from the room in which the check has laid its grammar, and from the tokens; it does not check the table. `stack` takes a
// template that is being evaluated; what it holds before and after is of no account.
// Ruled out are, among others, an expander that copies inner phrases unopened, one that answers invented counts of cells, and one
// that claims 20 or 21 at its first step.
pub fn run(
    cells: &mut [u32],
    stack: &mut [u32],
    table: &[u8],
    texts: &[u32],
    room: &[u64; ROOM],
    root: u8,
    tokens: &[u32],
) -> Outcome
    requires { SomeLent table.now texts.now (λ S. Lent S room.now tokens.now stack.old) }
    ensures { EachLent table.now texts.now (λ S. Lent S room.now tokens.now stack.old) (λ S.
        Expands S tokens.now root cells.old result cells.new) }
{
    let mut memory = [0u8; MEMORY];
    let (call, t) = begin_root(&mut memory, room, tokens, root)?;
    let n = tokens.len() / TOKEN;
    let outcome = root_items(
        cells,
        stack,
        &mut memory,
        table,
        texts,
        room,
        tokens,
        call,
        t,
    );
    ended(n, outcome)
}
