//! The passes of a turn: steps with the captures, and polls of the links behind them.
ghost use Rattle.std.specs.Prelude.{◌≡◌, ◌<◌, ℕ, ◌||◌, true, false, IfOk, IfErr, MatchResult, None, Some};
ghost use Rattle.node_lanes.specs.Ends.{OutsAreQuiet};
ghost use Rattle.node_lanes.specs.Passes.{OutsMeet};
ghost use Rattle.node_lanes.specs.Resting.{NoneHeld};
ghost use Rattle.net_law.specs.Parsers.{SomeWaits};
ghost use Rattle.parser_captures.specs.Puts.{IsEmpty};
ghost use Rattle.parser_steps.specs.Seen.{seen_of};
ghost use Rattle.parser_steps.specs.Holds.{ParserHolds};
ghost use Rattle.parser_node.specs.Passing.{PollKeeps, Polls, OnePass, HasPassed, MeetsFault, is_taken, is_ended};

use credit_link::{NamedRx, NamedTx, NodeFault};
use ds_base::Source;
use node_lanes::poll_outs;
use parser_steps::{ParserSteps, Stepped};
use shuffle_poll::Shuffle;

/// The most steps of a turn. More than a parser has captures, so that a turn in which nothing is read or taken up comes
/// to the end of all of them.
const STEPS: u32 = 1024;

/// What a step and a poll behind it came to.
#[derive(Clone, Copy)]
pub(crate) struct Pass {
    /// Whether something was read or taken up, or a byte moved.
    pub(crate) moved: bool,
    /// Whether no further step can be made now: a frame waits, or all has ended.
    pub(crate) rests: bool,
}

/// Whether a frame waits for some link.
pub(crate) fn some_wait<T: NamedTx, R: NamedRx>(out: &Shuffle<T, R>) -> bool
    ensures some { result ≡ true → SomeWaits out.now }
    ensures none { result ≡ false → NoneHeld out.now }
{
    out.waiting() > 0
}

/// Polls the links behind a step. Where something was taken up in it and no frame waits, that is left to a later step.
/// Links out are counted from 0 in a fault, since a parser has no links in.
pub(crate) fn poll_behind<T: NamedTx, R: NamedRx>(
    out: &mut Shuffle<T, R>,
    took: bool,
    cut: u32,
) -> Result<bool, NodeFault>
    requires cut { 0 < cut }
    requires quiet { OutsAreQuiet out.old }
    ensures keeps { PollKeeps out.old out.new }
    ensures polls { IfOk result (λ did. Polls took did out.old out.new) }
    ensures meets { IfErr result (λ bad. OutsMeet 0 out.old out.new bad) }
{
    if took && !some_wait(out) {
        return Ok(false);
    }
    match poll_outs(out, 0, cut) {
        Ok(moved) => Ok(moved),
        Err(bad) => Err(bad),
    }
}

// Whether a step has read or taken up something.
fn has_taken(stepped: Stepped) -> bool
    ensures { result ≡ is_taken stepped }
{
    match stepped {
        Stepped::Took => true,
        Stepped::Read => true,
        Stepped::CaptureEnded => false,
        Stepped::Ended => false,
    }
}

// Whether all captures have ended.
fn has_ended(stepped: Stepped) -> bool
    ensures { result ≡ is_ended stepped }
{
    match stepped {
        Stepped::Took => false,
        Stepped::Read => false,
        Stepped::CaptureEnded => false,
        Stepped::Ended => true,
    }
}

// Whether one of them is true.
fn either(first: bool, second: bool) -> bool
    ensures { result ≡ first || second }
{
    first || second
}

/// One step, while no frame waits, and a poll behind it.
pub(crate) fn one_pass<'a, S: Source, T: NamedTx, R: NamedRx>(
    steps: &mut ParserSteps<'a, S>,
    out: &mut Shuffle<T, R>,
    cut: u32,
) -> Result<Pass, NodeFault>
    requires cut { 0 < cut }
    requires holds { ParserHolds steps.old out.old None }
    requires none { IsEmpty out.old }
    ensures holds { MatchResult result (λ _. ParserHolds steps.new out.new None) (λ bad. ParserHolds steps.new out.new (Some bad)) }
    ensures passes { IfOk result (λ done. OnePass done.moved done.rests (seen_of steps.old out.old None) (seen_of steps.new out.new None)) }
    ensures meets { IfErr result (λ bad. MeetsFault (seen_of steps.old out.old None) (seen_of steps.new out.new (Some bad)) bad) }
{
    let stepped = match steps.step(out) {
        Ok(stepped) => stepped,
        Err(bad) => return Err(bad),
    };
    let took = has_taken(stepped);
    let polled = match poll_behind(out, took, cut) {
        Ok(polled) => polled,
        Err(bad) => return Err(bad),
    };
    let moved = either(took, polled);
    let ended = has_ended(stepped);
    let waits = some_wait(out);
    let rests = either(ended, waits);
    Ok(Pass { moved, rests })
}

/// A poll, and steps with polls behind them until a frame waits or all has ended, or there were enough of them. True
/// exactly where something was read or taken up, or a byte moved.
pub(crate) fn all_passes<'a, S: Source, T: NamedTx, R: NamedRx>(
    steps: &mut ParserSteps<'a, S>,
    out: &mut Shuffle<T, R>,
    cut: u32,
) -> Result<bool, NodeFault>
    requires cut { 0 < cut }
    requires holds { ParserHolds steps.old out.old None }
    ensures holds { MatchResult result (λ _. ParserHolds steps.new out.new None) (λ bad. ParserHolds steps.new out.new (Some bad)) }
    ensures passes { IfOk result (λ did. HasPassed did (seen_of steps.old out.old None) (seen_of steps.new out.new None)) }
    ensures meets { IfErr result (λ bad. MeetsFault (seen_of steps.old out.old None) (seen_of steps.new out.new (Some bad)) bad) }
{
    let mut moved = match poll_behind(out, false, cut) {
        Ok(polled) => polled,
        Err(bad) => return Err(bad),
    };
    let mut rests = some_wait(out);
    'passes: for i in 0..STEPS {
        if rests {
            return Ok(moved);
        }
        let done = match one_pass(steps, out, cut) {
            Ok(done) => done,
            Err(bad) => return Err(bad),
        };
        moved = either(moved, done.moved);
        rests = done.rests;
    }
    Ok(moved)
}
