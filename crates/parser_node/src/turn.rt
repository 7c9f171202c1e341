//! A turn over the parts of a parser that has met no fault, and whether it is done.
ghost use Rattle.std.specs.Prelude.{◌≡◌, ◌<◌, true, false, IfOk, IfErr, MatchResult, None, Some};
ghost use Rattle.round_law.specs.Waits.{IsDone};
ghost use Rattle.net_law.specs.Parsers.{parser_view};
ghost use Rattle.parser_steps.specs.Seen.{seen_of};
ghost use Rattle.parser_steps.specs.Holds.{ParserHolds};
ghost use Rattle.parser_node.specs.Passing.{MeetsFault};
ghost use Rattle.parser_node.specs.Turning.{AnswersBy, Turns};

use crate::passes::all_passes;
use credit_link::{NamedRx, NamedTx, NodeFault, Turn};
use ds_base::Source;
use parser_steps::ParserSteps;
use shuffle_poll::Shuffle;

// What a turn answers, by whether something moved in it.
fn answer_by<T: NamedTx, R: NamedRx>(out: &Shuffle<T, R>, moved: bool) -> Turn
    ensures { AnswersBy moved out.now result }
{
    if moved {
        return Turn::Moved;
    }
    if out.settled() {
        Turn::Done
    } else {
        Turn::Idle
    }
}

/// A turn.
pub(crate) fn turn_over<'a, S: Source, T: NamedTx, R: NamedRx>(
    steps: &mut ParserSteps<'a, S>,
    out: &mut Shuffle<T, R>,
    cut: u32,
) -> Result<Turn, NodeFault>
    requires cut { 0 < cut }
    requires holds { ParserHolds steps.old out.old None }
    ensures holds { MatchResult result (λ _. ParserHolds steps.new out.new None) (λ bad. ParserHolds steps.new out.new (Some bad)) }
    ensures turns { IfOk result (λ turn. Turns (seen_of steps.old out.old None) (seen_of steps.new out.new None) turn) }
    ensures meets { IfErr result (λ bad. MeetsFault (seen_of steps.old out.old None) (seen_of steps.new out.new (Some bad)) bad) }
{
    match all_passes(steps, out, cut) {
        Ok(moved) => Ok(answer_by(out, moved)),
        Err(bad) => Err(bad),
    }
}

/// Whether all captures have ended, and all that is due was put and sent.
pub(crate) fn done_over<'a, S: Source, T: NamedTx, R: NamedRx>(
    steps: &ParserSteps<'a, S>,
    out: &Shuffle<T, R>,
) -> bool
    requires holds { ParserHolds steps.now out.now None }
    ensures done { result ≡ true → IsDone (parser_view (seen_of steps.now out.now None)) }
    ensures not { result ≡ false → ¬ IsDone (parser_view (seen_of steps.now out.now None)) }
{
    if !steps.finished() {
        return false;
    }
    out.settled()
}
