//! Laws of a capture's accepted summaries: calls that do nothing, whose contracts say what is true of every
//! capture.
ghost use Rattle.key_select.specs.Laws.{AcceptedInParts, LaterAreFromMark};

/// What is accepted of two parts of a capture is what is accepted of each in turn.
pub fn accepted_in_parts()
    ensures { AcceptedInParts }
{}

/// No summary that is accepted later has a time below the greatest time of the records that were taken up
/// less the skew.
pub fn later_from_mark()
    ensures { LaterAreFromMark }
{}
