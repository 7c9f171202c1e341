//! The laws of a whole pipeline: calls that do nothing.
ghost use Rattle.pipeline_law.specs.Going.{FilesStay};
ghost use Rattle.pipeline_law.specs.Laws.{DoneIsWhole, MomentIsSnapshot, MomentIsWritten};
ghost use Rattle.pipeline_law.specs.RowLaws.{DoneRowsAgree, DoneRowsHaveBound, HeldIsWithin, RowsAreNumbered};

/// At every moment of a pipeline that stands, whatever faults its nodes have met: it is a Snapshot, as the laws of a run
/// speak of it, and what was written is what stood there at the start and then a front of the report.
pub fn moment_is_snapshot()
    ensures snapshot { MomentIsSnapshot }
    ensures written { MomentIsWritten }
{}

/// Where all nodes are done, the report was written, and each frame that was put on a link was sent and taken.
pub fn done_is_whole()
    ensures { DoneIsWhole }
{}

/// There is one row a link, in the order of the links' numbers.
pub fn rows_are_numbered()
    ensures { RowsAreNumbered }
{}

/// No link ever held more frames than it has credits.
pub fn held_is_within()
    ensures { HeldIsWithin }
{}

/// Where all nodes are done, as many frames were sent on each link as taken, and at least one.
pub fn done_rows_agree()
    ensures { DoneRowsAgree }
{}

/// Where all nodes are done, at least so many frames were sent from a parser to a grouper as there are accepted summaries
/// of the parser's captures whose keys are of the grouper's shard, and an end for each of these captures, and the end.
pub fn done_rows_have_bound()
    ensures { DoneRowsHaveBound }
{}

/// The files that the sources tell stay while the pipeline goes on.
pub fn files_stay()
    ensures { FilesStay }
{}
