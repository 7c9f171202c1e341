//! Laws of the report: calls that do nothing, whose contracts say what is true of every job and its files.
ghost use Rattle.central_report.specs.Laws.{AcceptedAreReportable, AcceptedIsAll, RowsAreProfile};

/// The accepted summaries of a job's captures are all that are accepted of one of them and no others, each
/// before all with a later stamp.
pub fn accepted_is_all()
    ensures { AcceptedIsAll }
{}

/// The accepted summaries of the files of a job's captures are such as `central_text` asks for.
pub fn accepted_reportable()
    ensures { AcceptedAreReportable }
{}

/// The rows of a report's delays are the profile of its groups.
pub fn rows_are_profile()
    ensures { RowsAreProfile }
{}
