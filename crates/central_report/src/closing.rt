//! The end of a report: the delays, the captures and the last line.
ghost use Rattle.std.specs.Prelude.{◌≡◌, ◌++◌, List, length, OnOk, IfOk};
ghost use Rattle.ds_base.specs.Copies.{Copies};
ghost use Rattle.summary_spec.specs.Job.{declared_of};
ghost use Rattle.central_report.specs.Progress.{AreRowsAmong, HasAnswered};
ghost use Rattle.central_report.specs.Report.{capture_texts, lines_of, row_texts};

use crate::written::Written;
use answer_text::{push_capture_line, push_end_line, push_profile_line};
use ds_base::{CountsList, OutOfMemory, Text};
use profiles::Profile;
use summary_spec::Job;

/// The whole report of groups that were answered, over so many summaries. The only refusal is want of
/// memory.
pub(crate) fn closed(
    job: &Job,
    written: Written,
    counts: &CountsList,
    summaries: u64,
) -> Result<Text, OutOfMemory>
    requires counts { length counts.now.items ≡ length job.now.names.captures.items }
    requires rows { AreRowsAmong (length job.now.names.captures.items) written.profile }
    ensures { IfOk result (λ text. (gs : List Copies) → HasAnswered job.now.names.captures.items (declared_of job.now) written gs →
        text.items ≡ lines_of job.now.names.captures.items (declared_of job.now).query job.now.profile gs counts.now.items summaries) }
{
    let Written {
        mut text,
        profile,
        groups,
    } = written;
    // There are no rows where the job does not ask for the delays.
    push_rows(&mut text, job, &profile)?;
    push_captures(&mut text, job, counts)?;
    push_end_line(&mut text, groups, summaries)?;
    Ok(text)
}

/// Puts the lines of the delays at the end.
fn push_rows(text: &mut Text, job: &Job, profile: &Profile) -> Result<(), OutOfMemory>
    requires { AreRowsAmong (length job.now.names.captures.items) profile.now }
    ensures { OnOk result (text.new.items ≡ text.old.items ++ row_texts job.now.names.captures.items profile.now) }
{
    for i in 0..profile.len() {
        if let Some(row) = profile.row(i) {
            push_profile_line(text, &job.names, &row)?;
        }
    }
    Ok(())
}

/// Puts the lines of the captures at the end, in the order of their numbers.
fn push_captures(text: &mut Text, job: &Job, counts: &CountsList) -> Result<(), OutOfMemory>
    requires { length counts.now.items ≡ length job.now.names.captures.items }
    ensures { OnOk result (text.new.items ≡ text.old.items ++ capture_texts job.now.names.captures.items 0 counts.now.items) }
{
    for capture in 0..counts.len() {
        push_capture_line(text, &job.names, capture as u32, counts.get(capture))?;
    }
    Ok(())
}
