//! The run over the sample of a number.
ghost use Rattle.std.specs.Prelude.{◌≡◌, true, IfOk, length, map};
ghost use Rattle.central_report.specs.Report.{report};
ghost use Rattle.ds_base.specs.Files.{named_bytes};
ghost use Rattle.ds_base.specs.Keys.{fnv};
ghost use Rattle.summary_spec.specs.Job.{declared_of};
ghost use Rattle.trace_gen.specs.SampleJob.{sample_job};
ghost use Rattle.new_pipeline.specs.Shapes.{IsWithin, counts_of};
ghost use Rattle.job_run.specs.Rows.{AreRowsOf, AreBoundBelow};
ghost use Rattle.sample_run.specs.Made.{bytes_of, made_files};
ghost use Rattle.sample_run.specs.SampleLine.{sample_line};
ghost use Rattle.sample_run.specs.Starts.{lines_with};

use crate::line::{Totals, line};
use crate::sources::sources_of;
use crate::totals::{group_lines, hash};
use ds_base::{Chooser, KeyList, MemSink, OutOfMemory, Sink, Text};
use job_run::{Ran, run_job};
use link_rows::RunRows;
use new_pipeline::Shape;
use std::alloc::Global;
use trace_gen::{Sample, make};

/// How many bytes of a report are written at a time.
const PIECE: u32 = 65_536;

/// What a run over a sample leaves.
#[derive(Drop)]
pub struct Sampled {
    /// The line of its totals.
    pub line: Text,
    /// The rows of the links of its pipeline.
    pub rows: RunRows,
}

/// The line of the sample of a number, whose report a pipeline of this shape made. It is refused for want of memory
/// alone.
pub fn run_sample<C: Chooser>(
    alloc: Global,
    number: u64,
    shape: Shape,
    chooser: &mut C,
) -> Result<Sampled, OutOfMemory>
    requires shape { IsWithin shape }
    ensures line { IfOk result (λ sampled. sampled.line.items ≡ sample_line number) }
    ensures rows { IfOk result (λ sampled. AreRowsOf (counts_of shape) shape.credits sampled.rows) }
    ensures done { IfOk result (λ sampled. sampled.rows.done ≡ true) }
    ensures bound { IfOk result (λ sampled. AreBoundBelow sample_job (made_files number) (counts_of shape) sampled.rows) }
{
    let sample = make(alloc, number)?;
    let reported = report_of(alloc, &sample, shape, chooser)?;
    let totals = totals_of(number, sample.records, reported.sink.bytes());
    let line = line(alloc, &totals)?;
    Ok(Sampled {
        line,
        rows: reported.rows,
    })
}

/// The report of a sample, and the rows of the links over which it went.
#[derive(Drop)]
struct Reported {
    sink: MemSink,
    rows: RunRows,
}

// The report of a sample.
fn report_of<C: Chooser>(
    alloc: Global,
    sample: &Sample,
    shape: Shape,
    chooser: &mut C,
) -> Result<Reported, OutOfMemory>
    requires shape { IsWithin shape }
    requires captures { length sample.now.files.items ≡ length (declared_of sample.now.job).captures }
    ensures written { IfOk result (λ reported. (⟦<MemSink as Sink>⟧.seen reported.sink).written ≡ report (declared_of sample.now.job) (bytes_of (map named_bytes sample.now.files.items))) }
    ensures rows { IfOk result (λ reported. AreRowsOf (counts_of shape) shape.credits reported.rows) }
    ensures done { IfOk result (λ reported. reported.rows.done ≡ true) }
    ensures bound { IfOk result (λ reported. AreBoundBelow (declared_of sample.now.job) (bytes_of (map named_bytes sample.now.files.items)) (counts_of shape) reported.rows) }
{
    let sources = sources_of(alloc, &sample.files)?;
    let mut sink = MemSink::new(alloc, PIECE, KeyList::new(alloc));
    let Ran {
        ended,
        sources,
        rows,
    } = run_job(alloc, &sample.job, shape, sources, &mut sink, chooser);
    let _ = sources;
    match ended {
        Ok(()) => Ok(Reported { sink, rows }),
        // The sources never fail, and the sink does for want of memory alone.
        Err(_) => Err(OutOfMemory),
    }
}

// The totals of a report.
fn totals_of(number: u64, records: u64, report: &[u8]) -> Totals
    ensures { result ≡ record { number = number; records = records; groups = lines_with 71 true report.now; bytes = length report.now; hash = fnv report.now } }
{
    Totals {
        number,
        records,
        groups: group_lines(report),
        bytes: report.len() as u64,
        hash: hash(report),
    }
}
