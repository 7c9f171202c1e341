//! The lines of a capture, written while it is read.

ghost use Rattle.std.specs.Prelude.{◌≡◌, [], None, IsTrue, MatchResult};
ghost use Rattle.ds_base.specs.Gain.{GainsPrefix};
ghost use Rattle.ds_base.specs.Outside.{IsFresh, FolderStays, SourceStays, SinkStays};
ghost use Rattle.input_files.specs.Reading.{HasRead};
ghost use Rattle.pcap_reader.specs.Good.{good};
ghost use Rattle.stack_lines.specs.Printing.{lines_by, report_by, lines_in, HasBegun, IsReadTo, StopsReadTo, PrintsWhole, PrintsFile, StopsFile};

use crate::fault::StackFault;
use crate::line::Asking;
use crate::printer::Printer;
use ds_base::{Folder, Sink, Source};
use input_files::{CaptureFault, CaptureReading, FileFault, Piece, open_file};
use std::alloc::Global;

/// How many bytes a read asks for.
const PIECE: u32 = 262_144;

/// Writes the lines of the capture that the folder has by that name, while it is read.
///
/// `Unwritten` where a write failed. Of `Capture`: `Malformed` at the first malformed place, once all lines of
/// the records before it were written; `Unread` where the file is not there or a call of it failed; and
/// `OutOfMemory`. However it ends, the file is given back.
pub fn print_stack<F: Folder, O: Sink>(
    alloc: Global,
    asking: Asking,
    file: &str,
    folder: &mut F,
    out: &mut O,
) -> Result<(), StackFault>
    ensures out_stays { SinkStays (O.seen out.old) (O.seen out.new) }
    ensures folder_stays { FolderStays (F.seen folder.old) (F.seen folder.new) }
    ensures prefix { IsTrue (F.seen folder.old).told → IsTrue (O.seen out.old).told →
        GainsPrefix (O.seen out.old).written (O.seen out.new).written (lines_in (F.seen folder.old) asking file.now) }
    ensures ends { MatchResult result
        (λ _. PrintsFile asking file.now (F.seen folder.old) (F.seen folder.new) (O.seen out.old) (O.seen out.new))
        (StopsFile asking file.now (F.seen folder.old) (F.seen folder.new) (O.seen out.old) (O.seen out.new)) }
{
    let mut source = open_file(folder, file)?;
    let ended = print_capture(alloc, asking, &mut source, out);
    folder.give_back(source);
    ended
}

/// Prints the lines of a capture.
fn print_capture<S: Source, O: Sink>(
    alloc: Global,
    asking: Asking,
    source: &mut S,
    out: &mut O,
) -> Result<(), StackFault>
    requires { IsFresh (S.seen source.old) }
    ensures stays { SourceStays (S.seen source.old) (S.seen source.new) }
    ensures out_stays { SinkStays (O.seen out.old) (O.seen out.new) }
    ensures prefix { IsTrue (S.seen source.old).told →
        HasBegun (O.seen out.old).written (O.seen out.new) (report_by asking (S.seen source.old).whole) }
    ensures ends { MatchResult result
        (λ _. PrintsWhole asking (S.seen source.old) (S.seen source.new) (O.seen out.old) (O.seen out.new))
        (StopsReadTo asking (S.seen source.old) (S.seen source.new) (O.seen out.old) (O.seen out.new)) }
{
    let mut reading = CaptureReading::new(alloc, None, PIECE)?;
    let mut printer = Printer::new(alloc, asking);
    print_lines(source, &mut reading, &mut printer, out)
}

/// Prints the lines of a capture. `reading` and `printer` are new.
fn print_lines<S: Source, O: Sink>(
    source: &mut S,
    reading: &mut CaptureReading,
    printer: &mut Printer,
    out: &mut O,
) -> Result<(), StackFault>
    requires unread { HasRead None reading.old (S.seen source.old) [] [] }
    requires empty { printer.old.text.items ≡ [] }
    ensures stays { SourceStays (S.seen source.old) (S.seen source.new) }
    ensures out_stays { SinkStays (O.seen out.old) (O.seen out.new) }
    ensures prefix { IsTrue (S.seen source.old).told →
        HasBegun (O.seen out.old).written (O.seen out.new) (report_by printer.old.asking (S.seen source.old).whole) }
    ensures ends { MatchResult result
        (λ _. PrintsWhole printer.old.asking (S.seen source.old) (S.seen source.new) (O.seen out.old) (O.seen out.new))
        (StopsReadTo printer.old.asking (S.seen source.old) (S.seen source.new) (O.seen out.old) (O.seen out.new)) }
{
    print_records(source, reading, printer, out)?;
    match reading.finish() {
        Ok(tail) => {
            printer.end(tail.cut, out)?;
            Ok(())
        }
        Err(bad) => {
            printer.write(out)?;
            Err(StackFault::Capture(CaptureFault::Malformed {
                at: bad.at,
                what: bad.what,
            }))
        }
    }
}

/// Prints the lines of all whole records of a source. Those before a malformed place are written before it
/// is answered.
fn print_records<S: Source, O: Sink>(
    source: &mut S,
    reading: &mut CaptureReading,
    printer: &mut Printer,
    out: &mut O,
) -> Result<(), StackFault>
    requires unread { HasRead None reading.old (S.seen source.old) [] [] }
    requires empty { printer.old.text.items ≡ [] }
    ensures stays { SourceStays (S.seen source.old) (S.seen source.new) }
    ensures out_stays { SinkStays (O.seen out.old) (O.seen out.new) }
    ensures prefix { IsTrue (S.seen source.old).told →
        HasBegun (O.seen out.old).written (O.seen out.new) (lines_by printer.old.asking (good None (S.seen source.old).whole).records) }
    ensures ends { MatchResult result
        (λ _. IsReadTo printer.old.asking (S.seen source.old) (S.seen source.new) reading.new printer.new (O.seen out.old) (O.seen out.new))
        (StopsReadTo printer.old.asking (S.seen source.old) (S.seen source.new) (O.seen out.old) (O.seen out.new)) }
{
    'records: loop {
        match reading.next() {
            Ok(Some(r)) => printer.print(&r, out)?,
            Ok(None) => match reading.read(source) {
                Ok(Piece::More) => {}
                Ok(Piece::End) => return Ok(()),
                Err(FileFault::Unread) => {
                    printer.write(out)?;
                    return Err(StackFault::Capture(CaptureFault::Unread));
                }
                Err(FileFault::OutOfMemory) => {
                    return Err(StackFault::Capture(CaptureFault::OutOfMemory));
                }
            },
            Err(bad) => {
                printer.write(out)?;
                return Err(StackFault::Capture(CaptureFault::Malformed {
                    at: bad.at,
                    what: bad.what,
                }));
            }
        }
    }
}
