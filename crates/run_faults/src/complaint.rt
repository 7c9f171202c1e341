//! The line of a fault on the standard error.

ghost use Rattle.std.specs.Prelude.{◌≡◌, ◌+◌, ◌≤◌, ◌++◌, length, IsTrue, codes};
ghost use Rattle.std.specs.Fmt.{decimal};
ghost use Rattle.ds_base.specs.Faults.{IsQuiet};
ghost use Rattle.ds_base.specs.Gain.{GainsPrefix};
ghost use Rattle.ds_base.specs.Outside.{SinkStays};
ghost use Rattle.run_faults.specs.FaultLine.{what_text, fault_text, fault_line, line_of};

use crate::capture_name::CaptureName;
use crate::fault::{RunFault, Stop};
use crate::job_complaint::push_job;
use crate::line::Line;
use ds_base::{PcapFault, Sink};
use output_text::write_all;

/// Writes the line of how a run stopped to the standard error, and nothing where it ended Ok. A failure
/// there changes nothing else. It takes no memory.
pub fn complain<E: Sink>(err: &mut E, stop: &Option<Stop>)
    ensures stays { SinkStays (E.seen err.old) (E.seen err.new) }
    ensures prefix { IsTrue (E.seen err.old).told → GainsPrefix (E.seen err.old).written (E.seen err.new).written (line_of stop.now) }
    ensures whole { IsTrue (E.seen err.old).told → IsQuiet (E.seen err.old).faults (E.seen err.new).faults →
        (E.seen err.new).written ≡ (E.seen err.old).written ++ line_of stop.now }
{
    if let Some(stop) = stop {
        let line = line_of(stop);
        let _ = write_all(err, line.bytes());
    }
}

/// The line of a stop.
fn line_of(stop: &Stop) -> Line
    ensures { result ≡ fault_line stop.now.name stop.now.fault }
{
    let mut line = Line::new();
    line.push(b"dshark: ");
    push_fault(&mut line, stop);
    line.push(b"\n");
    line
}

/// Puts the text of a fault at the end.
fn push_fault(line: &mut Line, stop: &Stop)
    requires { length line.old ≤ 8 }
    ensures text { line.new ≡ line.old ++ fault_text stop.now.name stop.now.fault }
    ensures short { length line.new ≤ length line.old + 190 }
{
    match &stop.fault {
        RunFault::Usage { place } => {
            line.push(b"usage: word ");
            line.push_number(u128::from(*place));
        }
        RunFault::BadJob(fault) => push_job(line, fault),
        RunFault::Malformed { at, what, .. } => {
            push_place(line, &stop.name, *at);
            push_what(line, what);
        }
        RunFault::ReadFault { file } => {
            line.push(b"read: file ");
            line.push_number(u128::from(*file));
        }
        RunFault::WriteFault => line.push(b"write"),
        RunFault::OutOfMemory => line.push(b"memory"),
    }
}

/// Puts the place of a malformed capture at the end.
fn push_place(line: &mut Line, name: &CaptureName, at: u64)
    requires { length line.old ≤ 8 }
    ensures text { line.new ≡ line.old ++ (codes "capture " ++ name.now ++ codes ": byte " ++ decimal at ++ codes ": ") }
    ensures short { length line.new ≤ length line.old + 89 }
{
    line.push(b"capture ");
    line.push(name.bytes());
    line.push(b": byte ");
    line.push_number(u128::from(at));
    line.push(b": ");
}

/// Puts at the end what is wrong with a capture.
fn push_what(line: &mut Line, what: &PcapFault)
    requires { length line.old ≤ 100 }
    ensures text { line.new ≡ line.old ++ what_text what.now }
    ensures short { length line.new ≤ length line.old + 95 }
{
    match what {
        PcapFault::PcapNg => line.push(b"pcapng"),
        PcapFault::Magic => line.push(b"magic"),
        PcapFault::ShortHeader { .. } => line.push(b"short header"),
        PcapFault::Version { major, minor } => {
            line.push(b"version ");
            line.push_number(u128::from(*major));
            line.push(b".");
            line.push_number(u128::from(*minor));
        }
        PcapFault::LinkType { word } => {
            line.push(b"link type ");
            line.push_number(u128::from(*word));
        }
        PcapFault::TooLong { number, len } => {
            line.push(b"record ");
            line.push_number(u128::from(*number));
            line.push(b" length ");
            line.push_number(u128::from(*len));
        }
        PcapFault::TooMany => line.push(b"records"),
        PcapFault::NgLength { len } => {
            line.push(b"block length ");
            line.push_number(u128::from(*len));
        }
        PcapFault::NgTail { tail } => {
            line.push(b"block tail ");
            line.push_number(u128::from(*tail));
        }
        PcapFault::NgInterface { id } => {
            line.push(b"interface ");
            line.push_number(u128::from(*id));
        }
        PcapFault::NgPacket { number, len } => {
            line.push(b"record ");
            line.push_number(u128::from(*number));
            line.push(b" packet ");
            line.push_number(u128::from(*len));
        }
        PcapFault::NgResolution { r } => {
            line.push(b"resolution ");
            line.push_number(u128::from(*r));
        }
        PcapFault::NgTime { number } => {
            line.push(b"record ");
            line.push_number(u128::from(*number));
            line.push(b" time");
        }
    }
}
