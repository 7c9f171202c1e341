//! The command `stack`.

ghost use Rattle.std.specs.Prelude.{◌≡◌, IsTrue, MatchResult};
ghost use Rattle.command_words.specs.Words.Asked.{AskedStack};
ghost use Rattle.ds_base.specs.Gain.{GainsPrefix};
ghost use Rattle.ds_base.specs.Outside.{FolderStays, SinkStays};
ghost use Rattle.dshark_cli.specs.Faults.{of_stack};
ghost use Rattle.dshark_cli.specs.Rooms.{room_of};
ghost use Rattle.dshark_cli.specs.Run.{EndsOk, EndsBy};

use ds_base::{Folder, Sink};
use field_table::FieldRef;
use input_files::CaptureFault;
use run_faults::RunFault;
use stack_lines::{Asking, StackFault, print_stack};
use std::alloc::Global;

/// Writes the headers of each packet of a capture, or the value of the field where one is given. VXLAN is
/// looked for after UDP to `port`.
pub fn run_stack<F: Folder, O: Sink>(
    alloc: Global,
    port: u16,
    field: Option<FieldRef>,
    file: &str,
    folder: &mut F,
    out: &mut O,
) -> Result<(), RunFault>
    ensures out_stays { SinkStays (O.seen out.old) (O.seen out.new) }
    ensures folder_stays { FolderStays (F.seen folder.old) (F.seen folder.new) }
    ensures prefix { IsTrue (F.seen folder.old).told → IsTrue (O.seen out.old).told →
        GainsPrefix (O.seen out.old).written (O.seen out.new).written ((room_of (AskedStack port field file.now)).due (F.seen folder.old)) }
    ensures ends { MatchResult result
        (λ _. EndsOk (room_of (AskedStack port field file.now)) (F.seen folder.old) (F.seen folder.new) (O.seen out.old) (O.seen out.new))
        (EndsBy (room_of (AskedStack port field file.now)) (F.seen folder.old) (F.seen folder.new) (O.seen out.old) (O.seen out.new)) }
{
    match print_stack(alloc, Asking { port, field }, file, folder, out) {
        Ok(()) => Ok(()),
        Err(fault) => Err(of_stack(fault)),
    }
}

/// The only capture and its file have number 0.
fn of_stack(fault: StackFault) -> RunFault
    ensures { result ≡ of_stack fault }
{
    match fault {
        StackFault::Capture(CaptureFault::Malformed { at, what }) => RunFault::Malformed {
            capture: 0,
            at,
            what,
        },
        StackFault::Capture(CaptureFault::Unread) => RunFault::ReadFault { file: 0 },
        StackFault::Capture(CaptureFault::OutOfMemory) => RunFault::OutOfMemory,
        StackFault::Unwritten => RunFault::WriteFault,
    }
}
