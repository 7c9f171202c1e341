//! The top call.

ghost use Rattle.std.specs.Prelude.{◌≡◌, map, string_bytes, [], false, None, Some, Err, IsTrue, IfErr, MatchResult, codes};
ghost use Rattle.ds_base.specs.Outside.{FolderStays, SinkStays};
ghost use Rattle.ds_base.specs.Gain.{GainsPrefix};
ghost use Rattle.command_words.specs.Command.{asked_of};
ghost use Rattle.run_faults.specs.Status.{status_of};
ghost use Rattle.dshark_cli.specs.Naming.{NamesFault, SaysFault, IsNamed, fault_of};
ghost use Rattle.dshark_cli.specs.Promises.{Promises};
ghost use Rattle.dshark_cli.specs.Rooms.{room_of, IsInLimits};
ghost use Rattle.dshark_cli.specs.Links.{RowsSay, SaysRows};
ghost use Rattle.dshark_cli.specs.Run.{run_of, EndsOk, EndsBy};

use crate::central::run_central;
use crate::check::run_check;
use crate::count::run_count;
use crate::output::write_text;
use crate::run::run_run;
use crate::sample::print_sample;
use crate::stack::run_stack;
use command_words::{Command, HELP, VERSION_LINE, read_words};
use ds_base::{Chooser, Folder, Gate, Sink};
use link_rows::RunRows;
use run_faults::{RunFault, Stop, complain, status};
use std::alloc::Global;
use std::thread::Threads;

/// How a run ended.
#[derive(Drop)]
pub struct Ended {
    /// The exit status.
    pub status: u8,
    /// The fault, where it did not end Ok.
    pub fault: Option<RunFault>,
    /// The rows of the links of the pipeline of `run` and `sample`. Other commands have none.
    pub links: RunRows,
}

/// Runs the command that the words ask for. It always returns.
pub fn run_tool<R: Threads + Sync, F: Folder, O: Sink + Send, E: Sink, C: Chooser, G: Gate + Sync>(
    _rt: &R,
    alloc: Global,
    words: &[String],
    folder: &mut F,
    out: &mut O,
    err: &mut E,
    chooser: &mut C,
    _gate: &G,
) -> Ended
    ensures out_stays { SinkStays (O.seen out.old) (O.seen out.new) }
    ensures folder_stays { FolderStays (F.seen folder.old) (F.seen folder.new) }
    ensures err_stays { SinkStays (E.seen err.old) (E.seen err.new) }

    // What was written however it ends, and the cause of each fault: each promise is a field.
    ensures promises { Promises (run_of (map string_bytes words.now) (F.seen folder.old) (F.seen folder.new) (O.seen out.old) (O.seen out.new)) result.fault }

    // The fault's line on the standard error, which names the capture where one is malformed.
    ensures line { IsTrue (E.seen err.old).told → SaysFault (run_of (map string_bytes words.now) (F.seen folder.old) (F.seen folder.new) (O.seen out.old) (O.seen out.new)) (E.seen err.old) (E.seen err.new) result.fault }
    ensures status { result.status ≡ status_of result.fault }

    // The rows of the links: no more frames were held on any than its credits, and each that was sent was taken.
    ensures links { SaysRows (run_of (map string_bytes words.now) (F.seen folder.old) (F.seen folder.new) (O.seen out.old) (O.seen out.new)) result.fault result.links }
{
    let Stopped { stop, links } = run(alloc, words, folder, out, chooser);
    complain(err, &stop);
    let fault = fault_of(&stop);
    Ended {
        status: status(&fault),
        fault,
        links,
    }
}

/// How the command stopped, where it does not end Ok, and the rows of its links.
struct Stopped {
    stop: Option<Stop>,
    links: RunRows,
}

/// Runs the command.
fn run<F: Folder, O: Sink, C: Chooser>(
    alloc: Global,
    words: &[String],
    folder: &mut F,
    out: &mut O,
    chooser: &mut C,
) -> Stopped
    ensures out_stays { SinkStays (O.seen out.old) (O.seen out.new) }
    ensures folder_stays { FolderStays (F.seen folder.old) (F.seen folder.new) }
    ensures promises { Promises (run_of (map string_bytes words.now) (F.seen folder.old) (F.seen folder.new) (O.seen out.old) (O.seen out.new)) (fault_of result.stop) }
    ensures named { IsNamed (run_of (map string_bytes words.now) (F.seen folder.old) (F.seen folder.new) (O.seen out.old) (O.seen out.new)) result.stop }
    ensures links { SaysRows (run_of (map string_bytes words.now) (F.seen folder.old) (F.seen folder.new) (O.seen out.old) (O.seen out.new)) (fault_of result.stop) result.links }
{
    let mut links = RunRows::new(alloc);
    match read_words(words) {
        Err(bad) => Stopped {
            stop: Some(Stop::unnamed(RunFault::Usage { place: bad.place })),
            links,
        },
        Ok(command) => match run_command(alloc, &command, folder, out, chooser, &mut links) {
            Ok(()) => Stopped { stop: None, links },
            Err(stop) => Stopped {
                stop: Some(stop),
                links,
            },
        },
    }
}

/// Runs a command. `links` gets the rows of its links, where it has a pipeline.
fn run_command<F: Folder, O: Sink, C: Chooser>(
    alloc: Global,
    command: &Command<'_>,
    folder: &mut F,
    out: &mut O,
    chooser: &mut C,
    links: &mut RunRows,
) -> Result<(), Stop>
    requires limits { IsInLimits (asked_of command.now) }
    requires no_links { (links.old.rows ≡ []) × (links.old.done ≡ false) }
    ensures out_stays { SinkStays (O.seen out.old) (O.seen out.new) }
    ensures folder_stays { FolderStays (F.seen folder.old) (F.seen folder.new) }
    ensures prefix { IsTrue (F.seen folder.old).told → IsTrue (O.seen out.old).told →
        GainsPrefix (O.seen out.old).written (O.seen out.new).written ((room_of (asked_of command.now)).due (F.seen folder.old)) }
    ensures named { IfErr result (λ stop. NamesFault (room_of (asked_of command.now)).opens (F.seen folder.old) stop.name stop.fault) }
    ensures ends { MatchResult result
        (λ _. EndsOk (room_of (asked_of command.now)) (F.seen folder.old) (F.seen folder.new) (O.seen out.old) (O.seen out.new))
        (λ stop. EndsBy (room_of (asked_of command.now)) (F.seen folder.old) (F.seen folder.new) (O.seen out.old) (O.seen out.new) stop.fault) }
    ensures links { MatchResult result
        (λ _. RowsSay (asked_of command.now) (F.seen folder.old) None links.new)
        (λ stop. RowsSay (asked_of command.now) (F.seen folder.old) (Some stop.fault) links.new) }
{
    match command {
        Command::Count {
            field,
            window,
            file,
        } => unnamed(run_count(alloc, *field, *window, file, folder, out)),
        Command::Stack { port, field, file } => {
            unnamed(run_stack(alloc, *port, *field, file, folder, out))
        }
        Command::Check { job } => unnamed(run_check(alloc, job, folder, out)),
        Command::Central { job } => run_central(alloc, job, folder, out),
        Command::Run { job, sizes } => run_run(alloc, job, *sizes, folder, out, chooser, links),
        Command::Sample { number, sizes } => {
            unnamed(print_sample(alloc, *number, *sizes, out, chooser, links))
        }
        Command::Help => unnamed(write_text(out, HELP)),
        Command::Version => unnamed(write_text(out, VERSION_LINE)),
    }
}

/// How a command ended whose capture, where it has one, is named `c`.
fn unnamed(ended: Result<(), RunFault>) -> Result<(), Stop>
    ensures { MatchResult result
        (λ done. ended ≡ Ok done)
        (λ stop. (ended ≡ Err stop.fault) × (stop.name ≡ codes "c")) }
{
    match ended {
        Ok(()) => Ok(()),
        Err(fault) => Err(Stop::unnamed(fault)),
    }
}

/// The fault by which a run stopped, where it did.
fn fault_of(stop: &Option<Stop>) -> Option<RunFault>
    ensures { result ≡ fault_of stop.now }
{
    match stop {
        None => None,
        Some(stop) => Some(stop.fault),
    }
}
