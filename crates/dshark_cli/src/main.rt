//! The program `dshark`: the words of the command line, the commands over the crates below, and the
//! top call `run_tool`, whose clauses say what each command writes and why it fails. `main` hands it
//! the real files and streams and ends with its status.
#![tactic(auto)]

mod central;
mod check;
mod count;
mod faults;
mod job_report;
mod output;
mod run;
mod sample;
mod stack;
#[cfg(test)]
mod tests;
mod tool;

use ds_base::{ListChooser, OpenGate};
use real_ends::{FileFolder, StreamSink};
use run_faults::{RunFault, Stop, complain};
use std::env;
use std::process::ExitCode;
use tool::run_tool;

/// Runs the command of the command line.
fn main(rt: HostRuntime) -> ExitCode {
    let mut folder = FileFolder::new(&rt);
    let mut out = StreamSink::new(rt.stdout());
    let mut err = StreamSink::new(rt.stderr());
    // Arguments that are no text are refused like every faulty command line: as no words are.
    let mut words = Vec::new(rt.alloc());
    if let Ok(arguments) = env::args(&rt) {
        let Ok(texts) = arguments.skip(1).collect::<Vec<String>>(rt.alloc()) else {
            complain(&mut err, &Some(Stop::unnamed(RunFault::OutOfMemory)));
            return ExitCode::from(6);
        };
        words = texts;
    }
    let mut chooser = ListChooser::new(Vec::new(rt.alloc()));
    let ended = run_tool(
        &rt,
        rt.alloc(),
        words.as_slice(),
        &mut folder,
        &mut out,
        &mut err,
        &mut chooser,
        &OpenGate,
    );
    ExitCode::from(ended.status)
}
