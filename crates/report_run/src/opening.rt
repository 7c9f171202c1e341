//! Opening the captures of a job.
ghost use Rattle.std.specs.Prelude.{◌≡◌, ◌≤◌, ◌++◌, [], MatchResult, OnOk, length, map};
ghost use Rattle.ds_base.specs.Outside.{FolderStays};
ghost use Rattle.input_files.specs.Files.{AreOpened};
ghost use Rattle.summary_spec.specs.Job.{declared_of};
ghost use Rattle.job_inputs.specs.Captures.{StopsCaptures};

use ds_base::{Folder, ItemList, SourceList};
use job_inputs::{CapturesFault, give_back_all, open_captures};
use std::alloc::Global;
use std::collections::VecDeque;
use summary_spec::Job;

/// Opens the files of all captures, in order. Where one is not opened, those before it are given back.
pub(crate) fn open_listed<F: Folder>(
    alloc: Global,
    job: &Job,
    folder: &mut F,
) -> Result<SourceList<F::Src>, CapturesFault>
    ensures stays { FolderStays (F.seen folder.old) (F.seen folder.new) }
    ensures quiet { OnOk result ((F.seen folder.new).faults ≡ (F.seen folder.old).faults) }
    ensures ends { MatchResult result
        (λ sources. AreOpened (F.seen folder.old) (declared_of job.now).files (map F.Src.seen sources.items))
        (StopsCaptures (declared_of job.now).files (F.seen folder.old) (F.seen folder.new)) }
{
    let mut opened = open_captures(alloc, job, folder)?;
    let mut sources = SourceList::new(alloc);
    if sources.reserve(opened.len() as u64).is_err() {
        give_back_all(folder, opened);
        sources.destroy_empty();
        return Err(CapturesFault::OutOfMemory);
    }
    move_all(&mut opened, &mut sources);
    opened.destroy_empty();
    Ok(sources)
}

// Moves all items behind those of a list that has room for them: the first one, and then those behind it.
fn move_all<T>(from: &mut VecDeque<T>, into: &mut ItemList<T>)
    requires { length from.old.items ≤ into.old.spare }
    ensures joined { into.new.items ≡ into.old.items ++ from.old.items }
    ensures emptied { from.new.items ≡ [] }
{
    let Some(first) = from.pop_front() else {
        return;
    };
    match into.push(first) {
        Ok(()) => move_all(from, into),
        Err(_) => unreachable!(),
    }
}
