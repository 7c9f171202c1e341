//! The captures of a job: all are opened before one is read, and each is given back however that ends.

ghost use Rattle.std.specs.Prelude.{◌≡◌, ◌<◌, [], MatchResult, OnOk, length, map};
ghost use Rattle.std.specs.List.{AllByRecursion};
ghost use Rattle.ds_base.specs.Outside.{FolderStays, IsFresh};
ghost use Rattle.input_files.specs.Files.{AreOpened};
ghost use Rattle.summary_spec.specs.Job.{declared_of};
ghost use Rattle.job_inputs.specs.Captures.{GathersCaptures, StopsCaptures};
ghost use Rattle.job_inputs.specs.Gathering.{GathersAll, GathersNext, StopsRead};

use crate::fault::CapturesFault;
use crate::gather::gather_capture;
use crate::packing::packing_of;
use ds_base::{Counts, CountsList, Folder};
use input_files::{CaptureFault, open_file};
use packed_summaries::LeanList;
use std::alloc::Global;
use std::collections::VecDeque;
use summary_spec::Job;

/// What was gathered of the captures of a job.
#[derive(Drop)]
pub struct Gathered {
    /// The summaries of the accepted records, of one capture after another, each in the order of its records.
    pub accepted: LeanList,
    /// How the records of each capture fared.
    pub counts: CountsList,
}

/// Gathers the captures of a job. All are opened, in order, before the first is read; each is read to its end
/// in the order of their numbers; and all are given back, however that ends.
///
/// The first fault ends it: `Unread` where a file is not there or a call of it failed, `Malformed` at the first
/// malformed place of a capture, and `OutOfMemory`.
pub fn gather_captures<F: Folder>(
    alloc: Global,
    job: &Job,
    folder: &mut F,
) -> Result<Gathered, CapturesFault>
    ensures stays { FolderStays (F.seen folder.old) (F.seen folder.new) }
    ensures ends { MatchResult result
        (λ gathered. GathersCaptures (declared_of job.now) (declared_of job.now).files (F.seen folder.old) (F.seen folder.new) gathered.accepted.items gathered.counts.items)
        (StopsCaptures (declared_of job.now).files (F.seen folder.old) (F.seen folder.new)) }
{
    let Ok(packing) = packing_of(alloc, job) else {
        return Err(CapturesFault::OutOfMemory);
    };
    let sources = open_captures(alloc, job, folder)?;
    let mut accepted = LeanList::new(alloc, packing);
    let mut counts = CountsList::new(alloc);
    read_captures(alloc, job, sources, folder, &mut accepted, &mut counts)?;
    Ok(Gathered { accepted, counts })
}

/// Opens the files of all captures, in order. Where one is not opened, those before it are given back.
pub fn open_captures<F: Folder>(
    alloc: Global,
    job: &Job,
    folder: &mut F,
) -> Result<VecDeque<F::Src>, CapturesFault>
    ensures stays { FolderStays (F.seen folder.old) (F.seen folder.new) }
    ensures quiet { OnOk result ((F.seen folder.new).faults ≡ (F.seen folder.old).faults) }
    ensures ends { MatchResult result
        (λ sources. AreOpened (F.seen folder.old) (declared_of job.now).files (map F.Src.seen sources.items))
        (StopsCaptures (declared_of job.now).files (F.seen folder.old) (F.seen folder.new)) }
{
    let many = job.files.len();
    let Ok(mut sources) = VecDeque::with_capacity(alloc, many as usize) else {
        return Err(CapturesFault::OutOfMemory);
    };
    'files: for capture in 0..many {
        let name = job.files.get(capture).as_str();
        match open_file(folder, name) {
            Ok(source) => sources.push_back_reserved(source),
            Err(fault) => {
                give_back_all(folder, sources);
                return Err(CapturesFault::at_opening(capture as u32, fault));
            }
        }
    }
    Ok(sources)
}

/// Reads the opened captures of a job, in the order of their numbers, and gives each back when it was
/// read. After the first that is not read, the others are given back as they are.
fn read_captures<F: Folder>(
    alloc: Global,
    job: &Job,
    mut sources: VecDeque<F::Src>,
    folder: &mut F,
    accepted: &mut LeanList,
    counts: &mut CountsList,
) -> Result<(), CapturesFault>
    requires opened { AreOpened (F.seen folder.old) (declared_of job.now).files (map F.Src.seen sources.items) }
    requires none { accepted.old.items ≡ [] }
    requires uncounted { counts.old.items ≡ [] }
    ensures stays { FolderStays (F.seen folder.old) (F.seen folder.new) }
    ensures ends { MatchResult result
        (λ _. GathersCaptures (declared_of job.now) (declared_of job.now).files (F.seen folder.old) (F.seen folder.new) accepted.new.items counts.new.items)
        (StopsCaptures (declared_of job.now).files (F.seen folder.old) (F.seen folder.new)) }
{
    let mut capture = 0;
    'captures: while let Some(source) = sources.pop_front() {
        match read_next(alloc, job, capture, source, folder, accepted, counts) {
            Ok(()) => {}
            Err(fault) => {
                give_back_all(folder, sources);
                return Err(CapturesFault::at_reading(capture, fault));
            }
        }
        capture += 1;
    }
    sources.destroy_empty();
    Ok(())
}

/// Reads the capture that has this number and puts its counts at the end.
fn read_next<F: Folder>(
    alloc: Global,
    job: &Job,
    capture: u32,
    source: F::Src,
    folder: &mut F,
    accepted: &mut LeanList,
    counts: &mut CountsList,
) -> Result<(), CaptureFault>
    requires fresh { IsFresh (F.Src.seen source) }
    requires capture { capture < length job.now.names.captures.items }
    ensures stays { FolderStays (F.seen folder.old) (F.seen folder.new) }
    ensures ends { MatchResult result
        (λ _. GathersNext (declared_of job.now) capture (F.Src.seen source) (F.seen folder.old).faults (F.seen folder.new).faults accepted.old.items accepted.new.items counts.old.items counts.new.items)
        (StopsRead (F.Src.seen source) (F.seen folder.old).faults (F.seen folder.new).faults) }
{
    let fared = read_and_give_back(alloc, job, capture, source, folder, accepted)?;
    match counts.push(fared) {
        Ok(()) => Ok(()),
        Err(_) => Err(CaptureFault::OutOfMemory),
    }
}

/// Reads the capture that has this number to its end and gives it back, however that ends.
fn read_and_give_back<F: Folder>(
    alloc: Global,
    job: &Job,
    capture: u32,
    mut source: F::Src,
    folder: &mut F,
    accepted: &mut LeanList,
) -> Result<Counts, CaptureFault>
    requires fresh { IsFresh (F.Src.seen source) }
    requires capture { capture < length job.now.names.captures.items }
    ensures stays { FolderStays (F.seen folder.old) (F.seen folder.new) }
    ensures ends { MatchResult result
        (GathersAll (declared_of job.now) capture (F.Src.seen source) (F.seen folder.old).faults (F.seen folder.new).faults accepted.old.items accepted.new.items)
        (StopsRead (F.Src.seen source) (F.seen folder.old).faults (F.seen folder.new).faults) }
{
    let fared = gather_capture(alloc, job, capture, &mut source, accepted);
    folder.give_back(source);
    fared
}

/// Gives back sources of which nothing was read.
pub fn give_back_all<F: Folder>(folder: &mut F, mut sources: VecDeque<F::Src>)
    requires fresh { AllByRecursion IsFresh (map F.Src.seen sources.items) }
    ensures stays { FolderStays (F.seen folder.old) (F.seen folder.new) }
    ensures quiet { (F.seen folder.new).faults ≡ (F.seen folder.old).faults }
{
    'sources: while let Some(source) = sources.pop_front() {
        folder.give_back(source);
    }
    sources.destroy_empty();
}
