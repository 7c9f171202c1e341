//! How the records of one capture fare: none, late or accepted.
ghost use Rattle.std.specs.Prelude.{◌≡◌, ◌≤◌, ◌<◌, ◌+◌, ◌∷◌, ◌++◌, [], ◌^◌, ℕ, List, Some, length, max, option_to_list, unsigned_abs, IfSome};
ghost use Rattle.std.proofs.Props.{props};
ghost use Rattle.ds_base.specs.Times.{hour};
ghost use Rattle.pcap_reader.specs.Captured.{Captured};
ghost use Rattle.pcap_reader.specs.Lent.{captured, IsLawful};
ghost use Rattle.summary_spec.specs.Declaration.{Declared};
ghost use Rattle.summary_spec.specs.Job.{declared_of};
ghost use Rattle.key_select.specs.Fates.{accepted_after, counts_of};
ghost use Rattle.key_select.specs.Late.{mark_of};

use crate::late::is_late;
use crate::summary::select_at;
use crate::time::{moved, offset_of, skew_of};
use ds_base::{Counts, Summary};
use pcap_reader::RecordRef;
use summary_spec::Job;

/// How the records of one capture fared so far. They are taken up in their order.
#[derive(Debug, Drop)]
pub struct Tally {
    /// The capture's number in the job.
    capture: u32,
    /// The capture's offset by the job, in nanoseconds.
    offset: i64,
    /// The capture's skew by the job, in nanoseconds.
    skew: u64,
    /// How many records there were.
    records: u64,
    /// How many of them give no summary.
    unmatched: u64,
    /// How many others came too late.
    late: u64,
    /// How many others there were, whose summaries are accepted.
    accepted: u64,
    /// The greatest adjusted time of a record, in nanoseconds since 1970.
    newest: Option<u64>,
    ghost near: { unsigned_abs offset ≤ hour },
    ghost short: { skew ≤ hour },
    ghost few: { unmatched + late + accepted ≤ records },
    ghost early: { IfSome newest (λ n. n < 2 ^ 63) } by { Prim.hlevel props },
}

impl Tally {
    ghost use Rattle.key_select.specs.Tally.{Tallies, capture_of, newest_of, records_taken, Passes};

    /// No record of this capture of the job, whose offset and skew the tally keeps.
    pub fn new(job: &Job, capture: u32) -> Self
        requires { capture < length job.now.names.captures.items }
        ensures tallies { Tallies (declared_of job.now) capture result [] }
        ensures capture { capture_of result ≡ capture }
        ensures records { records_taken result ≡ 0 }
    {
        Tally {
            capture,
            offset: offset_of(job, capture),
            skew: skew_of(job, capture),
            records: 0,
            unmatched: 0,
            late: 0,
            accepted: 0,
            newest: None,
        }
    }

    /// Takes the next record up, and gives its summary where that is accepted. The job is that of `new`.
    /// It takes no memory.
    pub fn take_up(&mut self, job: &Job, r: &RecordRef<'_>) -> Option<Summary>
        requires capture { capture_of self.old < length job.now.names.captures.items }
        requires lawful { IsLawful (captured r.now) }
        requires few { records_taken self.old < 2 ^ 63 }
        ensures tallies { (capture : ℕ) (taken : List Captured) →
            Tallies (declared_of job.now) capture self.old taken → Tallies (declared_of job.now) capture self.new (taken ++ captured r.now ∷ []) }
        ensures accepted { (capture : ℕ) (taken : List Captured) → Tallies (declared_of job.now) capture self.old taken →
            option_to_list result ≡ accepted_after (declared_of job.now) capture taken (captured r.now ∷ []) }
        ensures capture { capture_of self.new ≡ capture_of self.old }
        ensures records { records_taken self.new ≡ records_taken self.old + 1 }
    {
        let time = moved(self.offset, r.time);
        let late = is_late(time, self.skew, self.newest);
        let found = select_at(job, self.capture, time, r);
        self.pass(time);
        let Some(summary) = found else {
            self.unmatched += 1;
            return None;
        };
        if late {
            self.late += 1;
            return None;
        }
        self.accepted += 1;
        Some(summary)
    }

    /// The greatest adjusted time of the records that were taken up, in nanoseconds since 1970. None:
    /// there was none.
    pub fn newest(&self) -> Option<u64>
        ensures { result ≡ newest_of self.now }
    {
        self.newest
    }

    /// The greatest adjusted time of these records less the capture's skew, never below 0, and 0 where there was
    /// none: no record that is accepted later has an earlier time.
    pub fn mark(&self) -> u64
        ensures mark { (job : Declared) (capture : ℕ) (taken : List Captured) → Tallies job capture self.now taken → result ≡ mark_of job capture taken }
        ensures early { result < 2 ^ 63 }
    {
        match self.newest {
            None => 0,
            Some(newest) => newest.saturating_sub(self.skew),
        }
    }

    /// How the records fared; `cut` says whether the file ends inside a record.
    pub fn counts(&self, cut: bool) -> Counts
        ensures { (job : Declared) (capture : ℕ) (taken : List Captured) → Tallies job capture self.now taken → result ≡ counts_of job capture taken cut }
    {
        Counts {
            records: self.records,
            unmatched: self.unmatched,
            late: self.late,
            accepted: self.accepted,
            cut,
        }
    }

    /// Counts a record of this time, whatever becomes of it.
    fn pass(&mut self, time: u64)
        requires early { time < 2 ^ 63 }
        requires few { records_taken self.old < 2 ^ 63 }
        ensures { Passes time self.old self.new }
    {
        self.records += 1;
        self.newest = Some(match self.newest {
            None => time,
            Some(newest) => newest.max(time),
        });
    }
}
