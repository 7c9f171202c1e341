//! A run in turns, and what holds after each of them.
use super::frames::Kind::{Answers, Counts, Groups, Items};
use super::frames::{Kind, Sent, Shape, are_lawful, on};
use super::merge::lines;
use super::nodes::{answered, grouped, parsed};
use ds_base::Text;
use node_frames::Frame;
use query_lang::Names;
use std::alloc::Global;
use std::test::Fail;
use summary_spec::Job;

/// A run so far: what the parsers have to put; what was put on links and what was taken, by all nodes in the order of their turns, and what was
/// written.
#[derive(Drop)]
pub(super) struct Run {
    alloc: Global,
    shape: Shape,
    script: Vec<Sent>,
    put: Vec<Sent>,
    taken: Vec<Sent>,
    written: Text,
}

impl Run {
    /// The start of a run over captures, of each of which a parser puts this.
    pub(super) fn new(alloc: Global, shape: Shape, streams: &[Vec<Frame>]) -> Result<Run, Fail> {
        let script = parsed(alloc, streams, shape)?;
        Ok(Run {
            alloc,
            shape,
            script,
            put: Vec::new(alloc),
            taken: Vec::new(alloc),
            written: Text::new(alloc),
        })
    }

    /// A turn of the node that puts on links of this kind and has this number, if there is one, and for Counts of the
    /// merge. It takes at most so many frames of each link and puts at most so many: whether all holds then.
    pub(super) fn turn(
        &mut self,
        job: &Job,
        report: &str,
        kind: Kind,
        number: u32,
        many: usize,
    ) -> Result<bool, Fail> {
        if kind == Counts {
            self.take_all(Counts, 0, many)?;
            self.take_all(Answers, 0, many)?;
            return self.write(&job.names, report);
        }
        if number >= self.shape.putters(kind) {
            return Ok(true);
        }
        let due = self.due(job, kind, number, many)?;
        let sent = self.of(&self.put, kind, number)?;
        if !due.as_slice().starts_with(&sent) {
            return Ok(false);
        }
        for (i, entry) in due.iter().enumerate() {
            if i >= sent.len() && i - sent.len() < many {
                self.put.push(*entry)?;
            }
        }
        Ok(
            self.links_keep(job, kind, number)?
                && (kind != Items || self.links_keep(job, Counts, number)?),
        )
    }

    // What the node has to put so far.
    fn due(&mut self, job: &Job, kind: Kind, number: u32, many: usize) -> Result<Vec<Sent>, Fail> {
        match kind {
            Groups => {
                self.take_all(Items, number, many)?;
                grouped(self.alloc, job.window, self.shape, number, &self.taken)
            }
            Answers => {
                self.take_all(Groups, number, many)?;
                answered(self.alloc, job, self.shape, number, &self.taken)
            }
            _ => self.of(&self.script, Items, number),
        }
    }

    // Takes so many frames of each link of a kind to a node, or all that there are.
    fn take_all(&mut self, kind: Kind, to: u32, many: usize) -> Result<(), Fail> {
        for from in 0..self.shape.putters(kind) {
            let link = (kind, from, to);
            let put = on(self.alloc, &self.put, link)?;
            let before = on(self.alloc, &self.taken, link)?.len();
            for (i, frame) in put.iter().enumerate() {
                if i >= before && i - before < many {
                    self.taken.push((link, *frame))?;
                }
            }
        }
        Ok(())
    }

    // Of these frames those of a node, of a parser on links of both kinds.
    fn of(&self, sent: &[Sent], kind: Kind, number: u32) -> Result<Vec<Sent>, Fail> {
        let mut found = Vec::new(self.alloc);
        for entry in sent {
            let (of, from, _) = entry.0;
            if from == number && (of == kind || (kind == Items && of == Counts)) {
                found.push(*entry)?;
            }
        }
        Ok(found)
    }

    // The merge writes what may be written: what was written begins that, which begins the report.
    fn write(&mut self, names: &Names, report: &str) -> Result<bool, Fail> {
        let text = lines(self.alloc, names, self.shape, &self.taken)?;
        let goes_on = text.as_str().starts_with(self.written.as_str());
        let is_front = report.starts_with(text.as_str());
        self.written = text;
        Ok(goes_on && is_front)
    }

    // What the node put on each of its links is lawful, and what was taken of that is a front of it.
    fn links_keep(&self, job: &Job, kind: Kind, from: u32) -> Result<bool, Fail> {
        for to in 0..self.shape.takers(kind) {
            let put = on(self.alloc, &self.put, (kind, from, to))?;
            let taken = on(self.alloc, &self.taken, (kind, from, to))?;
            if !are_lawful(job, self.shape, (kind, from, to), &put)
                || !put.as_slice().starts_with(&taken)
            {
                return Ok(false);
            }
        }
        Ok(true)
    }

    /// Whether the run has come to its end: all was taken, and the report is written.
    pub(super) fn is_done(&self, report: &str) -> bool {
        self.taken.len() == self.put.len() && self.written.as_str() == report
    }
}
