//! A run of a merge to its end or to its fault, of which each turn is watched.
ghost use Rattle.std.specs.Prelude.{◌≡◌, ◌<◌, All, length};
ghost use Rattle.net_law.specs.Starts.{IsNewRx};

use crate::captures::Plain;
use crate::draws::{cut_of, draw};
use crate::due::{Due, length_of_lines};
use crate::feeders::{Feeders, Ins};
use crate::sinks::{Watch, WatchedSink};
use credit_link::{NodeFault, RingRx, RingTx, Turn};
use node_frames::Frame;
use result_merge::MergeNode;
use std::alloc::Global;
use std::test::Fail;
use summary_spec::Job;

/// What a turn tells.
pub(crate) type Told = Result<Turn, NodeFault>;

/// A merge over so many links.
#[derive(Drop)]
struct Merge<'a, 'w> {
    node: MergeNode<'a, WatchedSink<'w>, RingTx, RingRx>,
    links: u32,
    ghost count: { links ≡ length node.merge.ins },
}

impl<'a, 'w> Merge<'a, 'w> {
    /// A new merge over links from so many parsers and from processors.
    fn new(
        alloc: Global,
        job: &'a Job,
        parsers: u32,
        ins: Ins,
        sink: &'a mut WatchedSink<'w>,
    ) -> Result<Merge<'a, 'w>, Fail>
        requires { All (IsNewRx 2) ins.items }
    {
        let count = ins.len();
        let first = u64::from(parsers);
        if first < 1 || first > 16 || count <= first || count > first + 16 {
            return Err(Fail::from("no such merge"));
        }
        let links = count as u32;
        match MergeNode::new(alloc, job, parsers, 2, ins, sink) {
            Ok(node) => Ok(Merge { node, links }),
            Err(_) => Err(Fail::from("no memory")),
        }
    }

    fn turn(&mut self, cut: u32) -> Told
        requires { 0 < cut }
    {
        self.node.turn(cut)
    }

    /// How many frames were taken off a link.
    fn taken(&self, link: u32) -> u64 {
        if link >= self.links {
            return 0;
        }
        self.node.taken(link)
    }

    /// How many lines of the report what was taken allows.
    fn lines_due(&self, feeders: &Feeders) -> usize {
        let mut due = Due::new();
        let mut link = 0u32;
        for feeder in &feeders.links {
            let taken = self.taken(link);
            if link < feeders.parsers {
                due.add_counts(&feeder.script, taken);
            } else {
                due.add_answers(&feeder.script, taken);
            }
            link = link.saturating_add(1);
        }
        due.lines()
    }
}

/// How a run ended: what was told, and by the turn behind that; how many bytes of the report were written; and behind how
/// many idle turns some lines were due and others were not.
#[derive(Clone, Copy)]
pub(crate) struct End {
    pub(crate) told: Told,
    pub(crate) again: Told,
    pub(crate) written: Option<usize>,
    pub(crate) early: u32,
}

/// How a merge is fed and its sink writes: the seed, how many bytes a write takes, and which one fails.
#[derive(Clone, Copy)]
pub(crate) struct Way {
    pub(crate) seed: u64,
    pub(crate) piece: u32,
    pub(crate) failing: Option<u32>,
}

/// A run over these scripts, those of so many parsers first.
pub(crate) fn run(
    alloc: Global,
    plain: &Plain,
    parsers: u32,
    scripts: Vec<Vec<Frame>>,
    way: Way,
) -> Result<End, Fail> {
    let report = plain.report.as_str();
    let watch = Watch::new(None);
    let mut sink = WatchedSink::new(alloc, report, way.piece, way.failing, &watch)?;
    let mut feeders = Feeders::new(alloc, parsers);
    let ins = feeders.links_in(alloc, scripts)?;
    let mut merge = Merge::new(alloc, &plain.job, parsers, ins, &mut sink)?;
    turn_to_end(&mut merge, &mut feeders, report, &watch, way.seed)
}

// Turns a merge until it is done or meets a fault.
fn turn_to_end(
    merge: &mut Merge<'_, '_>,
    feeders: &mut Feeders,
    report: &str,
    watch: &Watch,
    seed: u64,
) -> Result<End, Fail> {
    let mut drawn = seed;
    let mut early = 0u32;
    for _ in 0..100_000 {
        drawn = draw(drawn);
        let cut = cut_of(drawn);
        feeders.feed(drawn, cut);
        let told = merge.turn(cut);
        let due = length_of_lines(report, merge.lines_due(feeders));
        if !may_be_written(&told, watch.get(), due) {
            return Err(Fail::from("other lines than those that are due"));
        }
        match told {
            Ok(Turn::Moved) => {}
            Ok(Turn::Idle) => {
                if due > 0 && due < report.len() {
                    early = early.saturating_add(1);
                }
            }
            _ => {
                let again = merge.turn(cut);
                return Ok(End {
                    told,
                    again,
                    written: watch.get(),
                    early,
                });
            }
        }
    }
    Err(Fail::from("the merge goes on"))
}

// Whether behind a turn that told this so much may be written of what is due: a front, and behind an idle turn all.
fn may_be_written(told: &Told, written: Option<usize>, due: usize) -> bool {
    let Some(written) = written else {
        return false;
    };
    match told {
        Ok(Turn::Idle) => written == due,
        _ => written <= due,
    }
}
