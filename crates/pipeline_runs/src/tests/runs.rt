//! One run of a pipeline over captures in memory.
ghost use Rattle.std.specs.Prelude.{◌≡◌, ◌+◌, All, IfOk, OnOk, length, map};
ghost use Rattle.ds_base.specs.Outside.{IsFresh};
ghost use Rattle.new_pipeline.specs.Shapes.{IsWithin};

use ds_base::{
    Choice, Chooser, FileList, KeyList, ListChooser, MemSink, MemSource, Source, SourceList,
};
use pipeline_core::{Closed, NodeAt, NotOpened, Pipeline, RunRows, Shape};
use pipeline_run::run_here;
use std::alloc::Global;
use std::test::Fail;
use summary_spec::Job;

/// How a pipeline is run: its shape, the bytes of a read and of a write, the capture and number of a read that fails
/// and the number of a write that does; how many turns are chosen, from which seed, or all nodes in their order or backwards
/// with a cut of one byte, or one node alone; and whether rounds follow until all nodes are done.
#[derive(Clone, Copy)]
pub(super) struct Way {
    pub(super) shape: Shape,
    pub(super) read: u32,
    pub(super) write: u32,
    pub(super) failing_read: Option<(u32, u32)>,
    pub(super) failing_write: Option<u32>,
    pub(super) choices: u32,
    pub(super) seed: u64,
    pub(super) in_turn: bool,
    pub(super) backwards: bool,
    pub(super) only: Option<u32>,
    pub(super) to_the_end: bool,
}

/// Two nodes of each kind over links of 16 credits, and 100 turns that are chosen.
pub(super) const CALM: Way = Way {
    shape: Shape {
        parsers: 2,
        groupers: 2,
        processors: 2,
        credits: 16,
    },
    read: 4096,
    write: 4096,
    failing_read: None,
    failing_write: None,
    choices: 100,
    seed: 0,
    in_turn: false,
    backwards: false,
    only: None,
    to_the_end: true,
};

/// How a run ended.
#[derive(Clone, Copy, Debug, PartialEq, Eq)]
pub(super) enum Ended {
    /// All nodes are done.
    Done,
    /// All turns that were chosen were taken.
    Stopped,
    /// A node met a fault.
    Met(NodeAt),
}

/// What a run left: how it ended, what was written, whether on each link as many frames were sent as taken, at least
/// one, and no more held than its credits, and how many frames the first four links sent.
#[derive(Drop)]
pub(super) struct Left {
    pub(super) ended: Ended,
    pub(super) written: Vec<u8>,
    pub(super) settled: bool,
    pub(super) first_sent: [u64; 4],
}

/// A shape of these numbers, as far as they are in their limits.
pub(super) fn shape_of(parsers: u32, groupers: u32, processors: u32, credits: u32) -> Shape
    ensures { IsWithin result }
{
    Shape {
        parsers: parsers.clamp(1, 16),
        groupers: groupers.clamp(1, 16),
        processors: processors.clamp(1, 16),
        credits: credits.clamp(1, 1024),
    }
}

// The source of a capture.
fn source(alloc: Global, c: u32, bytes: &[u8], way: Way) -> Result<MemSource, Fail>
    ensures fresh { IfOk result (λ source. IsFresh (⟦<MemSource as Source>⟧.seen source)) }
{
    let mut failing = KeyList::new(alloc);
    if let Some((of, number)) = way.failing_read {
        if of == c && failing.push(number).is_err() {
            return Err(Fail::from("no memory"));
        }
    }
    Ok(MemSource::new(bytes.to_vec(alloc)?, way.read.max(1), failing))
}

// One source more.
fn add_source(sources: &mut SourceList<MemSource>, source: MemSource) -> Result<(), Fail>
    requires all { All IsFresh (map ⟦<MemSource as Source>⟧.seen sources.old.items) }
    requires one { IsFresh (⟦<MemSource as Source>⟧.seen source) }
    ensures fresh { OnOk result (All IsFresh (map ⟦<MemSource as Source>⟧.seen sources.new.items)) }
{
    let Ok(()) = sources.push(source) else {
        return Err(Fail::from("no memory"));
    };
    Ok(())
}

// The sources of all captures.
fn sources_of(alloc: Global, files: &FileList, way: Way) -> Result<SourceList<MemSource>, Fail>
    ensures fresh { IfOk result (λ sources. All IsFresh (map ⟦<MemSource as Source>⟧.seen sources.items)) }
{
    let mut sources = SourceList::new(alloc);
    'files: for c in 0..files.len() {
        let bytes = files.get(c).bytes.as_slice();
        let number = u32::try_from(c).unwrap_or(u32::MAX);
        let source = source(alloc, number, bytes, way)?;
        add_source(&mut sources, source)?;
    }
    Ok(sources)
}

// The number behind this one in a row that looks drawn (Knuth's MMIX generator); its upper bits are taken.
pub(super) fn draw(drawn: u64) -> u64 {
    drawn
        .wrapping_mul(6_364_136_223_846_793_005)
        .wrapping_add(1_442_695_040_888_963_407)
}

// The turns that are chosen.
fn choices(alloc: Global, way: Way) -> Result<ListChooser, Fail> {
    let shape = way.shape;
    let nodes = shape
        .parsers
        .saturating_add(shape.groupers)
        .saturating_add(shape.processors)
        .saturating_add(1);
    let mut chosen = Vec::new(alloc);
    let mut drawn = way.seed;
    for i in 0..way.choices {
        drawn = draw(drawn);
        let number = if way.in_turn {
            u64::from(i)
        } else {
            drawn >> 33
        };
        let cut = match (drawn >> 50) % 4 {
            _ if way.in_turn => 1,
            0 => 1,
            1 => 7,
            2 => 64,
            _ => 4096,
        };
        let drawn_node = (number % u64::from(nodes)) as u32;
        let node = match way.only {
            Some(only) => only,
            None if way.backwards => nodes.saturating_sub(1 + drawn_node),
            None => drawn_node,
        };
        chosen.push(Choice { node, cut })?;
    }
    Ok(ListChooser::new(chosen))
}

// The turns that are chosen, and those of rounds behind them.
fn turn_all<'a>(
    pipeline: &mut Pipeline<'a, MemSource, MemSink>,
    chooser: &mut ListChooser,
) -> Ended {
    match run_here(pipeline, chooser) {
        Ok(()) => Ended::Done,
        Err(at) => Ended::Met(at),
    }
}

// The turns that are chosen alone.
fn turn_some<'a>(
    pipeline: &mut Pipeline<'a, MemSource, MemSink>,
    chooser: &mut ListChooser,
    many: u32,
) -> Ended {
    for _ in 0..many {
        let Some(choice) = chooser.next() else {
            return Ended::Stopped;
        };
        if choice.node < pipeline.node_count() {
            if let Err(fault) = pipeline.turn(choice.node, choice.cut.max(1)) {
                return Ended::Met(NodeAt {
                    node: choice.node,
                    fault,
                });
            }
        }
    }
    Ended::Stopped
}

/// Runs a job over these captures.
pub(super) fn run(alloc: Global, job: &Job, files: &FileList, way: Way) -> Result<Left, Fail> {
    let mut failing = KeyList::new(alloc);
    if let Some(number) = way.failing_write {
        if failing.push(number).is_err() {
            return Err(Fail::from("no memory"));
        }
    }
    let sources = sources_of(alloc, files, way)?;
    let mut sink = MemSink::new(alloc, way.write.max(1), failing);
    let (ended, rows) = run_into(alloc, job, sources, &mut sink, way)?;
    Ok(Left {
        ended,
        written: sink.bytes().to_vec(alloc)?,
        settled: are_settled(&rows, way.shape.credits),
        first_sent: [
            sent(&rows, 0),
            sent(&rows, 1),
            sent(&rows, 2),
            sent(&rows, 3),
        ],
    })
}

fn run_into(
    alloc: Global,
    job: &Job,
    sources: SourceList<MemSource>,
    sink: &mut MemSink,
    way: Way,
) -> Result<(Ended, RunRows), Fail>
    requires { All IsFresh (map ⟦<MemSource as Source>⟧.seen sources.items) }
{
    if sources.len() != job.names.captures.len() as u64 {
        return Err(Fail::from("another number of captures"));
    }
    let mut chooser = choices(alloc, way)?;
    let shape = shape_of(
        way.shape.parsers,
        way.shape.groupers,
        way.shape.processors,
        way.shape.credits,
    );
    match Pipeline::open(alloc, job, shape, sources, sink) {
        Ok(opened) => {
            let mut pipeline = opened;
            let ended = if way.to_the_end {
                turn_all(&mut pipeline, &mut chooser)
            } else {
                turn_some(&mut pipeline, &mut chooser, way.choices)
            };
            let Closed {
                sources,
                rows,
                sink,
            } = pipeline.close();
            let _ = sources;
            let _ = sink;
            Ok((ended, rows))
        }
        Err(back) => {
            let NotOpened { sources, sink } = back;
            let _ = sources;
            let _ = sink;
            Err(Fail::from("no memory"))
        }
    }
}

// How many frames link `link` sent, or 0 where there is none.
fn sent(rows: &RunRows, link: u32) -> u64 {
    if link < rows.len() {
        rows.row(link).sent
    } else {
        0
    }
}

// Whether the run was done, and on each link as many frames were sent as taken.
fn are_settled(rows: &RunRows, credits: u32) -> bool {
    for link in 0..rows.len() {
        let row = rows.row(link);
        if row.sent == 0 || row.sent != row.taken || row.most_held > u64::from(credits) {
            return false;
        }
    }
    rows.done() && rows.len() > 0
}
