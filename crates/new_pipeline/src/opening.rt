//! All nodes of a new pipeline.
ghost use Rattle.std.specs.Prelude.{◌≡◌, ◌<◌, ◌≤◌, ℕ, [], All, IfOk, IfErr, length, map};
ghost use Rattle.ds_base.specs.Outside.{IsFresh};
ghost use Rattle.node_lists.specs.Dealing.{AreDealt};
ghost use Rattle.node_lists.specs.Lists.{HaveRoom, items_at};
ghost use Rattle.summary_spec.specs.Job.{declared_of};
ghost use Rattle.net_law.specs.Nets.{NetStands};
ghost use Rattle.node_layers.specs.Layers.{AreParserLinks, IsLayer, IsNewParser};
ghost use Rattle.new_pipeline.specs.Shapes.{IsWithin, counts_of};
ghost use Rattle.new_pipeline.specs.Opening.{IsNewOf, net_over, sources_of};
ghost use Rattle.new_pipeline.specs.Rooms.{IsRoom};

use crate::Shape;
use crate::layers::{Layers, new_layers};
use crate::room::{SourceRoom, gather_sources};
use credit_link::{LinkTxList, RingRx, RingTx};
use ds_base::{ItemList, OutOfMemory, Sink, Source, SourceList};
use node_layers::{GrouperList, ParserList, ProcessorList, parser_layer};
use node_lists::deal;
use result_merge::MergeNode;
use std::alloc::Global;
use summary_spec::Job;

/// All nodes of a new pipeline, and the room that closing them takes.
pub struct NewNodes<'a, S: Source, O: Sink> {
    pub parsers: ParserList<'a, S>,
    pub groupers: GrouperList<'a>,
    pub processors: ProcessorList<'a>,
    pub merge: MergeNode<'a, O, RingTx, RingRx>,
    pub room: SourceRoom<S>,
}

/// What comes back where a pipeline could not be opened for want of memory.
pub struct NotOpened<'a, S: Source, O: Sink> {
    pub sources: SourceList<S>,
    pub sink: &'a mut O,
}

/// The nodes of a pipeline of this shape over new links, which has read nothing and written nothing: capture c is read by
/// parser c modulo their number. There is a source for each capture of the job, in their order. It is refused for want of
/// memory alone, and then hands back the sources, in their order and with nothing read, and the sink.
pub fn open_nodes<'a, S: Source, O: Sink>(
    alloc: Global,
    job: &'a Job,
    shape: Shape,
    sources: SourceList<S>,
    sink: &'a mut O,
) -> Result<NewNodes<'a, S, O>, NotOpened<'a, S, O>>
    requires captures { length sources.items ≡ length (declared_of job.now).captures }
    requires fresh { All IsFresh (map S.seen sources.items) }
    requires shape { IsWithin shape }
    ensures new { IfOk result (λ made. IsNewOf (declared_of job.now) (counts_of shape) shape.credits (map S.seen sources.items) (O.seen sink.old) (net_over (declared_of job.now) (counts_of shape) shape.credits made.parsers.items made.groupers.items made.processors.items made.merge.merge)) }
    ensures stands { IfOk result (λ made. NetStands (net_over (declared_of job.now) (counts_of shape) shape.credits made.parsers.items made.groupers.items made.processors.items made.merge.merge)) }
    ensures lent { IfOk result (λ made. made.merge.lent ≡ sink.entry.ghost_name) }
    ensures room { IfOk result (λ made. IsRoom shape.parsers (length sources.items) made.room.lists.items made.room.gathered) }
    ensures refused { IfErr result (λ back. map S.seen back.sources.items ≡ map S.seen sources.items) }
    ensures returned { IfErr result (λ back. (back.sink.ghost_name ≡ sink.entry.ghost_name) × (O.seen back.sink.now ≡ O.seen sink.old)) }
{
    let Ok(layers) = new_layers(alloc, job, shape) else {
        return Err(NotOpened { sources, sink });
    };
    let Ok(empty) = new_rooms(alloc, shape.parsers, sources.len()) else {
        return Err(NotOpened { sources, sink });
    };
    let Layers {
        parser_outs,
        groupers,
        processors,
        merge_ins,
    } = layers;
    match MergeNode::new(alloc, job, shape.parsers, shape.credits, merge_ins, sink) {
        Ok(merge) => match fill(alloc, job, shape.groupers, sources, parser_outs, empty) {
            Ok(filled) => {
                let Filled { parsers, room } = filled;
                Ok(NewNodes {
                    parsers,
                    groupers,
                    processors,
                    merge,
                    room,
                })
            }
            Err(sources) => {
                let (links, sink) = merge.close();
                let _ = links;
                Err(NotOpened { sources, sink })
            }
        },
        Err(back) => {
            let (links, sink) = back;
            let _ = links;
            let Filled { parsers, room } = empty;
            parsers.destroy_empty();
            room.destroy();
            Err(NotOpened { sources, sink })
        }
    }
}

// Parsers, and the room for their sources.
struct Filled<'a, S: Source> {
    parsers: ParserList<'a, S>,
    room: SourceRoom<S>,
}

// Room for so many parsers, and for the sources of so many captures.
fn new_rooms<'a, S: Source>(
    alloc: Global,
    count: u32,
    captures: u64,
) -> Result<Filled<'a, S>, OutOfMemory>
    ensures none { IfOk result (λ made. made.parsers.items ≡ []) }
    ensures parsers { IfOk result (λ made. count ≤ made.parsers.spare) }
    ensures room { IfOk result (λ made. IsRoom count captures made.room.lists.items made.room.gathered) }
    ensures each { IfOk result (λ made. HaveRoom captures made.room.lists.items) }
{
    let room = SourceRoom::new(alloc, count, captures)?;
    let mut parsers = ItemList::new(alloc);
    match parsers.reserve(count as u64) {
        Ok(()) => Ok(Filled { parsers, room }),
        Err(_) => {
            parsers.destroy_empty();
            room.destroy();
            Err(OutOfMemory)
        }
    }
}

// Deals the sources out to new parsers. Where one is refused, all sources come back.
fn fill<'a, S: Source>(
    alloc: Global,
    job: &'a Job,
    groupers: u32,
    sources: SourceList<S>,
    outs: ItemList<LinkTxList<RingTx, RingRx>>,
    empty: Filled<'a, S>,
) -> Result<Filled<'a, S>, SourceList<S>>
    requires captures { length sources.items ≡ length (declared_of job.now).captures }
    requires fresh { All IsFresh (map S.seen sources.items) }
    requires parsers { (1 ≤ length outs.items) × (length outs.items ≤ 16) }
    requires groupers { (1 ≤ groupers) × (groupers ≤ 16) }
    requires links { (p : ℕ) → p < length outs.items → AreParserLinks groupers (items_at outs.items p) }
    requires none { (empty.parsers.items ≡ []) × (length outs.items ≤ empty.parsers.spare) }
    requires room { IsRoom (length outs.items) (length sources.items) empty.room.lists.items empty.room.gathered }
    requires each { HaveRoom (length sources.items) empty.room.lists.items }
    ensures made { IfOk result (λ made. IsLayer (length outs.items) (IsNewParser (declared_of job.now) (length outs.items) (sources_of made.parsers.items) outs.items) made.parsers.items) }
    ensures dealt { IfOk result (λ made. AreDealt (length outs.items) (map S.seen sources.items) (sources_of made.parsers.items)) }
    ensures room { IfOk result (λ made. IsRoom (length outs.items) (length sources.items) made.room.lists.items made.room.gathered) }
    ensures refused { IfErr result (λ back. map S.seen back.items ≡ map S.seen sources.items) }
{
    let captures = sources.len();
    let mut sources = sources;
    let Filled { mut parsers, room } = empty;
    let SourceRoom {
        mut lists,
        gathered,
    } = room;
    deal(&mut sources, &mut lists);
    sources.destroy_empty();
    match parser_layer(alloc, job, groupers, &mut lists, outs, &mut parsers) {
        Ok(()) => Ok(Filled {
            parsers,
            room: SourceRoom { lists, gathered },
        }),
        Err(_) => Err(gather_sources(parsers, SourceRoom { lists, gathered }, captures)),
    }
}
