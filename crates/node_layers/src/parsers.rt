//! The layer of parsers.
ghost use Rattle.std.specs.Prelude.{◌≡◌, ◌<◌, ◌≤◌, ◌+◌, ◌++◌, ◌∷◌, ℕ, [], All, IfOk, IfErr, OnOk, OnErr, length, map};
ghost use Rattle.ds_base.specs.Outside.{IsFresh};
ghost use Rattle.node_lists.specs.Lists.{SetsAt, items_at};
ghost use Rattle.node_lists.specs.Dealing.{AreCounted};
ghost use Rattle.summary_spec.specs.Job.{declared_of};
ghost use Rattle.net_law.specs.Starts.{IsNewTx, AreOwn, new_parser};
ghost use Rattle.net_law.specs.Ends.{tx_at};
ghost use Rattle.net_law.specs.Parsers.{ParserStands};
ghost use Rattle.node_layers.specs.Layers.{AreParserLinks, HaveTaken, IsLayer, IsNewParser, PutsBack};

use credit_link::{LinkTxList, RingRx, RingTx};
use ds_base::{ItemList, OutOfMemory, Source, SourceList};
use node_lists::{put_list, take_list};
use parser_node::ParserNode;
use shuffle_poll::Shuffle;
use std::alloc::Global;
use summary_spec::Job;

/// The parsers of a pipeline over rings, in the order of their numbers.
pub type ParserList<'a, S> = ItemList<ParserNode<'a, S, RingTx, RingRx>>;

/// A new parser for each list of sources and list of new links of one number, put into a list that has room for them.
/// It is refused for want of memory alone; then the sources of those that were made are with them, and the others
/// where they were.
pub fn parser_layer<'a, S: Source>(
    alloc: Global,
    job: &'a Job,
    groupers: u32,
    sources: &mut ItemList<SourceList<S>>,
    outs: ItemList<LinkTxList<RingTx, RingRx>>,
    layer: &mut ParserList<'a, S>,
) -> Result<(), OutOfMemory>
    requires as_many { (length outs.items ≡ length sources.old.items) × (length outs.items ≤ 16) }
    requires groupers { (1 ≤ groupers) × (groupers ≤ 16) }
    requires captures { AreCounted (length outs.items) (length (declared_of job.now).captures) (items_at sources.old.items) }
    requires fresh { (p : ℕ) → All IsFresh (map S.seen (items_at sources.old.items p)) }
    requires links { (p : ℕ) → p < length outs.items → AreParserLinks groupers (items_at outs.items p) }
    requires room { (layer.old.items ≡ []) × (length outs.items ≤ layer.old.spare) }
    ensures made { OnOk result (IsLayer (length outs.items) (IsNewParser (declared_of job.now) (length outs.items) (λ p. map S.seen (items_at sources.old.items p)) outs.items) layer.new.items) }
    ensures taken { OnOk result ((p : ℕ) → items_at sources.new.items p ≡ []) }
    ensures refused { OnErr result (HaveTaken S.seen sources.old.items sources.new.items layer.new.items) }
    ensures long { length sources.new.items ≡ length sources.old.items }
    ensures few { length layer.new.items ≤ length outs.items }
{
    let mut outs = outs;
    let count = outs.len() as u32;
    for p in 0..count {
        let own = take_list(alloc, sources, p as u64);
        let links = take_list(alloc, &mut outs, p as u64);
        match parser_over(alloc, job, p, count, groupers, own, links) {
            Ok(node) => put_parser(layer, node),
            Err(own) => {
                put_list(sources, p as u64, own);
                return Err(OutOfMemory);
            }
        }
    }
    Ok(())
}

// One parser; where it is refused its sources come back.
fn parser_over<'a, S: Source>(
    alloc: Global,
    job: &'a Job,
    me: u32,
    parsers: u32,
    groupers: u32,
    sources: SourceList<S>,
    links: LinkTxList<RingTx, RingRx>,
) -> Result<ParserNode<'a, S, RingTx, RingRx>, SourceList<S>>
    requires place { (me < parsers) × (parsers ≤ 16) }
    requires groupers { (1 ≤ groupers) × (groupers ≤ 16) }
    requires own { AreOwn (new_parser (declared_of job.now) me parsers 0 (map S.seen sources.items) []) }
    requires fresh { All IsFresh (map S.seen sources.items) }
    requires links { AreParserLinks groupers links.items }
    ensures made { IfOk result (λ node. node ≡ new_parser (declared_of job.now) me parsers (tx_at links.items 0).credits (map S.seen sources.items) links.items) }
    ensures stands { IfOk result (λ node. ParserStands node) }
    ensures refused { IfErr result (λ back. back ≡ sources) }
{
    let Ok(out) = Shuffle::new(alloc, links) else {
        return Err(sources);
    };
    match ParserNode::new(alloc, job, me, parsers, groupers, sources, out) {
        Ok(node) => Ok(node),
        Err((back, _)) => Err(back),
    }
}

// Puts a parser into a list that has room for it.
fn put_parser<'a, S: Source>(layer: &mut ParserList<'a, S>, node: ParserNode<'a, S, RingTx, RingRx>)
    requires { 0 < layer.old.spare }
    ensures put { layer.new.items ≡ layer.old.items ++ node.entry ∷ [] }
    ensures spare { layer.old.spare ≤ layer.new.spare + 1 }
{
    match layer.push(node) {
        Ok(()) => {}
        Err(_) => unreachable!(),
    }
}

/// Closes all parsers, and puts their sources into the lists of their numbers, which have none.
pub fn close_parsers<S: Source>(
    layer: &mut ParserList<'_, S>,
    sources: &mut ItemList<SourceList<S>>,
)
    requires there { length layer.old.items ≤ length sources.old.items }
    requires none { (p : ℕ) → p < length layer.old.items → items_at sources.old.items p ≡ [] }
    ensures back { PutsBack S.seen layer.old.items sources.old.items sources.new.items }
    ensures closed { layer.new.items ≡ [] }
    ensures spare { layer.old.spare ≤ layer.new.spare }
{
    while let Some(node) = layer.pop() {
        let (own, links) = node.close();
        let _ = links;
        put_list(sources, layer.len(), own);
    }
}
