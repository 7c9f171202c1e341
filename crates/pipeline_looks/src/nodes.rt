//! The looks at all links into a grouper, a query processor and the merge.
ghost use Rattle.std.specs.Prelude.{◌≡◌, ◌<◌, ◌+◌, ℕ, length, slice_index_or};
ghost use Rattle.net_law.specs.Ends.{tx_at, rx_at};
ghost use Rattle.net_law.specs.Parsers.{ParserSeen};
ghost use Rattle.net_law.specs.Groupers.{GrouperSeen, GrouperStands};
ghost use Rattle.net_law.specs.Processors.{ProcessorSeen, ProcessorStands};
ghost use Rattle.net_law.specs.Merges.{MergeStands};
ghost use Rattle.net_law.specs.Steps.{AreLooked, ParserLooked, GrouperLooked, ProcessorLooked, MergeLooked};
ghost use Rattle.pipeline_looks.specs.Links.{AreOnRings, OthersStay};

use crate::links::look_at_links;
use credit_link::{RingRx, RingTx};
use ds_base::{ItemList, Sink, Source};
use grouper_node::GrouperNode;
use parser_node::ParserNode;
use query_node::QueryNode;
use result_merge::MergeNode;

/// Looks at all links into the grouper of number `g`, whose links in are those of the parsers in their order.
pub fn look_at_grouper<'a, S: Source>(
    grouper: &mut GrouperNode<'a, RingTx, RingRx>,
    g: u32,
    parsers: &mut ItemList<ParserNode<'a, S, RingTx, RingRx>>,
)
    requires stands { GrouperStands grouper.old }
    requires ins { length grouper.old.ins ≡ length parsers.old.items }
    requires outs { (p : ℕ) (d : ParserSeen) → p < length parsers.old.items → g < length (slice_index_or parsers.old.items p d).outs.links }
    requires ends { (p : ℕ) (d : ParserSeen) → p < length parsers.old.items → AreOnRings grouper.old.credits (tx_at (slice_index_or parsers.old.items p d).outs.links g) (rx_at grouper.old.ins p) }
    ensures looks { GrouperLooked grouper.old grouper.new }
    ensures as_many { length parsers.new.items ≡ length parsers.old.items }
    ensures senders { (p : ℕ) (d : ParserSeen) → p < length parsers.old.items → ParserLooked (slice_index_or parsers.old.items p d) (slice_index_or parsers.new.items p d) }
    ensures beside { (p : ℕ) (d : ParserSeen) → p < length parsers.old.items → OthersStay g (slice_index_or parsers.old.items p d).outs (slice_index_or parsers.new.items p d).outs }
    ensures looked { (p : ℕ) (d : ParserSeen) → p < length parsers.old.items → AreLooked grouper.old.credits (tx_at (slice_index_or parsers.new.items p d).outs.links g) (rx_at grouper.new.ins p) }
{
    look_at_links(grouper, 0, parsers, g);
}

/// Looks at all links into the query processor of number `q`, whose links in are those of the groupers in their order.
pub fn look_at_processor<'a>(
    processor: &mut QueryNode<'a, RingTx, RingRx>,
    q: u32,
    groupers: &mut ItemList<GrouperNode<'a, RingTx, RingRx>>,
)
    requires stands { ProcessorStands processor.old }
    requires ins { length processor.old.ins ≡ length groupers.old.items }
    requires outs { (g : ℕ) (d : GrouperSeen) → g < length groupers.old.items → q < length (slice_index_or groupers.old.items g d).outs.links }
    requires ends { (g : ℕ) (d : GrouperSeen) → g < length groupers.old.items → AreOnRings processor.old.credits (tx_at (slice_index_or groupers.old.items g d).outs.links q) (rx_at processor.old.ins g) }
    ensures looks { ProcessorLooked processor.old processor.new }
    ensures as_many { length groupers.new.items ≡ length groupers.old.items }
    ensures senders { (g : ℕ) (d : GrouperSeen) → g < length groupers.old.items → GrouperLooked (slice_index_or groupers.old.items g d) (slice_index_or groupers.new.items g d) }
    ensures beside { (g : ℕ) (d : GrouperSeen) → g < length groupers.old.items → OthersStay q (slice_index_or groupers.old.items g d).outs (slice_index_or groupers.new.items g d).outs }
    ensures ins_stay { (g : ℕ) (d : GrouperSeen) → g < length groupers.old.items → (slice_index_or groupers.new.items g d).ins ≡ (slice_index_or groupers.old.items g d).ins }
    ensures looked { (g : ℕ) (d : GrouperSeen) → g < length groupers.old.items → AreLooked processor.old.credits (tx_at (slice_index_or groupers.new.items g d).outs.links q) (rx_at processor.new.ins g) }
{
    look_at_links(processor, 0, groupers, q);
}

/// Looks at all links into the merge: those of the parsers in their order, whose links out of number `groupers` they are,
/// and behind them those of the query processors.
pub fn look_at_merge<'a, S: Source, O: Sink>(
    merge: &mut MergeNode<'a, O, RingTx, RingRx>,
    groupers: u32,
    parsers: &mut ItemList<ParserNode<'a, S, RingTx, RingRx>>,
    processors: &mut ItemList<QueryNode<'a, RingTx, RingRx>>,
)
    requires stands { MergeStands merge.old.merge }
    requires ins { length merge.old.merge.ins ≡ length parsers.old.items + length processors.old.items }
    requires parser_outs { (p : ℕ) (d : ParserSeen) → p < length parsers.old.items → groupers < length (slice_index_or parsers.old.items p d).outs.links }
    requires processor_outs { (q : ℕ) (d : ProcessorSeen) → q < length processors.old.items → 0 < length (slice_index_or processors.old.items q d).outs.links }
    requires parser_ends { (p : ℕ) (d : ParserSeen) → p < length parsers.old.items → AreOnRings merge.old.merge.credits (tx_at (slice_index_or parsers.old.items p d).outs.links groupers) (rx_at merge.old.merge.ins p) }
    requires processor_ends { (q : ℕ) (d : ProcessorSeen) → q < length processors.old.items → AreOnRings merge.old.merge.credits (tx_at (slice_index_or processors.old.items q d).outs.links 0) (rx_at merge.old.merge.ins (length parsers.old.items + q)) }
    ensures looks { MergeLooked merge.old.merge merge.new.merge }
    ensures lent { merge.new.lent ≡ merge.old.lent }
    ensures as_many { (length parsers.new.items ≡ length parsers.old.items) × (length processors.new.items ≡ length processors.old.items) }
    ensures parsers { (p : ℕ) (d : ParserSeen) → p < length parsers.old.items → ParserLooked (slice_index_or parsers.old.items p d) (slice_index_or parsers.new.items p d) }
    ensures processors { (q : ℕ) (d : ProcessorSeen) → q < length processors.old.items → ProcessorLooked (slice_index_or processors.old.items q d) (slice_index_or processors.new.items q d) }
    ensures beside { (p : ℕ) (d : ParserSeen) → p < length parsers.old.items → OthersStay groupers (slice_index_or parsers.old.items p d).outs (slice_index_or parsers.new.items p d).outs }
    ensures ins_stay { (q : ℕ) (d : ProcessorSeen) → q < length processors.old.items → (slice_index_or processors.new.items q d).ins ≡ (slice_index_or processors.old.items q d).ins }
    ensures counts_looked { (p : ℕ) (d : ParserSeen) → p < length parsers.old.items → AreLooked merge.old.merge.credits (tx_at (slice_index_or parsers.new.items p d).outs.links groupers) (rx_at merge.new.merge.ins p) }
    ensures answers_looked { (q : ℕ) (d : ProcessorSeen) → q < length processors.old.items → AreLooked merge.old.merge.credits (tx_at (slice_index_or processors.new.items q d).outs.links 0) (rx_at merge.new.merge.ins (length parsers.old.items + q)) }
{
    let count = parsers.len() as u32;
    look_at_links(merge, 0, parsers, groupers);
    look_at_links(merge, count, processors, 0);
}
