//! Closing a pipeline.
ghost use Rattle.std.specs.Prelude.{◌≡◌, ◌<◌, ◌≤◌, ◌+◌, ◌*◌, ℕ, List, true, All, length, map, slice_index_or};
ghost use Rattle.credit_link.specs.declared.row.LinkRow.{LinkRow as RowSeen};
ghost use Rattle.run_law.specs.Laws.{accepted_between, captures_of};
ghost use Rattle.run_rounds.specs.Runs.{AllAreDone};
ghost use Rattle.pipeline_law.specs.Laws.{TellsFiles};
ghost use Rattle.pipeline_law.specs.RowLaws.{IsWhole};
ghost use Rattle.pipeline_law.specs.Rows.{AreNumbered, rows_of};
ghost use Rattle.pipeline_core.specs.Pipelines.{AreSourcesOf};

use crate::Pipeline;
use ds_base::{Sink, Source, SourceList};
use link_rows::{RunRows, read_rows};
use new_pipeline::gather_sources;
use pipeline_nodes::Nodes;

/// What is left of a pipeline.
pub struct Closed<'a, S: Source, O: Sink> {
    /// The sources of all captures, in their order.
    pub sources: SourceList<S>,
    /// The rows of all links.
    pub rows: RunRows,
    pub sink: &'a mut O,
}

impl<'a, S: Source, O: Sink> Pipeline<'a, S, O> {
    /// The sources, in the order of the captures, the rows of all links, in the order of the links' numbers, and the sink,
    /// as the run left them. The rows are done exactly where all nodes are; then as many frames were sent on each link as
    /// taken, and at least one. It takes no memory.
    pub fn close(self) -> Closed<'a, S, O>
        ensures sources { AreSourcesOf self.entry.net (map S.seen result.sources.items) }
        ensures rows { result.rows.rows ≡ rows_of self.entry.net }
        ensures numbered { AreNumbered self.entry.net result.rows.rows }
        ensures held { All (λ (row : RowSeen). row.most_held ≤ self.entry.net.credits) result.rows.rows }
        ensures done { result.rows.done ≡ true → AllAreDone self.entry.net }
        ensures not_done { AllAreDone self.entry.net → result.rows.done ≡ true }
        ensures whole { result.rows.done ≡ true → All IsWhole result.rows.rows }
        ensures bound { (files : List (List ℕ)) → TellsFiles self.entry.net files → result.rows.done ≡ true → (p g : ℕ) (d : RowSeen) → p < self.entry.net.shape.parsers → g < self.entry.net.shape.groupers → length (accepted_between self.entry.net.job files self.entry.net.shape p g) + length (captures_of self.entry.net.job self.entry.net.shape p) + 1 ≤ (slice_index_or result.rows.rows (p * self.entry.net.shape.groupers + g) d).sent }
        ensures sink { O.seen result.sink.now ≡ self.entry.net.merge.sink }
        ensures lent { result.sink.ghost_name ≡ self.entry.lent }
    {
        let Pipeline {
            nodes,
            room,
            captures,
            rows,
            first: _,
        } = self;
        let done = nodes.done();
        let Nodes {
            job: _,
            credits: _,
            parsers,
            groupers,
            processors,
            merge,
        } = nodes;
        let rows = read_rows(&parsers, &groupers, &processors, &merge, done, rows);
        let (links, sink) = merge.close();
        let _ = links;
        let sources = gather_sources(parsers, room, captures);
        Closed {
            sources,
            rows,
            sink,
        }
    }
}
