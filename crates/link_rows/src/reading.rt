//! The rows of all links of a pipeline.
ghost use Rattle.std.specs.Prelude.{◌≡◌, ◌≤◌, [], true};
ghost use Rattle.round_law.specs.Waits.{IsDone};
ghost use Rattle.round_law.specs.Pipeline.{EachNode};
ghost use Rattle.net_law.specs.Rounds.{view};
ghost use Rattle.pipeline_law.specs.Rows.{link_count, rows_of};
ghost use Rattle.link_rows.specs.Reading.{AreLinked, pipeline_of};

use crate::pushing::{push_across, push_into};
use crate::run_rows::RunRows;
use credit_link::{LinkRows, NamedRx, NamedTx};
use ds_base::{ItemList, Sink, Source};
use grouper_node::GrouperNode;
use parser_node::ParserNode;
use query_node::QueryNode;
use result_merge::MergeNode;

/// The rows of all links of these nodes, put into a list that has room for them: one row a link, in the order of the
/// links' numbers. They are done where all these nodes are, which `done` says. It takes no memory.
pub fn read_rows<'a, S: Source, O: Sink, T: NamedTx, R: NamedRx>(
    parsers: &ItemList<ParserNode<'a, S, T, R>>,
    groupers: &ItemList<GrouperNode<'a, T, R>>,
    processors: &ItemList<QueryNode<'a, T, R>>,
    merge: &MergeNode<'a, O, T, R>,
    done: bool,
    room: LinkRows,
) -> RunRows
    requires linked { AreLinked (pipeline_of parsers.now.items groupers.now.items processors.now.items merge.now.merge) }
    requires done { done ≡ true → EachNode IsDone (view (pipeline_of parsers.now.items groupers.now.items processors.now.items merge.now.merge)) }
    requires none { room.items ≡ [] }
    requires room { link_count (pipeline_of parsers.now.items groupers.now.items processors.now.items merge.now.merge).shape ≤ room.spare }
    ensures rows { result.rows ≡ rows_of (pipeline_of parsers.now.items groupers.now.items processors.now.items merge.now.merge) }
    ensures done { result.done ≡ done }
{
    let mut rows = room;
    let groupers_from = parsers.len() as u32;
    let processors_from = groupers_from + groupers.len() as u32;
    let merge_at = processors_from + processors.len() as u32;
    push_across(parsers, groupers, 0, groupers_from, &mut rows);
    push_into(
        parsers,
        groupers.len() as u32,
        merge,
        0,
        0,
        merge_at,
        &mut rows,
    );
    push_across(
        groupers,
        processors,
        groupers_from,
        processors_from,
        &mut rows,
    );
    push_into(
        processors,
        0,
        merge,
        groupers_from,
        processors_from,
        merge_at,
        &mut rows,
    );
    RunRows { rows, done }
}
