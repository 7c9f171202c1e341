//! What makes a pipeline right: what may stand on each link, what each node promises of what it took and
//! put, and what follows at every moment of every run, for any numbers of nodes. It has no code but
//! laws: calls that do nothing, whose contracts say what is true.
#![tactic(auto)]

mod laws;

pub use laws::{
    answers_to_come_are_later, done_has_written_report, grouper_keeps_on,
    groups_sent_are_front_of_shard, lines_follow_records, merge_keeps_on, no_sent_group_gains,
    nothing_is_held_back, processor_keeps_on, rows_of_done_links, run_without_records_ends,
    start_is_snapshot, written_is_front_of_report,
};
