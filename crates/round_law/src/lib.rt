//! Why a run over links with credits is never stuck, and why it ends, over plain numbers and lists: what a
//! node waits on, what each of its turns says, and laws about networks of such nodes. `laws` has them,
//! each a call that does nothing; nodes cite the definitions of specs/, and the pipeline the laws.
#![tactic(auto)]

mod laws;

pub use laws::{
    all_done_is_settled, done_is_settled, done_waits_on_nothing, each_clause_is_needed, frames_fit,
    joined_comes_through, kinds_are_few, looks_keep, moves_lower, new_is_sound, owes_within,
    quiet_is_done, round_goes_on, run_has_bound, some_round_is_still, start_is_sound, still_counts,
    still_is_done, turn_answers, views_stand,
};
