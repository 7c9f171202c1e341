//! Whether a frame may stand on a link from a query processor to the merge behind those that came before
//! it, decided frame by frame, exactly by the rules of a run. The merge keeps a checker for each of its
//! processors. A checker keeps no frames but what the rules need, and takes no memory.
#![tactic(auto)]

mod answer_order;
mod numbers;
mod of_job;
mod row_pair;

pub use answer_order::AnswerOrder;
