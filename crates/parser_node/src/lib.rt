//! A parser of a pipeline: the turns in which it reads its captures, takes up their records and sends what they are
//! due to the groupers and the merge; and the loan by which its links are shown their rings.
#![tactic(auto)]

mod lending;
mod node;
mod passes;
mod turn;

pub use node::ParserNode;
