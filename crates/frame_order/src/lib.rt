//! Whether a frame may stand on a link behind those that came before it, decided frame by frame, exactly by
//! the rules of a run. There is a checker for the links from parsers to groupers, from groupers to
//! processors, and from parsers to the merge; a receiving node keeps one for each link in. A checker keeps
//! no frames but what the rules need, and takes no memory.
#![tactic(auto)]

mod counts_order;
mod group_order;
mod item_link;
mod item_order;
mod numbers;
mod of_job;
mod open_group;
mod slots;

pub use counts_order::CountsOrder;
pub use group_order::GroupOrder;
pub use item_link::ItemLink;
pub use item_order::ItemOrder;
