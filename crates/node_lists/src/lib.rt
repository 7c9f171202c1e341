//! Lists of lists, one list for each node of a layer: items go behind those of one list, whole lists are
//! joined number by number, and items are dealt out to the lists in turn and gathered from them again.
//! Nothing here asks that an item may be dropped, unless it says so.
#![tactic(auto)]

mod append;
mod dealing;
mod lists;

pub use append::{append_items, append_lists, push_at};
pub use dealing::{deal, gather};
pub use lists::{destroy_lists, list_with_room, lists_with_room, put_list, take_list};
