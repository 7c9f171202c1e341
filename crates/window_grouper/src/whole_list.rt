//! The groups of a whole list at once: the plain program beside `OpenGroups`.

ghost use Rattle.std.specs.Prelude.{◌≡◌, IfOk, map};
ghost use Rattle.ds_base.specs.Copies.{copies_of};
ghost use Rattle.ds_base.specs.Order.{InStampOrder};
ghost use Rattle.window_grouper.specs.Groups.{IsGroups, groups_of};

use crate::open_groups::OpenGroups;
use ds_base::{GroupList, OutOfMemory, SummaryList};
use std::alloc::Global;

/// The groups of a list in stamp order (`is_in_stamp_order` tests it): for each key the cut of its
/// summaries by `window` nanoseconds, so that a member's time is at most its group's first time plus
/// the window, and a summary behind it begins the next group. They stand in the order of their firsts'
/// stamps. The only refusal is want of memory.
///
/// It goes over the list once, copies each summary once, and takes time in the number of summaries
/// times the logarithm of the number of keys, whatever the keys are.
pub fn central(alloc: Global, list: &SummaryList, window: u64) -> Result<GroupList, OutOfMemory>
    requires { InStampOrder list.now.items }
    ensures groups { IfOk result (λ groups. IsGroups window list.now.items (map copies_of groups.items)) }
    ensures exact { IfOk result (λ groups. map copies_of groups.items ≡ groups_of window list.now.items) }
{
    let mut placed = OpenGroups::new(alloc, window);
    for i in 0..list.len() {
        placed.place(list.get(i))?;
    }
    all_of(alloc, placed)
}

/// All groups that are held. The only refusal is want of memory.
fn all_of(alloc: Global, mut placed: OpenGroups) -> Result<GroupList, OutOfMemory>
    ensures { IfOk result (λ groups. map copies_of groups.items ≡ placed.held) }
{
    let mut groups = GroupList::new(alloc);
    while let Some(group) = placed.next() {
        match groups.push(group) {
            Ok(()) => {}
            Err(_) => return Err(OutOfMemory),
        }
    }
    Ok(groups)
}
