//! Laws about profiles that the report builds on. Each is a call that does nothing.

ghost use Rattle.profiles.specs.Laws.{InAnyOrder, OneProfile, RowByRow, FewInGroup, FewDelays, WithinWindow, LeastClass};

/// A law: the profile of groups is that of the same groups in any other order.
pub fn in_any_order()
    ensures { InAnyOrder }
{}

/// A law: groups have one profile.
pub fn one_profile()
    ensures { OneProfile }
{}

/// A law: the rows of a profile, added one by one, come to what `merge` comes to.
pub fn row_by_row()
    ensures { RowByRow }
{}

/// A law: a pair has no more delays than a group has members, or the groups of a profile.
pub fn few_delays()
    ensures in_group { FewInGroup }
    ensures in_profile { FewDelays }
{}

/// A law: no delay of a group is longer than the group lasts.
pub fn within_window()
    ensures { WithinWindow }
{}

/// A law: the class of a time below 2^64 is the least k with the time below 2^k.
pub fn least_class()
    ensures { LeastClass }
{}
