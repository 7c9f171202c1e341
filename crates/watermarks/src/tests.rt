//! The least mark, by hand.
use crate::Marks;
use std::process::Abort;
use std::test::Fail;

#[test]
fn the_least_mark_is_of_the_captures_that_have_not_ended(rt: HostRuntime) -> Result<(), Fail> {
    let mut marks = Marks::new(2);
    assert_eq!(rt; marks.least(), Some(0));
    marks.raise(0, 5);
    assert_eq!(rt; marks.least(), Some(0));
    marks.raise(1, 3);
    assert_eq!(rt; marks.least(), Some(3));
    // A mark does not fall.
    marks.raise(1, 2);
    assert_eq!(rt; marks.least(), Some(3));
    marks.end(1);
    assert_eq!(rt; marks.least(), Some(5));
    // A capture that has ended is not raised.
    marks.raise(1, 4);
    assert_eq!(rt; marks.least(), Some(5));
    marks.end(0);
    assert_eq!(rt; marks.least(), None);
    Ok(())
}
