//! The order of stamps, over lists whose times are equal.

ghost use Rattle.std.specs.Prelude.{◌≡◌};

use crate::{one_order, stamp_order};
use ds_base::{Nums, Stamp, Summary, SummaryList};
use std::test::Fail;

fn stamped(time: u64, capture: u32, number: u64) -> Summary
    ensures { result.at ≡ record { time = time; capture = capture; number = number } }
{
    Summary {
        at: Stamp {
            time,
            capture,
            number,
        },
        key: Nums::new(),
        vals: Nums::new(),
    }
}

#[test]
fn equal_times_are_ordered_by_capture_and_then_by_number(rt: HostRuntime) -> Result<(), Fail> {
    one_order();
    let mut list = SummaryList::new(rt.alloc());
    let Ok(()) = list.push(stamped(5, 1, 0)) else {
        return Err(Fail::from("out of memory"));
    };
    let Ok(()) = list.push(stamped(5, 0, 9)) else {
        return Err(Fail::from("out of memory"));
    };
    let Ok(()) = list.push(stamped(3, 2, 7)) else {
        return Err(Fail::from("out of memory"));
    };
    let Ok(()) = list.push(stamped(5, 0, 2)) else {
        return Err(Fail::from("out of memory"));
    };
    let order = stamp_order(rt.alloc(), &list)?;
    assert_eq!(rt; order.as_slice(), &[2, 3, 1, 0][..]);
    Ok(())
}
