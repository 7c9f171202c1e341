//! Which times come too late.
ghost use Rattle.std.specs.Prelude.{◌≡◌, ◌≤◌, ◌<◌, ◌^◌, IfSome};
ghost use Rattle.ds_base.specs.Times.{hour};
ghost use Rattle.key_select.specs.Late.{is_late};

/// Whether a record of this time comes too late after records of the capture of which `newest` is the
/// greatest time: it is less than that by more than the capture's skew. The times are adjusted. Where no
/// record came before, none comes too late. All are in nanoseconds; the skew is at most an hour.
pub fn is_late(time: u64, skew: u64, newest: Option<u64>) -> bool
    requires time { time < 2 ^ 63 }
    requires skew { skew ≤ hour }
    requires newest { IfSome newest (λ n. n < 2 ^ 63) }
    ensures { result ≡ is_late time skew newest }
{
    match newest {
        None => false,
        Some(newest) => time + skew < newest,
    }
}
