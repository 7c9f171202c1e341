//! The time of a packet (pcapng specification sections 4.2 and 4.3).
ghost use Rattle.std.specs.Prelude.{◌≡◌, ◌<◌, ◌^◌, true, IfSome};
ghost use Rattle.pcapng_reader.specs.Times.{latest, is_lawful_resolution, nanoseconds, shifted};

/// No time is as late as this, so that an hour more stays below 2^63.
const LATEST: u128 = (1 << 63) - 3_600_000_000_000;

/// Whether an interface may have this resolution.
pub(crate) fn is_resolution(resolution: u8) -> bool
    ensures { result ≡ is_lawful_resolution resolution }
{
    if resolution < 128 {
        resolution <= 30
    } else {
        resolution <= 191
    }
}

/// The whole nanoseconds in a number of units of 10^-resolution seconds, or of 2^-(resolution - 128) seconds.
#[tactic(auto, unfolding(crate::specs::Times::nanoseconds))]
pub(crate) fn nanoseconds(resolution: u8, units: u64) -> u128
    ensures value { result ≡ nanoseconds resolution units }
    ensures bound { result < 2 ^ 94 }
{
    let whole = u128::from(units) * 1_000_000_000;
    if resolution < 128 {
        // A unit so small that 128 bits do not hold a second of them gives no whole nanosecond.
        match 10u128.checked_pow(u32::from(resolution)) {
            Some(units_a_second) => whole / units_a_second,
            None => 0,
        }
    } else {
        whole / 2u128.pow(u32::from(resolution - 128))
    }
}

/// A time with the seconds of an interface added, which are 64 bits of two's complement. None: it is before 1970,
/// or too late.
#[tactic(auto, unfolding(crate::specs::Times::shifted))]
pub(crate) fn shifted(nanos: u128, seconds: u64) -> Option<u64>
    requires { nanos < 2 ^ 94 }
    ensures value { result ≡ shifted nanos seconds }
    ensures bound { IfSome result (λ time. time < latest) }
{
    let time = if seconds < 1 << 63 {
        nanos + u128::from(seconds) * 1_000_000_000
    } else {
        let back = ((1 << 64) - u128::from(seconds)) * 1_000_000_000;
        if nanos < back {
            return None;
        }
        nanos - back
    };
    if time < LATEST {
        Some(time as u64)
    } else {
        None
    }
}
