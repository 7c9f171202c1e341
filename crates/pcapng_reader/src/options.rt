//! The options of a block (pcapng specification section 3.5).
ghost use Rattle.std.specs.Prelude.{◌≡◌, ◌+◌, ◌≤◌, ◌<◌, length, drop, IfSome, true, false};
ghost use Rattle.pcapng_reader.specs.Options.{ends_options, option_size, is_option, find_option};

use crate::head::pad;
use capture_bytes::{Endian, read_half};

/// Whether the options end at the front of the bytes: with code 0, or since the next does not fit.
#[tactic(auto, unfolding(crate::specs::Options::ends_options))]
fn ends(order: Endian, bytes: &[u8]) -> bool
    ensures value { result ≡ ends_options order bytes.now }
    ensures fits { result ≡ false → option_size order bytes.now ≤ length bytes.now }
{
    if bytes.len() < 4 {
        return true;
    }
    let len = read_half(order, bytes, 2);
    read_half(order, bytes, 0) == 0 || (bytes.len() as u64) < 4 + pad(u32::from(len))
}

/// Whether the option at the front of the bytes has this code and this length.
fn is_option(order: Endian, bytes: &[u8], code: u16, len: u16) -> bool
    requires { 4 ≤ length bytes.now }
    ensures { result ≡ is_option order code len bytes.now }
{
    read_half(order, bytes, 0) == code && read_half(order, bytes, 2) == len
}

/// The bytes from a place on.
fn after(bytes: &[u8], at: usize) -> &[u8]
    requires { at ≤ length bytes.now }
    ensures { result.now ≡ drop at bytes.now }
{
    &bytes[at..]
}

/// Where the value of the first option with this code and this length begins. The bytes are those of a block up to
/// the end of its options, which begin at `from`.
pub(crate) fn find(order: Endian, bytes: &[u8], from: usize, code: u16, len: u16) -> Option<usize>
    requires { from ≤ length bytes.now }
    ensures value { result ≡ find_option order code len from bytes.now }
    ensures fits { IfSome result (λ at. at + len ≤ length bytes.now) }
{
    let mut at = from;
    let mut most = bytes.len();
    'options: while most > 0 {
        let options = after(bytes, at);
        if ends(order, options) {
            return None;
        }
        if is_option(order, options, code, len) {
            return Some(at + 4);
        }
        at += 4 + pad(u32::from(read_half(order, options, 2))) as usize;
        most -= 1;
    }
    None
}
