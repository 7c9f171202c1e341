//! Parts of bytes.
ghost use Rattle.std.specs.Prelude.{◌≡◌, ◌<◌, ◌≤◌, ℕ, length, take, drop, slice_index};

// At most the first `most` bytes.
pub(crate) fn front(bytes: &[u8], most: usize) -> &[u8]
    ensures { result.now ≡ take most bytes.now }
{
    if bytes.len() <= most {
        bytes
    } else {
        bytes.split_at(most).0
    }
}

// The bytes behind the first `gone`.
pub(crate) fn behind(bytes: &[u8], gone: usize) -> &[u8]
    requires { gone ≤ length bytes.now }
    ensures { result.now ≡ drop gone bytes.now }
{
    bytes.split_at(gone).1
}

// The bytes from `start` to `end`.
pub(crate) fn between(bytes: &[u8], start: usize, end: usize) -> &[u8]
    requires { (start ≤ end) × (end ≤ length bytes.now) }
    ensures { result.now ≡ drop start (take end bytes.now) }
{
    bytes.split_at(end).0.split_at(start).1
}

// A law: each of these is a byte.
pub(crate) fn are_bytes(bytes: &[u8])
    ensures { (i : ℕ) → slice_index bytes.now i < 256 }
{
    let _ = bytes;
}
