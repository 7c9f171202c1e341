//! Where a header stands in a packet.

ghost use Rattle.std.specs.Prelude.{◌≡◌, slice_range};
ghost use Rattle.header_stack.specs.Places.{LiesIn};

use field_table::Kind;

/// Where a header stands in a packet.
#[derive(Clone, Copy, Debug, PartialEq, Eq)]
pub struct Place {
    /// Its kind.
    pub kind: Kind,
    /// Its first byte.
    pub from: u32,
    /// The first byte after it.
    pub to: u32,
}

/// The bytes of the header at this place of the packet `bytes`.
pub fn header(p: Place, bytes: &[u8]) -> &[u8]
    requires { LiesIn bytes.now p }
    ensures { result.now ≡ slice_range bytes.now p.from p.to }
{
    &bytes[p.from as usize..p.to as usize]
}
