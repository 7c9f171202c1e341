//! The headers of the packets of a sample, each written at the end of a file. Checksums are 0.

ghost use Rattle.std.specs.Prelude.{◌≡◌, ◌++◌, ◌∷◌, [], OnOk};
ghost use Rattle.trace_gen.specs.Headers.{ethernet, ipv4, udp, gre, vxlan};
ghost use Rattle.trace_gen.specs.Numbers.{big};

use crate::numbers::{put, put_half, put_three, put_word};
use ds_base::OutOfMemory;

/// An IPv4 header without options, fragments and flags (RFC 791 section 3.1).
#[derive(Clone, Copy)]
pub(crate) struct Ipv4Header {
    /// How many bytes the packet has, with this header.
    pub(crate) len: u16,
    /// The identification.
    pub(crate) id: u16,
    pub(crate) ttl: u8,
    pub(crate) protocol: u8,
    /// The source address.
    pub(crate) from: u32,
    /// The destination address.
    pub(crate) to: u32,
}

/// Puts an Ethernet header to and from the stations of these numbers, over IPv4.
pub(crate) fn put_ethernet(out: &mut Vec<u8>, to: u8, from: u8) -> Result<(), OutOfMemory>
    ensures { OnOk result (out.new.items ≡ out.old.items ++ ethernet to from) }
{
    put(out, &[2, 0, 0, 0, 0, to])?;
    put(out, &[2, 0, 0, 0, 0, from])?;
    put_half(out, 0x0800)
}

/// Puts an IPv4 header.
pub(crate) fn put_ipv4(out: &mut Vec<u8>, header: &Ipv4Header) -> Result<(), OutOfMemory>
    ensures { OnOk result (out.new.items ≡ out.old.items ++ ipv4 header.now) }
{
    put_identity(out, header.len, header.id)?;
    put(out, &[header.ttl, header.protocol])?;
    put_half(out, 0)?;
    put_word(out, header.from)?;
    put_word(out, header.to)
}

// The first eight bytes of an IPv4 header.
fn put_identity(out: &mut Vec<u8>, len: u16, id: u16) -> Result<(), OutOfMemory>
    ensures { OnOk result (out.new.items ≡ out.old.items ++ (0x45 ∷ 0 ∷ big 2 len ++ big 2 id ++ big 2 0)) }
{
    put(out, &[0x45, 0])?;
    put_half(out, len)?;
    put_half(out, id)?;
    put_half(out, 0)
}

/// Puts a UDP header with these ports and this length, in bytes with the header.
pub(crate) fn put_udp(out: &mut Vec<u8>, from: u16, to: u16, len: u16) -> Result<(), OutOfMemory>
    ensures { OnOk result (out.new.items ≡ out.old.items ++ udp from to len) }
{
    put_half(out, from)?;
    put_half(out, to)?;
    put_half(out, len)?;
    put_half(out, 0)
}

/// Puts a GRE header with this key, over IPv4.
pub(crate) fn put_gre(out: &mut Vec<u8>, key: u32) -> Result<(), OutOfMemory>
    ensures { OnOk result (out.new.items ≡ out.old.items ++ gre key) }
{
    put_half(out, 0x2000)?;
    put_half(out, 0x0800)?;
    put_word(out, key)
}

/// Puts a VXLAN header with this VNI, of which the lower 24 bits count.
pub(crate) fn put_vxlan(out: &mut Vec<u8>, vni: u32) -> Result<(), OutOfMemory>
    ensures { OnOk result (out.new.items ≡ out.old.items ++ vxlan vni) }
{
    put(out, &[8, 0, 0, 0])?;
    put_three(out, vni)?;
    put(out, &[0])
}
