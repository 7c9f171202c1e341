//! The packets of a sample, each written at the end of a file.

ghost use Rattle.std.specs.Prelude.{◌≡◌, ◌++◌, OnOk, length};
ghost use Rattle.trace_gen.specs.Packets.{datagram, tunnel, plain, under_gre, under_vxlan, packet_of};

use crate::headers::{Ipv4Header, put_ethernet, put_gre, put_ipv4, put_udp, put_vxlan};
use crate::sighting::Sighting;
use ds_base::OutOfMemory;

/// How many bytes the packet has as it is seen.
#[tactic(auto, using(crate::proofs::Lengths::as_it_is, crate::proofs::Lengths::gre_around, crate::proofs::Lengths::vxlan_around))]
pub(crate) fn packet_len(sighting: &Sighting) -> u32
    ensures { result ≡ length (packet_of sighting.now) }
{
    match sighting.capture % 3 {
        0 => 42,
        1 => 70,
        _ => 92,
    }
}

/// Puts the packet as it is seen: as it is, under GRE or under VXLAN.
#[tactic(auto, unfolding(crate::specs::Packets::packet_of))]
pub(crate) fn put_packet(out: &mut Vec<u8>, sighting: &Sighting) -> Result<(), OutOfMemory>
    ensures { OnOk result (out.new.items ≡ out.old.items ++ packet_of sighting.now) }
{
    let Sighting {
        capture,
        id,
        ttl,
        ..
    } = *sighting;
    match capture % 3 {
        0 => put_plain(out, id, ttl),
        1 => put_under_gre(out, id, ttl, capture),
        _ => put_under_vxlan(out, id, ttl, capture),
    }
}

// The datagram in its frame.
fn put_plain(out: &mut Vec<u8>, id: u16, ttl: u8) -> Result<(), OutOfMemory>
    ensures { OnOk result (out.new.items ≡ out.old.items ++ plain id ttl) }
{
    put_ethernet(out, 2, 1)?;
    put_datagram(out, id, ttl)
}

// The datagram under GRE.
fn put_under_gre(out: &mut Vec<u8>, id: u16, ttl: u8, key: u32) -> Result<(), OutOfMemory>
    ensures { OnOk result (out.new.items ≡ out.old.items ++ under_gre id ttl key) }
{
    put_ethernet(out, 4, 3)?;
    put_tunnel(out, 56, 47)?;
    put_gre(out, key)?;
    put_datagram(out, id, ttl)
}

// The frame under VXLAN.
fn put_under_vxlan(out: &mut Vec<u8>, id: u16, ttl: u8, vni: u32) -> Result<(), OutOfMemory>
    ensures { OnOk result (out.new.items ≡ out.old.items ++ under_vxlan id ttl vni) }
{
    put_ethernet(out, 4, 3)?;
    put_tunnel(out, 78, 17)?;
    put_udp(out, 0xC000, 4789, 58)?;
    put_vxlan(out, vni)?;
    put_plain(out, id, ttl)
}

// The datagram, from 10.0.0.1 to 10.0.0.2.
fn put_datagram(out: &mut Vec<u8>, id: u16, ttl: u8) -> Result<(), OutOfMemory>
    ensures { OnOk result (out.new.items ≡ out.old.items ++ datagram id ttl) }
{
    let header = Ipv4Header {
        len: 28,
        id,
        ttl,
        protocol: 17,
        from: 0x0A00_0001,
        to: 0x0A00_0002,
    };
    put_ipv4(out, &header)?;
    put_udp(out, 1234, 53, 8)
}

// The outer IPv4 header of a tunnel from 10.1.0.1 to 10.1.0.2.
fn put_tunnel(out: &mut Vec<u8>, len: u16, protocol: u8) -> Result<(), OutOfMemory>
    ensures { OnOk result (out.new.items ≡ out.old.items ++ tunnel len protocol) }
{
    let header = Ipv4Header {
        len,
        id: 1,
        ttl: 64,
        protocol,
        from: 0x0A01_0001,
        to: 0x0A01_0002,
    };
    put_ipv4(out, &header)
}
