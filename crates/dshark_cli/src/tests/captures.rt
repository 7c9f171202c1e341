//! The captures of the tests, made record by record.

use Form::{BigNano, Micro, Nano};
use Seen::{Arp, Bare, Gre, Vxlan};
use std::alloc::{AllocError, Global};

/// The file header of a capture: little-endian microseconds on Ethernet.
pub(crate) const HEADER: [u8; 24] = [
    0xD4, 0xC3, 0xB2, 0xA1, 2, 0, 4, 0, 0, 0, 0, 0, 0, 0, 0, 0, 0, 0, 4, 0, 1, 0, 0, 0,
];

/// An Ethernet frame with IPv4 and UDP: identification 7 and time to live 64.
pub(crate) const PACKET: [u8; 42] = [
    2, 0, 0, 0, 0, 2, 2, 0, 0, 0, 0, 1, 8, 0, 0x45, 0, 0, 0x1C, 0, 7, 0, 0, 64, 0x11, 0, 0, 10, 0,
    0, 1, 10, 0, 0, 2, 4, 0xD2, 0, 0x35, 0, 8, 0, 0,
];

/// VXLAN of network 100 that holds an Ethernet frame of IPv4 with identification 7.
pub(crate) const VXLAN: [u8; 92] = [
    2, 0, 0, 0, 0, 4, 2, 0, 0, 0, 0, 3, 8, 0, 0x45, 0, 0, 0x4E, 0, 1, 0, 0, 0x40, 0x11, 0, 0, 0x0A,
    1, 0, 1, 0x0A, 1, 0, 2, 0xC0, 0, 0x12, 0xB5, 0, 0x3A, 0, 0, 8, 0, 0, 0, 0, 0, 0x64, 0, 2, 0, 0,
    0, 0, 2, 2, 0, 0, 0, 0, 1, 8, 0, 0x45, 0, 0, 0x1C, 0, 7, 0, 0, 0x40, 0x11, 0, 0, 0x0A, 0, 0, 1,
    0x0A, 0, 0, 2, 4, 0xD2, 0, 0x35, 0, 8, 0, 0,
];

/// GRE with key 5 that holds IPv4 with identification 7.
pub(crate) const GRE: [u8; 70] = [
    2, 0, 0, 0, 0, 4, 2, 0, 0, 0, 0, 3, 8, 0, 0x45, 0, 0, 0x38, 0, 1, 0, 0, 0x40, 0x2F, 0, 0, 0x0A,
    1, 0, 1, 0x0A, 1, 0, 2, 0x20, 0, 8, 0, 0, 0, 0, 5, 0x45, 0, 0, 0x1C, 0, 7, 0, 0, 0x3F, 0x11, 0,
    0, 0x0A, 0, 0, 1, 0x0A, 0, 0, 2, 4, 0xD2, 0, 0x35, 0, 8, 0, 0,
];

/// A packet as a capture point sees it: its identification, its time to live, and the number of the
/// tunnel that it is in.
#[derive(Clone, Copy)]
pub(crate) enum Seen {
    Bare(u8, u8),
    Vxlan(u8, u8, u8),
    Gre(u8, u8, u8),
    /// No IP.
    Arp,
}

/// How the words of a file are written, and what the fraction of a time counts.
#[derive(Clone, Copy)]
pub(crate) enum Form {
    Micro,
    Nano,
    BigNano,
}

/// A record: its second, the fraction, and the packet.
pub(crate) type Record = (u32, u32, Seen);

/// A capture's form and its records.
pub(crate) type Capture<'a> = (Form, &'a [Record]);

pub(crate) const EMPTY: Capture<'static> = (Micro, &[]);

fn word(form: Form, n: u32) -> [u8; 4] {
    match form {
        BigNano => n.to_be_bytes(),
        Micro | Nano => n.to_le_bytes(),
    }
}

fn push_packet(file: &mut Vec<u8>, form: Form, packet: &[u8]) -> Result<(), AllocError> {
    let len = word(form, u32::try_from(packet.len()).unwrap_or(0));
    file.extend_from_slice(&len)?;
    file.extend_from_slice(&len)?;
    file.extend_from_slice(packet)
}

fn push_seen(file: &mut Vec<u8>, form: Form, seen: Seen) -> Result<(), AllocError> {
    match seen {
        Bare(id, ttl) => {
            let mut packet = PACKET;
            packet[19] = id;
            packet[22] = ttl;
            push_packet(file, form, &packet)
        }
        Vxlan(id, ttl, vni) => {
            let mut packet = VXLAN;
            packet[48] = vni;
            packet[69] = id;
            packet[72] = ttl;
            push_packet(file, form, &packet)
        }
        Gre(id, ttl, key) => {
            let mut packet = GRE;
            packet[41] = key;
            packet[47] = id;
            packet[50] = ttl;
            push_packet(file, form, &packet)
        }
        Arp => {
            let mut packet = PACKET;
            packet[13] = 6;
            push_packet(file, form, &packet)
        }
    }
}

fn header(form: Form) -> [u8; 24] {
    let mut header = HEADER;
    match form {
        Micro => {}
        Nano => header[..2].copy_from_slice(&[0x4D, 0x3C]),
        BigNano => {
            header[..8].copy_from_slice(&[0xA1, 0xB2, 0x3C, 0x4D, 0, 2, 0, 4]);
            header[16..].copy_from_slice(&[0, 4, 0, 0, 0, 0, 0, 1]);
        }
    }
    header
}

pub(crate) fn file(alloc: Global, capture: Capture<'_>) -> Result<Vec<u8>, AllocError> {
    let (form, records) = capture;
    let mut file = header(form).to_vec(alloc)?;
    for (second, fraction, seen) in records {
        file.extend_from_slice(&word(form, *second))?;
        file.extend_from_slice(&word(form, *fraction))?;
        push_seen(&mut file, form, *seen)?;
    }
    Ok(file)
}

/// One packet on its way over the three points.
pub(crate) const A: Capture<'static> = (Micro, &[(1, 0, Bare(7, 64))]);

pub(crate) const B: Capture<'static> = (Micro, &[(1, 10, Bare(7, 63))]);

pub(crate) const C: Capture<'static> = (Micro, &[(1, 30, Bare(7, 62))]);

/// A head of a fourth record whose captured length is a byte too many.
const TOO_LONG: [u8; 16] = [1, 0, 0, 0, 0, 0, 0, 0, 1, 0, 4, 0, 1, 0, 4, 0];

/// Three records, and behind them, at byte 206, one that is too long.
pub(crate) fn too_long(alloc: Global) -> Result<Vec<u8>, AllocError> {
    let thrice: Capture<'static> = (
        Micro,
        &[
            (1, 0, Bare(7, 64)),
            (1, 0, Bare(7, 64)),
            (1, 0, Bare(7, 64)),
        ],
    );
    let mut long = file(alloc, thrice)?;
    long.extend_from_slice(&TOO_LONG)?;
    Ok(long)
}
