//! The header of a libpcap file.
ghost use Rattle.std.specs.Prelude.{◌≡◌, ◌≤◌, ◌<◌, true, length, take, OnOk, IfOk, IfErr};
ghost use Rattle.pcap_reader.specs.Format.{magic_of, header_of, is_short_header, short_header, is_link};

use capture_bytes::{Endian, read_half, read_word};
use ds_base::{Bad, PcapFault};

/// What the fraction of a second in a record counts.
#[derive(Clone, Copy, Debug, PartialEq, Eq)]
pub(crate) enum Precision {
    Micros,
    Nanos,
}

/// What the header of a capture file says (libpcap file format 2.4): magic number and link type word.
#[derive(Clone, Copy, Debug, PartialEq, Eq)]
pub(crate) struct Format {
    pub(crate) endian: Endian,
    pub(crate) precision: Precision,
    pub(crate) link: u32,
}

/// What a magic number says. None: it is none.
fn read_magic(first: u32) -> Option<(Endian, Precision)>
    ensures { result ≡ magic_of first }
{
    match first {
        0xD4C3_B2A1 => Some((Endian::Little, Precision::Micros)),
        0xA1B2_C3D4 => Some((Endian::Big, Precision::Micros)),
        0x4D3C_B2A1 => Some((Endian::Little, Precision::Nanos)),
        0xA1B2_3C4D => Some((Endian::Big, Precision::Nanos)),
        _ => None,
    }
}

/// The format that the header of a file says, of which the first 24 bytes are given, or as many as there
/// are; or the first malformed place in it.
#[tactic(auto, unfolding(crate::specs::Format::header_of))]
pub(crate) fn read_header(header: &[u8]) -> Result<Format, Bad>
    requires { length header.now ≤ 24 }
    ensures value { result ≡ header_of header.now }
    ensures whole { OnOk result (length header.now ≡ 24) }
    ensures link { IfOk result (λ format. is_link format.link ≡ true) }
    ensures short { IfErr result (λ b. is_short_header b.what ≡ true → (b ≡ short_header header.now) × (length header.now < 24)) }
{
    let short = Bad {
        at: header.len() as u64,
        what: PcapFault::ShortHeader {
            len: header.len() as u64,
        },
    };
    if header.len() < 4 {
        return Err(short);
    }
    let first = read_word(Endian::Big, header, 0);
    let Some((endian, precision)) = read_magic(first) else {
        return Err(Bad {
            at: 0,
            what: PcapFault::Magic,
        });
    };
    if header.len() < 24 {
        return Err(short);
    }
    let major = read_half(endian, header, 4);
    let minor = read_half(endian, header, 6);
    if major != 2 || minor != 4 {
        return Err(Bad {
            at: 4,
            what: PcapFault::Version { major, minor },
        });
    }
    let link = read_word(endian, header, 20);
    if link != 1 && link != 101 {
        return Err(Bad {
            at: 20,
            what: PcapFault::LinkType { word: link },
        });
    }
    Ok(Format {
        endian,
        precision,
        link,
    })
}

/// Whether the fault is that the file ended inside its header.
pub(crate) fn is_short(what: PcapFault) -> bool
    ensures { result ≡ is_short_header what }
{
    matches!(what, PcapFault::ShortHeader { .. })
}

/// The first `len` bytes, or all where there are fewer.
pub(crate) fn front(bytes: &[u8], len: usize) -> &[u8]
    ensures { result.now ≡ take len bytes.now }
{
    if bytes.len() < len {
        bytes
    } else {
        &bytes[..len]
    }
}
