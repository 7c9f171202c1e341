//! The first four bytes of a file, which decide its format.
ghost use Rattle.std.specs.Prelude.{◌≡◌, ◌+◌, ◌-◌, ◌<◌, ◌++◌, length, slice_index};
ghost use Rattle.pcap_reader.specs.Good.{is_pcapng, is_section_type};

/// Whether a file is of pcapng: its first four bytes are those of a section block (pcapng specification section
/// 4.1).
pub fn is_pcapng(bytes: &[u8]) -> bool
    ensures { result ≡ is_pcapng bytes.now }
{
    begins_section(&[], bytes)
}

/// The same of a file that begins with these bytes and then the piece.
#[tactic(auto, unfolding(crate::specs::Good::is_pcapng))]
pub(crate) fn begins_section(front: &[u8], piece: &[u8]) -> bool
    ensures { result ≡ is_pcapng (front.now ++ piece.now) }
{
    front.len() + piece.len() >= 4
        && is_section_type([
            byte_at(front, piece, 0),
            byte_at(front, piece, 1),
            byte_at(front, piece, 2),
            byte_at(front, piece, 3),
        ])
}

/// Whether these bytes are the type of a section block.
fn is_section_type(four: [u8; 4]) -> bool
    ensures { result ≡ is_section_type (slice_index four 0) (slice_index four 1) (slice_index four 2) (slice_index four 3) }
{
    four[0] == 0x0A && four[1] == 0x0D && four[2] == 0x0D && four[3] == 0x0A
}

/// The byte at a place of two pieces, one behind the other.
fn byte_at(front: &[u8], piece: &[u8], at: usize) -> u8
    requires { at < length front.now + length piece.now }
    ensures { result ≡ slice_index (front.now ++ piece.now) at }
{
    if at < front.len() {
        front[at]
    } else {
        piece[at - front.len()]
    }
}
