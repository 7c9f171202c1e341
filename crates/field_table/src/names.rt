//! The words of kinds and fields.

ghost use Rattle.std.specs.Prelude.{◌≡◌, ◌<◌, length, position};
ghost use Rattle.std.specs.Str.{bytes_eq};
ghost use Rattle.field_table.specs.FieldText.{kind_text, name_of};
ghost use Rattle.field_table.specs.Reading.{kind_of, number_of_name};
ghost use Rattle.field_table.specs.Table.{names_of};

use crate::kind::Kind;
use crate::layout::Layout;
use crate::table::rows;

/// All kinds.
pub(crate) static KINDS: [Kind; 12] = [
    Kind::Eth,
    Kind::Tag,
    Kind::Ipv4,
    Kind::Ipv6,
    Kind::Ext,
    Kind::Frag,
    Kind::Tcp,
    Kind::Udp,
    Kind::Icmp,
    Kind::Icmp6,
    Kind::Gre,
    Kind::Vxlan,
];

/// The word of a kind, as it stands in the text of a field.
pub fn kind_name(kind: Kind) -> &'static str
    ensures { result.now ≡ kind_text kind }
{
    match kind {
        Kind::Eth => "eth",
        Kind::Tag => "tag",
        Kind::Ipv4 => "ipv4",
        Kind::Ipv6 => "ipv6",
        Kind::Ext => "ext",
        Kind::Frag => "frag",
        Kind::Tcp => "tcp",
        Kind::Udp => "udp",
        Kind::Icmp => "icmp",
        Kind::Icmp6 => "icmp6",
        Kind::Gre => "gre",
        Kind::Vxlan => "vxlan",
    }
}

/// The kind of a word.
pub(crate) fn kind_named(word: &[u8]) -> Option<Kind>
    ensures { result ≡ kind_of word.now }
{
    KINDS
        .iter()
        .copied()
        .find(|kind| kind_name(*kind).as_bytes() == word)
}

/// The name of a field.
pub(crate) fn field_name(kind: Kind, field: u8) -> &'static str
    requires { field < length (names_of kind) }
    ensures { result.now ≡ name_of kind field }
{
    rows(kind)[field as usize].0
}

/// The number of the field of a kind that has a name.
pub(crate) fn field_named(kind: Kind, name: &[u8]) -> Option<u8>
    ensures { result ≡ number_of_name kind name.now }
{
    let at = row_named(rows(kind), name)?;
    Some(at as u8)
}

/// The place of the row with a name.
fn row_named(rows: &[(&str, Layout)], name: &[u8]) -> Option<usize>
    ensures { result ≡ position (λ row. bytes_eq row.0.now name.now) rows.now }
{
    rows.iter().position(|row| row.0.as_bytes() == name)
}
