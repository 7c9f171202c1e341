//! One header at a time, of Ethernet, VLAN tags, IPv4, IPv6 and its extension headers: from the
//! bytes between its start and the limit, how long it is, what stands after it, and where the
//! bytes after it end. One file a header; the field_table crate has what they share.
#![tactic(auto)]

mod eth;
mod ext;
mod frag;
mod ipv4;
mod ipv6;
mod tag;

pub use eth::read_eth;
pub use ext::read_ext;
pub use frag::read_frag;
pub use ipv4::read_ipv4;
pub use ipv6::read_ipv6;
pub use tag::read_tag;
