//! The headers of TCP, UDP, ICMP and ICMPv6: for each, whether it stands at the start of some bytes,
//! how long it is, what stands after it and where the bytes after it end. One file a header;
//! whoever adds one adds a file here and a line in the header stack.
#![tactic(auto)]

mod icmp;
mod icmp6;
mod tcp;
mod udp;

pub use icmp::read_icmp;
pub use icmp6::read_icmp6;
pub use tcp::read_tcp;
pub use udp::read_udp;
