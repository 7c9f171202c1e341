//! The kinds of header.

/// The kinds of header.
#[derive(Clone, Copy, Debug, PartialEq, Eq)]
pub enum Kind {
    /// Ethernet: the two addresses and the type.
    Eth,
    /// A VLAN tag (IEEE 802.1Q): its control word and the type after it.
    Tag,
    /// IPv4 (RFC 791 section 3.1).
    Ipv4,
    /// The fixed header of IPv6 (RFC 8200 section 3).
    Ipv6,
    /// An extension header of IPv6 whose length is its second byte: hop-by-hop options, routing,
    /// destination options (RFC 8200 sections 4.3, 4.4 and 4.6).
    Ext,
    /// The fragment header of IPv6 (RFC 8200 section 4.5).
    Frag,
    /// TCP (RFC 9293 section 3.1).
    Tcp,
    /// UDP (RFC 768).
    Udp,
    /// ICMP (RFC 792), the first eight bytes of a message.
    Icmp,
    /// ICMPv6 (RFC 4443), the first eight bytes of a message.
    Icmp6,
    /// GRE with its checksum, key and sequence number (RFC 2784 and RFC 2890).
    Gre,
    /// VXLAN (RFC 7348 section 5).
    Vxlan,
}
