//! How far a packet has been looked into.

/// What a packet's present bytes are.
#[derive(Clone, Copy, Debug, PartialEq, Eq)]
pub enum Layer {
    /// An Ethernet frame, nothing checked.
    Frame,
    /// What followed the Ethernet header, which was taken away; nothing checked.
    Bare,
    /// A checked IPv4 packet.
    Ip,
    /// A checked IPv4 packet behind a new Ethernet header.
    Framed,
}
