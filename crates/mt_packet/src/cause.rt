//! Why a packet is dropped.

/// The causes for which an element drops a packet.
#[derive(Clone, Copy, Debug, PartialEq, Eq, PartialOrd, Ord)]
pub enum Cause {
    /// It came to an element that drops every packet.
    Discarded,
    /// No output has the number of its paint.
    NoPaint,
    /// No pattern of the classifier holds on it.
    Classified,
    /// It has no whole Ethernet header.
    Short,
    /// It is no valid IPv4 packet.
    BadIp,
    /// Its time to live has run out.
    Ttl,
    /// The filter lets it through nowhere.
    Filtered,
    /// No route holds its annotation.
    NoRoute,
    /// It has no visible ports to rewrite.
    Unported,
    /// It answers no mapping.
    Unmapped,
    /// No port of the pool was free.
    Exhausted,
    /// Its flow after the rewriting would be that of another mapping.
    Clash,
}
