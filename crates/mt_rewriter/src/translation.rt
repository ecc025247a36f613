//! What a mapping makes of a flow.
use mt_packet::Flow;

/// A port that a mapping got from a pool. It is held for TCP and UDP together.
#[derive(Clone, Copy, Debug, PartialEq, Eq)]
pub struct HeldPort {
    /// The number of the pool.
    pub pool: u32,
    pub port: u16,
}

/// What a mapping makes of the flow for which it was opened.
#[derive(Clone, Copy, Debug, PartialEq, Eq)]
pub struct Translation {
    pub after: Flow,
    /// The output of packets in the flow's direction.
    pub fout: u32,
    /// The output of replies.
    pub rout: u32,
    /// The port that it got from a pool.
    pub held: Option<HeldPort>,
}
