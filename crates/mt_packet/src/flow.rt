//! The flow of a packet.

/// A protocol (6 for TCP, 17 for UDP) and two ends: the source address and port, the destination
/// address and port, numbers in network order. Flows are ordered by these fields, one after the other.
#[derive(Clone, Copy, Debug, PartialEq, Eq, PartialOrd, Ord)]
pub struct Flow {
    pub proto: u8,
    pub sa: u32,
    pub sp: u16,
    pub da: u32,
    pub dp: u16,
}
