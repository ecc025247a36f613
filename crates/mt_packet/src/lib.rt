//! Ethernet frames, the headers that are read in them, and the packets that the elements of a chain read and
//! write. The theorem: a field is written in its place with its checksums mended, by the definition
//! `with_field`, and `laws` says how writes go together. Read `specs/Packet.antt` first, then `packet.rt`.
#![tactic(auto)]

mod bytes;
mod cause;
mod checksum;
mod datagram;
mod ethernet;
mod field;
mod flow;
mod frame;
mod header;
pub mod laws;
mod layer;
mod packet;
mod span;
#[cfg(test)]
mod tests;
mod visible;
mod writes;

pub use cause::Cause;
pub use checksum::{ip_sum, l4_delta};
pub use ethernet::eth_type;
pub use field::{FIELDS, Field, HEADER_FIELDS, VISIBLE_FIELDS};
pub use flow::Flow;
pub use frame::{Frame, Stamped};
pub use header::Header;
pub use layer::Layer;
pub use packet::Packet;
pub use span::Span;
pub use visible::Visible;
pub use writes::Writes;
