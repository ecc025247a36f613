//! The ports of the pools, where each of them stands, and the turns of the mappers. Stock, shares and
//! tokens are together the pool, and no port stands twice (`laws`). A policy keeps that its answer is a
//! place of the share. Read `specs/Ports.antt` first.
#![tactic(auto)]

pub mod laws;
mod ledger;
mod policy;
mod pool;
mod portion;
mod shares;

pub use ledger::Ledger;
pub use mt_text::Text;
pub use policy::{Pick, Policies, Policy};
pub use pool::{PortRange, PortToken};
pub use shares::Shares;

#[cfg(test)]
mod tests;
