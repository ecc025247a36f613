//! Graphs that are chains. `check` gives exactly the chain of a graph that is accepted, else its first refusal, and
//! a `Chain` is accepted by its type. Read `specs/Accepted.antt` first, then `checking.rt`.
#![tactic(auto)]

mod chain;
mod checking;
mod describing;
mod fault;
mod kinds;
pub mod laws;
mod layout;
mod numbering;
mod passing;
mod pools;
mod reading;
mod table;
#[cfg(test)]
mod tests;
mod wires;

pub use chain::{Chain, Rewriters};
pub use checking::check;
pub use fault::{ChainFault, ChainWhy};
