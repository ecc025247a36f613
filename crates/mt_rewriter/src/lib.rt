//! What the rewriters of a chain remember, and what becomes of a flow at one of their inputs: mappings, ports of
//! pools, and turns of mappers, element by element. Read `specs/Mappings.antt` first, then `specs/Tries.antt` and
//! `specs/Passages.antt`.
//!
//! The code is plain: a reply, a port and a clash are looked for among all mappings. It is what faster stores are
//! compared to.
#![tactic(auto)]

mod attempt;
pub mod laws;
mod log;
mod passage;
mod ring;
mod tables;
mod translation;

pub use log::Log;
pub use passage::{Decision, Given, Passage, decide_for};
pub use tables::Tables;
pub use translation::{HeldPort, Translation};
