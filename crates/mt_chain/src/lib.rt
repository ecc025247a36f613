//! The elements of a chain at work on packets. `run_one` gives exactly the run of one packet, from the device
//! on which it arrived to its fate, and every packet that arrives has one. Read `specs/Step.antt` first, one
//! line for each class, then `specs/Run.antt`.
#![tactic(auto)]

mod classifier;
mod filter;
pub mod laws;
mod rewriting;
mod route;
mod run;
mod step;
#[cfg(test)]
mod tests;
mod walk;

pub use mt_rewriter::Tables;
pub use run::{Fate, Ran, RunFault, run_one};
