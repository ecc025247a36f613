//! The words of the command line. `read` says which word is at fault first, or what the command is; `bind` says
//! which files its bindings give the devices of a chain, or which word or device is at fault first. Read
//! `specs/Words.antt` first.
//!
//! ```text
//! run CHAIN SCRIPT BINDING.. [--ports NAME]
//! ```
//!
//! A binding is `in:DEVICE=FILE`, the capture of what arrives on a device, or `out:DEVICE=FILE`, the capture that
//! what is sent on it is written to. The option names the policy by which ports are taken, and stands anywhere
//! before a `--`, also as `--ports=NAME`. The names that policies have are given by the caller.
#![tactic(auto)]

mod binding;
mod devices;
pub mod laws;
mod operands;
mod policy;
mod reader;
mod words;

pub use binding::{Binding, Side};
pub use devices::{BindFault, Bound, Device, bind};
pub use words::{Run, WordsFault, read};

#[cfg(test)]
mod tests;
