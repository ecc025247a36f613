//! Command scripts: what a text says to do, command by command, or its first fault with its line. The
//! theorem is `parse`: it gives what `commands_of` says of every text. Read `specs/Script.antt` first, the
//! grammar with the table of the commands.
#![tactic(auto)]

mod argument;
mod command;
mod fault;
pub mod laws;
mod line;
mod reading;
mod script;
mod word;

pub use command::Command;
pub use fault::{ScriptFault, ScriptWhy};
pub use script::parse;

#[cfg(test)]
mod tests;
