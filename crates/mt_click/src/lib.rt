//! Configurations in the Click language as flat graphs. The theorem is `parse`: it gives the one graph that the text
//! denotes by a relation of expansion (`specs/Expands.antt`, `specs/Wires.antt`), or its first fault with line and
//! column. Read `configuration.rt` first.
#![tactic(auto)]

mod action;
mod configuration;
mod connections;
pub mod laws;
mod names;
mod perform;
mod resolving;
mod sides;
mod symbols;
mod walk;
mod wires;

pub use configuration::parse;
pub use mt_graph::{Element, Graph, Wire};
pub use mt_syntax::{ClickFault, ClickWhy};
pub use mt_text::{Text, Texts};

#[cfg(test)]
mod tests;
