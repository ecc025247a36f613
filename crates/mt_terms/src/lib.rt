//! Terms, which say what a field of a packet is in terms of the frame that arrived, and trees, which say what a
//! chain does with a packet of a class. The theorems: the value of a term is exact, and equality and one total
//! order of terms and of trees tell their plain forms apart (`laws`). Read `specs/Terms.antt` first, then
//! `specs/Trees.antt`.
#![tactic(auto)]

mod classes;
mod copies;
pub mod laws;
mod term;
#[cfg(test)]
mod tests;
mod tree;
mod writes;

pub use classes::Classes;
pub use term::{Part, Term};
pub use tree::{OpCode, Rewrite, Tree};
pub use writes::{FieldWrite, WriteList};
