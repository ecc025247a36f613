//! The pattern language of filters and classifiers of IP packets. `Pattern::parse` gives the pattern that
//! the grammar spells, or the offset at which a text goes wrong; `holds` is the meaning of a pattern on a
//! header. Read `specs/Grammar.antt` first.
#![tactic(auto)]

mod build;
mod keyword;
pub mod laws;
mod lexis;
mod meaning;
mod order;
mod parse;
mod parser;
mod pattern;
mod span;
mod stack;
mod test;
#[cfg(test)]
mod tests;

pub use meaning::holds;
pub use parse::PatternFault;
pub use pattern::Pattern;
pub use span::prefix;
