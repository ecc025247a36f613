//! Configurations in the Click language as text: tokens, the phrases of statements, and argument texts.
//! The theorem is `statements`: it reads exactly the trees of the grammar (`specs/Grammar.antt`), and a fault
//! stands at the first token with which what precedes begins no configuration. Read `syntax.rt` first.
#![tactic(auto)]

mod advance;
mod arguments;
mod comment;
mod fault;
pub mod laws;
mod phrase;
mod piece;
mod reading;
mod replacing;
mod syntax;
mod token;
mod word;

pub use arguments::{arguments_of, index_shown, shown_of};
pub use comment::{Comment, comment_of};
pub use fault::{ClickFault, ClickWhy, Fault, ReadError, fault_in, line_and_column, line_from};
pub use phrase::{Endpoint, Item, Phrase, PortNumber, Use};
pub use replacing::{Binding, first_unknown, replaced};
pub use syntax::{phrases_of, read, statements};
pub use token::{Token, TokenKind, tokens_of};
pub use word::{Word, inner_bytes, word_bytes};

#[cfg(test)]
mod tests;
