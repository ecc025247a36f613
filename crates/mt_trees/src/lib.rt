//! The tree of a header: what a chain does with the packets of a class, decided by the header where it can be, with one
//! rewrite at the end. `leaf` makes that rewrite on a frame. Read `specs/Symbols.antt` first, then `specs/Tests.antt`,
//! `specs/Passages.antt`, `specs/Elements.antt` and `specs/Meaning.antt`.
#![tactic(auto)]

pub mod laws;
pub mod leaf;
#[cfg(test)]
mod tests;
