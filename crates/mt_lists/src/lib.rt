//! Words and laws of options, truth values and lists that several crates prove with. It has no code:
//! the words stand in `specs`, the laws in `proofs`, by topic. Each crate above may import from both.
//! Read `specs/Options.antt` first, then the laws that a goal asks for.
#![tactic(auto)]
