//! A chain is synthesised: the headers on its devices fall into classes of one tree each. The theorem: `synthesise` gives
//! each header exactly one class, whose tree is the tree of that header, with regions that are canonical boxes. Read
//! `specs/Classes.antt` first, then `specs/Cuts.antt` and `specs/Exits.antt`.
#![tactic(auto)]

mod branching;
mod classes;
mod clauses;
mod collecting;
mod conditions;
mod exits;
mod fault;
mod joined;
pub mod laws;
mod leaves;
mod lists;
mod memo;
mod numbering;
mod passages;
mod patterns;
mod renaming;
mod symbol;
mod table;
mod testing;
#[cfg(test)]
mod tests;
mod walk;

pub use classes::synthesise;
pub use fault::SynthFault;
