//! Functions of headers with finitely many values, as trees of cuts in a canonical form. The theorem: two
//! trees are one function exactly where they are equal, and each merge gives each header what its function
//! makes of the values of the merged trees. Read `specs/Tree.antt` first, then `specs/Canonical.antt`.
#![tactic(auto)]

mod choice;
mod chooser;
mod constant;
mod copies;
mod cursor;
mod cut;
mod domain;
pub mod laws;
mod leaves;
mod left;
mod merged;
mod pairs;
mod parts;
mod same;
mod selected;
mod spans;
#[cfg(test)]
mod tests;
mod value;

pub use choice::{Choice, Combine};
pub use cut::Cut;
pub use domain::{last_of, least_of};
pub use leaves::Leaf;
pub use merged::{merge, merge_three};
pub use pairs::product;
pub use same::is_same_function;
pub use selected::select;
pub use spans::split;
