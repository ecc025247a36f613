//! An index that finds the class of a header. The theorem: where the regions of the classes are disjoint and are
//! together all headers of a chain, one walk down a tree gives each header the number of the class that has it.
//! Read `specs/Partition.antt` first.
#![tactic(auto)]

mod building;
mod devices;
mod index;
#[cfg(test)]
mod tests;

pub use index::Index;
