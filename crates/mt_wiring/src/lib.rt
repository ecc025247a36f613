//! Rings and layers along the wires of a chain of network elements: `lowest_on_ring` and `lowest_clash`. What elements
//! do is up to the caller (`Elements`). Read `specs/Ways.antt` first.
#![tactic(auto)]

mod behavior;
mod clearing;
mod components;
pub mod laws;
mod layers;
mod leaving;
mod links;
mod lowest;
mod ports;
mod rings;
#[cfg(test)]
mod tests;

pub use behavior::Elements;
pub use layers::lowest_clash;
pub use rings::lowest_on_ring;
