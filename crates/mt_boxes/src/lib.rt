//! Sets of headers as lists of boxes that have no header in common. The theorem: each call gives the set of
//! headers that it names, and its boxes are apart. Read `specs/Boxes.antt` first.
#![tactic(auto)]

mod boxes;
mod difference;
pub mod laws;
mod least;
mod meeting;
mod projection;
mod refinement;
mod region;
mod spans;
#[cfg(test)]
mod tests;

pub use boxes::{HeaderBox, VisibleBox};
pub use difference::minus;
pub use least::least_header;
pub use meeting::meet;
pub use mt_packet::Span;
pub use projection::project;
pub use refinement::refine;
pub use region::{Region, VisibleRegion, holds};
