//! The mappings that a server keeps, in the order of opening and accepting. The contract speaks of that
//! list; the code has an ordered map by forward key, one by reply key, orders by age, over all lanes and
//! in each lane, and counts. Read `specs/Mappings.antt` first.
#![tactic(auto)]

mod counts;
mod indexes;
mod keys;
mod lanes;
mod mapping;
mod store;

pub use keys::{ForwardKey, ReplyKey};
pub use mapping::{Mapping, Meeting, OpenFault, reversed};
pub use store::Store;

#[cfg(test)]
mod tests;
