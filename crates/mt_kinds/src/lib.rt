//! What an element is: its class with its arguments read, the layers at which it takes packets, and its outputs.
//! Each reader of arguments is exact by a definition of `specs`. Read `kind.rt` first, then `specs/Classes.antt`
//! and `specs/Layers.antt`.
#![tactic(auto)]

mod argument;
mod class;
mod classifier;
mod counts;
mod description;
mod filter;
mod hop;
mod kind;
pub mod laws;
mod layers;
mod lookup;
mod mappers;
mod outs;
mod ports;
mod rewriter;
mod rewriting;
mod rule;
#[cfg(test)]
mod tests;
mod written;

pub use class::{kind_of, stateless_kind};
pub use classifier::patterns_of;
pub use description::{Description, Misread, description_of};
pub use hop::{Hop, Hops};
pub use kind::{Clause, End, Kind, Patterns};
pub use layers::{layer_behind, takes};
pub use mappers::Mappers;
pub use outs::Outs;
pub use ports::{input_count, leads, may_be_open, output_count, replies_of};
pub use rewriter::{Pool, SourcePort, Spec, Specs, Template, Templates};
pub use rule::{FilterAction, IPPatterns, Rule, Rules};
pub use written::{WrittenPort, WrittenSpec, WrittenSpecs, WrittenTemplate, WrittenTemplates};
