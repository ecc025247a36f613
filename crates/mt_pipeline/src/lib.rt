//! A server of a chain, which is to serve the frames of its queue by the trees of their classes on a store of mappings and
//! shares of the pools. What stands here: the context that is made of a chain, the way down a tree with its passages, where
//! ports are taken from a share, and how all of it is taken back. Read `specs/Standing.antt` first, then
//! `specs/Passing.antt`, `specs/Reached.antt` and `specs/Walking.antt`.
#![tactic(auto)]

mod context;
mod journal;
mod opening;
mod passage;
mod ports;
mod resources;
mod ring;
mod server;
mod service;
mod serving;
mod steps;
mod taking_back;
mod tries;
mod walk;

pub use context::Context;
pub use server::{QUEUE, Queued, Server, Turn};
pub use service::Service;
