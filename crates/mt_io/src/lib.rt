//! The outside, as the rest of Metron sees it: named files that are read and written in pieces.
//!
//! A call of `Files` takes or adds exactly the bytes that it tells, touches no other file, and fails only
//! where a count of failures rose; `Buffered` keeps this over any files. Read `files.rt` first.
#![tactic(auto)]

mod buffer;
mod buffered;
mod copy;
mod entry;
mod files;
mod memory;
mod real;
#[cfg(test)]
mod tests;
mod whole;

pub use buffered::Buffered;
pub use copy::write_all;
pub use entry::Call;
pub use files::{Failed, Files};
pub use memory::MemoryFiles;
pub use real::RealFiles;
pub use std::alloc::AllocError as NoMemory;
pub use whole::{TextFault, read_up_to};
