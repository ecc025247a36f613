//! Captures: the classic libpcap file format, version 2.4, with Ethernet frames. The theorem: bytes stand for
//! one list of records and one end (`laws`), which `whole` reads at once and `Reader` record by record, however
//! the file cuts its reads; `Merge` gives the records of several captures by time, and `Writer` writes records.
//! Read `specs/Format.antt` first, the format as a writer sees it, then `specs/Capture.antt`, `specs/Merge.antt`
//! and `specs/Stream.antt`, then `reader.rt` and `merging.rt`; a caller of a merge also `specs/Opened.antt` and
//! `specs/Merged.antt`, with their laws.
#![tactic(auto)]

mod fault;
mod form;
pub mod laws;
mod merging;
mod reader;
mod reading;
mod writer;
mod writing;

pub use fault::PcapFault;
pub use merging::{Merge, MergeFault, can_merge};
pub use reader::Reader;
pub use reading::{WholeCapture, whole};
pub use writer::{WriteFault, Writer};
pub use writing::{header, record_head};

#[cfg(test)]
mod tests;
