//! Why a capture could not be read to its end.
use thiserror::Error;

/// What ends a capture early. An offset is that of the record's first byte in the file, from 0.
#[derive(Clone, Copy, Debug, PartialEq, Eq, Error)]
pub enum PcapFault {
    /// A read of the file failed.
    #[error("ReadFault")]
    ReadFault,
    /// The file has fewer than 24 bytes, or begins with none of the four magic numbers.
    #[error("NotPcap")]
    NotPcap,
    /// The low 16 bits of the link type are these and not 1, Ethernet.
    #[error("WrongLink {0}")]
    WrongLink(u16),
    /// The record at this offset has a fraction of a second or more, or more than 262,144 captured
    /// bytes.
    #[error("BadRecord {0}")]
    BadRecord(u64),
    /// The file ends inside the record at this offset.
    #[error("Torn {0}")]
    Torn(u64),
    /// Memory ran out.
    #[error("NoMemory")]
    NoMemory,
}
