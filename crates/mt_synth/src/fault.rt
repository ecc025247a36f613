//! Why a chain has no classes.
ghost use Rattle.std.specs.Prelude.{◌≡◌};
ghost use Rattle.mt_synth.specs.declared.fault.SynthFault.TheVariants.{NoMemory};

use std::alloc::{AllocError, AllocFailed};
use thiserror::Error;

/// Why a chain has no classes.
#[derive(Clone, Copy, Debug, PartialEq, Eq, Error)]
pub enum SynthFault {
    /// So many classes or more, where numbers are given to one less.
    #[error("TooManyClasses({0})")]
    TooManyClasses(u32),
    /// Memory ran out.
    #[error("NoMemory")]
    NoMemory,
}

impl From<AllocError> for SynthFault {
    ghost from_gives = { λ _ r. r ≡ NoMemory };

    fn from(_e: AllocError) -> SynthFault {
        SynthFault::NoMemory
    }
}

impl<T: Drop> From<AllocFailed<T>> for SynthFault {
    ghost from_gives = { λ _ r. r ≡ NoMemory };

    fn from(_e: AllocFailed<T>) -> SynthFault {
        SynthFault::NoMemory
    }
}
