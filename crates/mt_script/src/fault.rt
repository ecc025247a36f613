//! Why a text is no script, and at which line.
use std::alloc::AllocError;
use thiserror::Error;

/// What is wrong with a line of a script. At one line the first of these that is the case is told, in the order
/// `Unknown`, `Missing`, `Extra`, `BadNumber`.
#[derive(Clone, Copy, Debug, PartialEq, Eq, Error)]
pub enum ScriptWhy {
    /// The first word is no command. Case matters.
    #[error("Unknown")]
    Unknown,
    /// An argument that is not one to nine decimal digits, or is below the least number that may stand there.
    #[error("BadNumber")]
    BadNumber,
    /// Fewer arguments than the command has.
    #[error("Missing")]
    Missing,
    /// More arguments than the command has.
    #[error("Extra")]
    Extra,
    /// Memory ran out.
    #[error("NoMemory")]
    NoMemory,
}

/// The first fault of a script.
#[derive(Clone, Copy, Debug, PartialEq, Eq)]
pub struct ScriptFault {
    /// The line, counted from 1. Comment lines and lines without a word count. It is 0 where memory ran out.
    pub line: u32,
    pub why: ScriptWhy,
}

impl From<AllocError> for ScriptFault {
    ghost use Rattle.std.specs.Prelude.{◌≡◌};
    ghost use Rattle.mt_script.specs.declared.fault.ScriptWhy.TheVariants.{NoMemory};

    ghost from_gives = { λ _ fault. fault ≡ record { line = 0; why = NoMemory } };

    fn from(_e: AllocError) -> ScriptFault {
        ScriptFault {
            line: 0,
            why: ScriptWhy::NoMemory,
        }
    }
}
