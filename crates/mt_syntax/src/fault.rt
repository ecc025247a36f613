//! Why a text is no configuration, and at which line and column.
ghost use Rattle.std.specs.Prelude.{◌≡◌, ◌≤◌, ◌==◌, length, count_by};
ghost use Rattle.mt_syntax.specs.Position.{line_of, column_of, located};
ghost use Rattle.mt_syntax.specs.declared.fault.ReadError.TheVariants.{Memory};

use std::alloc::{AllocError, AllocFailed};
use thiserror::Error;

/// What is wrong with a configuration. The first two are faults of reading; the six behind them come when the
/// statements are expanded to a graph (crate `mt_click`), and stand here so that callers find all causes in one type.
#[derive(Clone, Copy, Debug, PartialEq, Eq, Error)]
pub enum ClickWhy {
    /// A byte that begins no token, a comment or an argument text that is not closed.
    #[error("Lex")]
    Lex,
    /// A token with which what precedes begins no configuration.
    #[error("Syntax")]
    Syntax,
    /// A compound class or an element that is declared a second time in its scope.
    #[error("Redeclared")]
    Redeclared,
    /// A `$` name in an argument text that is no parameter of the compound class.
    #[error("UnknownName")]
    UnknownName,
    /// A use with another number of arguments than its compound class has parameters.
    #[error("Arity")]
    Arity,
    /// A connection to a port that the body of the compound class never names.
    #[error("NoPort")]
    NoPort,
    /// A compound class that uses itself.
    #[error("Recursive")]
    Recursive,
    /// A 513th element.
    #[error("TooManyElements")]
    TooManyElements,
    /// Memory ran out.
    #[error("NoMemory")]
    NoMemory,
}

/// The first fault of a text: lines and columns are counted from 1, columns in bytes. Both are 0
/// where memory ran out.
#[derive(Clone, Copy, Debug, PartialEq, Eq)]
pub struct ClickFault {
    pub why: ClickWhy,
    pub line: u32,
    pub column: u32,
}

/// A fault, and the byte of the text at which it stands, counted from 0.
#[derive(Clone, Copy, Debug, PartialEq, Eq)]
pub struct Fault {
    pub why: ClickWhy,
    pub at: usize,
}

/// Why a list of phrases could not be made.
#[derive(Clone, Copy, Debug, PartialEq, Eq)]
pub enum ReadError {
    /// Memory ran out.
    Memory,
    /// The text has a fault.
    Fault(Fault),
}

impl From<AllocError> for ReadError {
    ghost from_gives = { λ _ e. e ≡ Memory };

    fn from(_e: AllocError) -> ReadError {
        ReadError::Memory
    }
}

impl<T: Drop> From<AllocFailed<T>> for ReadError {
    ghost from_gives = { λ _ e. e ≡ Memory };

    fn from(_e: AllocFailed<T>) -> ReadError {
        ReadError::Memory
    }
}

/// The line and the column of a byte of a text, both counted from 1, the column in bytes. A line
/// ends behind its line feed.
pub fn line_and_column(text: &[u8], at: usize) -> (u32, u32)
    requires { length text.now ≤ 1048576 }
    ensures line { result.0 ≡ line_of text.now at }
    ensures column { result.1 ≡ column_of text.now at }
{
    let front = &text[..at.min(text.len())];
    let mut line = 1u32;
    let mut column = 1u32;
    for byte in front {
        if *byte == b'\n' {
            line += 1;
            column = 1;
        } else {
            column += 1;
        }
    }
    (line, column)
}

/// A fault with its line and column.
pub fn fault_in(text: &[u8], fault: Fault) -> ClickFault
    requires { length text.now ≤ 1048576 }
    ensures { result ≡ located text.now fault }
{
    let (line, column) = line_and_column(text, fault.at);
    ClickFault {
        why: fault.why,
        line,
        column,
    }
}

// How many lines end in these bytes.
fn line_feeds(bytes: &[u8]) -> usize
    ensures { result ≡ count_by (λ b. b == 10) bytes.now }
{
    bytes.iter().filter(|b| **b == b'\n').count()
}

/// The line of a byte, where that of another is known: behind it only the bytes between them are looked at.
pub fn line_from(text: &[u8], before: usize, line: u32, at: usize) -> u32
    requires bound { length text.now ≤ 1048576 }
    requires known { line ≡ line_of text.now before }
    ensures { result ≡ line_of text.now at }
{
    if before <= at && at <= text.len() {
        line + line_feeds(&text[before..at]) as u32
    } else {
        let (line, _) = line_and_column(text, at);
        line
    }
}
