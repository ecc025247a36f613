//! Why a graph is no chain, and at which element and line.
ghost use Rattle.std.specs.Prelude.{◌≡◌};
ghost use Rattle.mt_elements.specs.Told.{cause_of, line_of, told_of};
ghost use Rattle.mt_elements.specs.declared.fault.Refusal.TheVariants.{Fault, Memory};

use mt_graph::Element;
use mt_kinds::Misread;
use std::alloc::{AllocError, AllocFailed};
use thiserror::Error;

/// What is wrong with a graph. The causes stand in the order in which they are looked for.
#[derive(Clone, Copy, Debug, PartialEq, Eq, Error)]
pub enum ChainWhy {
    /// An element of a class that is none of the classes of elements.
    #[error("UnknownClass")]
    UnknownClass,
    /// An argument of another form than the class takes, a missing or a surplus one; a mapper that does not
    /// stand in the rewriter's scope; a second `FromDevice` of one device.
    #[error("BadArgs")]
    BadArgs,
    /// A wire from an output or to an input that its element does not have.
    #[error("NoSuchPort")]
    NoSuchPort,
    /// A second wire from one output.
    #[error("TwiceWired")]
    TwiceWired,
    /// An output without a wire, where a packet may not be dropped.
    #[error("Unwired")]
    Unwired,
    /// A packet could come to an input a second time.
    #[error("Cycle")]
    Cycle,
    /// Packets reach an element at a layer that it does not take.
    #[error("LayerClash")]
    LayerClash,
    /// Two unequal pools of one address have a port in common.
    #[error("PoolOverlap")]
    PoolOverlap,
    /// No device by which frames enter, or more than 32 devices.
    #[error("NoDevice")]
    NoDevice,
    /// Memory ran out.
    #[error("NoMemory")]
    NoMemory,
}

/// The first fault of a graph: its cause, the element that it is told of, from 0, and a line of the text, from
/// 1: that of the element, or of the wire where the cause is one of wires. Both are 0 where memory ran out.
#[derive(Clone, Copy, Debug, PartialEq, Eq)]
pub struct ChainFault {
    pub why: ChainWhy,
    pub element: u32,
    pub line: u32,
}

/// Why there is no chain.
#[derive(Clone, Copy, Debug, PartialEq, Eq)]
pub(crate) enum Refusal {
    /// The graph has a fault.
    Fault(ChainFault),
    /// Memory ran out.
    Memory,
}

impl From<AllocError> for Refusal {
    ghost from_gives = { λ _ r. r ≡ Memory };

    fn from(_e: AllocError) -> Refusal {
        Refusal::Memory
    }
}

impl<T: Drop> From<AllocFailed<T>> for Refusal {
    ghost from_gives = { λ _ r. r ≡ Memory };

    fn from(_e: AllocFailed<T>) -> Refusal {
        Refusal::Memory
    }
}

/// The cause of an element that says nothing.
pub(crate) fn cause_of(why: Misread) -> ChainWhy
    ensures { result ≡ cause_of why }
{
    match why {
        Misread::UnknownClass => ChainWhy::UnknownClass,
        Misread::BadArgs => ChainWhy::BadArgs,
    }
}

/// The line of an element.
fn line_of(elements: &[Element], number: u32) -> u32
    ensures { result ≡ line_of elements.now number }
{
    match elements.get(number as usize) {
        Some(element) => element.line,
        None => 0,
    }
}

/// A cause at an element, with the element's line.
pub(crate) fn told_of(elements: &[Element], why: ChainWhy, number: u32) -> Refusal
    ensures { result ≡ Fault (told_of elements.now why number) }
{
    Refusal::Fault(ChainFault {
        why,
        element: number,
        line: line_of(elements, number),
    })
}
