//! Terms.
ghost use Rattle.std.specs.Prelude.{◌≡◌, ◌≤◌, length, IfOk};
ghost use Rattle.mt_terms.specs.Terms.{IsPlain, less_by, part_of, passages_of, term_form, value_of};

use mt_packet::{Field, Flow, Header};
use std::alloc::{AllocError, Global};

/// A part of a flow: its source address, source port, destination address or destination port.
#[derive(Clone, Copy, Debug, PartialEq, Eq, PartialOrd, Ord)]
pub enum Part {
    Sa,
    Sp,
    Da,
    Dp,
}

impl Part {
    /// The part of a flow, a number in network order.
    pub fn of(self, flow: &Flow) -> u64
        ensures { result ≡ part_of self flow.now }
    {
        match self {
            Part::Sa => u64::from(flow.sa),
            Part::Sp => u64::from(flow.sp),
            Part::Da => u64::from(flow.da),
            Part::Dp => u64::from(flow.dp),
        }
    }
}

/// What a field of a packet is at some element. Terms are ordered by their variants as they stand here, then by
/// what these hold, one after the other.
#[derive(Debug, Drop, PartialEq, Eq, PartialOrd, Ord)]
pub enum Term {
    /// A number.
    Const(u64),
    /// The value of a field as the frame arrived.
    Entry(Field),
    /// What is left of a term behind an amount, and 0 where the amount is the greater. `Term::less` makes it.
    Less(Box<Term>, u64),
    /// A part of the flow after a passage of a rewriter. The passages on the packet's way are numbered from 0.
    Flow(u32, Part),
}

impl Term {
    /// A term less an amount. Amounts of a difference are added up, so that no difference stands in another.
    pub fn less(alloc: Global, term: Term, amount: u64) -> Result<Term, AllocError>
        ensures form { IfOk result (λ made. term_form made ≡ less_by (term_form term) amount) }
        ensures plain { IsPlain (term_form term) → IfOk result (λ made. IsPlain (term_form made)) }
    {
        match term {
            Term::Less(inner, before) => Ok(Term::Less(inner, before.saturating_add(amount))),
            whole => Ok(Term::Less(Box::new(alloc, whole)?, amount)),
        }
    }

    /// How many passages the term needs: one more than the greatest whose flow it speaks of.
    pub fn passages(&self) -> u64
        ensures { result ≡ passages_of (term_form self.now) }
    {
        match self {
            Term::Const(_) => 0,
            Term::Entry(_) => 0,
            Term::Less(term, _) => term.passages(),
            Term::Flow(passage, _) => u64::from(*passage) + 1,
        }
    }

    /// The value of the term for a frame with this header, behind passages with these flows after them.
    pub fn value(&self, header: &Header, passed: &[Flow]) -> u64
        requires passages { passages_of (term_form self.now) ≤ length passed.now }
        ensures value { result ≡ value_of (term_form self.now) header.now passed.now }
    {
        match self {
            Term::Const(value) => *value,
            Term::Entry(field) => header.get(*field),
            Term::Less(term, amount) => term.value(header, passed).saturating_sub(*amount),
            Term::Flow(passage, part) => part.of(&passed[*passage as usize]),
        }
    }

    /// A copy.
    pub fn copy(&self, alloc: Global) -> Result<Term, AllocError>
        ensures { IfOk result (λ copy. term_form copy ≡ term_form self.now) }
    {
        match self {
            Term::Const(value) => Ok(Term::Const(*value)),
            Term::Entry(field) => Ok(Term::Entry(*field)),
            Term::Less(term, amount) => Ok(Term::Less(
                Box::new(alloc, term.copy(alloc)?)?,
                *amount,
            )),
            Term::Flow(passage, part) => Ok(Term::Flow(*passage, *part)),
        }
    }
}
