//! Tests that the header decides, as trees of cuts that are 1 where the test holds and 0 elsewhere.
ghost use Rattle.std.specs.Prelude.{[], ◌≡◌, ◌==◌, ◌-◌, ◌<◌, ◌≤◌, ℕ, false, true, length, map, IfOk, IfSome, IfNone, Some, slice_get};
ghost use Rattle.mt_cuts.specs.Canonical.{IsCanonical, is_within};
ghost use Rattle.mt_cuts.specs.View.{tree_of};
ghost use Rattle.mt_pattern.specs.Meaning.{contains_number};
ghost use Rattle.mt_terms.specs.Terms.{passages_of, term_form, value_of};
ghost use Rattle.mt_synth.specs.Conditions.{IsKnownAs};
ghost use Rattle.mt_synth.specs.Cuts.{IsCondition};

use mt_cuts::{Cut, split};
use mt_packet::{Field, Span};
use mt_terms::Term;
use std::alloc::{AllocError, Global};

/// What a term is that needs no flow.
#[derive(Clone, Copy)]
enum Known {
    /// This number.
    Number(u64),
    /// What is left of a field behind an amount, 0 where the amount is the greater.
    Left(Field, u64),
}

/// What a term is. None where it needs a flow.
fn what_is(term: &Term) -> Option<Known>
    ensures known { IfSome result (λ known. IsKnownAs (term_form term.now) known) }
    ensures unknown { IfNone result (0 < passages_of (term_form term.now)) }
{
    match term {
        Term::Const(value) => Some(Known::Number(*value)),
        Term::Entry(field) => Some(Known::Left(*field, 0)),
        Term::Less(inner, amount) => match what_is(inner)? {
            Known::Number(value) => Some(Known::Number(value.saturating_sub(*amount))),
            Known::Left(field, before) => {
                Some(Known::Left(field, before.saturating_add(*amount)))
            }
        },
        Term::Flow(_, _) => None,
    }
}

/// The values of which a span is left behind an amount.
fn raised(span: Span, amount: u64) -> Span
    ensures { (value : ℕ) → value < 18446744073709551615 → is_within result value ≡ contains_number span (value - amount) }
{
    Span {
        lo: if span.lo == 0 {
            0
        } else {
            span.lo.saturating_add(amount)
        },
        hi: span.hi.saturating_add(amount),
    }
}

/// 1 where a term lies in a span. None where the term needs a flow.
pub(crate) fn condition(
    alloc: Global,
    devices: u32,
    term: &Term,
    span: Span,
) -> Result<Option<Cut>, AllocError>
    ensures canonical { IfOk result (λ found. IfSome found (λ cut. IsCanonical devices (tree_of cut))) }
    ensures known { IfOk result (λ found. IfSome found (λ cut. passages_of (term_form term.now) ≡ 0)) }
    ensures holds { IfOk result (λ found. IfSome found (λ cut. IsCondition devices (tree_of cut) (λ header. contains_number span (value_of (term_form term.now) header [])))) }
    ensures unknown { IfOk result (λ found. IfNone found (0 < passages_of (term_form term.now))) }
{
    match what_is(term) {
        None => Ok(None),
        Some(Known::Number(value)) => {
            let holds = span.lo <= value && value <= span.hi;
            Ok(Some(Cut::leaf(if holds { 1 } else { 0 })))
        }
        Some(Known::Left(field, amount)) => {
            let within = raised(span, amount);
            let cut = split(alloc, devices, field, within, &Cut::leaf(1), &Cut::leaf(0))?;
            Ok(Some(cut))
        }
    }
}

/// Whether a term needs no flow.
pub(crate) fn is_known(term: &Term) -> bool
    ensures { result ≡ (passages_of (term_form term.now) == 0) }
{
    term.passages() == 0
}
