//! One tree within a span of a field, and another outside.
ghost use Rattle.std.specs.Prelude.{◌≡◌, ℕ, true, IfOk, nat_lt, if◌then◌else◌};
ghost use Rattle.mt_packet.specs.declared.field.Field.{Field};
ghost use Rattle.mt_cuts.specs.Tree.{value_of};
ghost use Rattle.mt_cuts.specs.View.{tree_of};
ghost use Rattle.mt_cuts.specs.Canonical.{IsCanonical, InDomain, finishes, is_within};

use crate::choice::Select;
use crate::cut::Cut;
use crate::domain::{last_of, least_of};
use crate::merged::merge_three;
use crate::parts::Parts;
use mt_packet::{Field, Span};
use std::alloc::{AllocError, Global};

/// The tree that is `within` where a field lies in a span, and `outside` elsewhere. A span may go past the
/// field's range, and may have no number, as `lo` above `hi`.
pub fn split(
    alloc: Global,
    devices: u32,
    field: Field,
    span: Span,
    within: &Cut,
    outside: &Cut,
) -> Result<Cut, AllocError>
    requires within { IsCanonical devices (tree_of within.now) }
    requires outside { IsCanonical devices (tree_of outside.now) }
    ensures canonical { IfOk result (λ tree. IsCanonical devices (tree_of tree)) }
    ensures value { IfOk result (λ tree. (header : Field → ℕ) → InDomain devices header → value_of (tree_of tree) header
        ≡ (if is_within span (header field) then value_of (tree_of within.now) header else value_of (tree_of outside.now) header)) }
    ensures finishes { IfOk result (λ tree. finishes devices tree ≡ true) }
{
    let last = last_of(devices, field);
    let before = below(alloc, devices, field, span.lo)?;
    let from = merge_three(alloc, devices, &before, outside, within, &Select)?;
    let upto = below(alloc, devices, field, span.hi.min(last) + 1)?;
    merge_three(alloc, devices, &upto, &from, outside, &Select)
}

/// The tree that is 1 where a field is below a bound, and 0 elsewhere.
fn below(alloc: Global, devices: u32, field: Field, bound: u64) -> Result<Cut, AllocError>
    ensures canonical { IfOk result (λ tree. IsCanonical devices (tree_of tree)) }
    ensures value { IfOk result (λ tree. (header : Field → ℕ) → InDomain devices header → value_of (tree_of tree) header
        ≡ (if nat_lt (header field) bound then 1 else 0)) }
    ensures finishes { IfOk result (λ tree. finishes devices tree ≡ true) }
{
    let last = last_of(devices, field);
    if bound <= least_of(field) {
        return Ok(Cut::leaf(0));
    }
    if last < bound {
        return Ok(Cut::leaf(1));
    }
    let mut parts = Parts {
        ends: Vec::new(alloc),
        next: Vec::new(alloc),
    };
    parts.push(bound - 1, Cut::leaf(1))?;
    parts.finish(field, last, Cut::leaf(0))
}
