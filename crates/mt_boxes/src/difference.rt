//! What is in one region and not in another.
ghost use Rattle.std.specs.Prelude.{◌≡◌, ◌↔◌, ◌++◌, [], ◌∷◌, ◌<◌, List, ℕ, IfOk, OnOk, map, length, slice_set};
ghost use Rattle.mt_packet.specs.declared.span.Span.{Span};
ghost use Rattle.mt_boxes.specs.Boxes.{IsIn, span_at};
ghost use Rattle.mt_boxes.specs.Parts.{below_at, above_at, left_of, minus_box, minus_boxes, common};

use crate::boxes::{HeaderBox, Sides};
use crate::region::Region;
use crate::spans::{common, do_meet};
use mt_packet::Span;
use std::alloc::{AllocError, Global};

/// The headers that are in one region and not in another.
pub fn minus(alloc: Global, a: &Region, b: &Region) -> Result<Region, AllocError>
    ensures { IfOk result (λ left. (header : List ℕ) → IsIn left header ↔ (IsIn a.now header × (IsIn b.now header → ⊥))) }
{
    let boxes = minus_boxes(alloc, a.boxes(), b.boxes())?;
    Ok(Region::of(boxes))
}

/// What is left of boxes without each of others.
pub(crate) fn minus_boxes<B: Sides>(
    alloc: Global,
    boxes: &[B],
    others: &[B],
) -> Result<Vec<B>, AllocError>
    ensures { IfOk result (λ left. map B.sides left.items ≡ minus_boxes (map B.sides boxes.now) (map B.sides others.now)) }
{
    let mut left = Vec::from_slice(alloc, boxes)?;
    for cut in others {
        left = minus_box(alloc, &left, cut)?;
    }
    Ok(left)
}

/// What is left of boxes without one box.
fn minus_box<B: Sides>(alloc: Global, boxes: &[B], cut: &B) -> Result<Vec<B>, AllocError>
    ensures { IfOk result (λ left. map B.sides left.items ≡ minus_box (B.sides cut.now) (map B.sides boxes.now)) }
{
    let mut left = Vec::new(alloc);
    for of in boxes {
        push_left(&mut left, of, cut)?;
    }
    Ok(left)
}

/// Puts what is left of a box without another behind others.
fn push_left<B: Sides>(left: &mut Vec<B>, of: &B, cut: &B) -> Result<(), AllocError>
    ensures { OnOk result (map B.sides left.new.items ≡ map B.sides left.old.items ++ left_of (B.sides cut.now) (B.sides of.now)) }
{
    if !do_meet(of.spans(), cut.spans()) {
        left.push(*of)?;
        return Ok(());
    }
    let mut rest = *of;
    for at in 0..cut.spans().len() {
        rest = push_outside(left, &rest, at, cut.spans()[at])?;
    }
    Ok(())
}

/// Puts the parts of a box below and above a span of one field behind others, and returns the part within.
fn push_outside<B: Sides>(left: &mut Vec<B>, of: &B, at: usize, cut: Span) -> Result<B, AllocError>
    requires within { at < length (B.sides of.now) }
    ensures within { IfOk result (λ rest. B.sides rest ≡ slice_set (B.sides of.now) at (common (span_at (B.sides of.now) at) cut)) }
    ensures outside { OnOk result (map B.sides left.new.items ≡ map B.sides left.old.items ++ (below_at (B.sides of.now) at cut ++ above_at (B.sides of.now) at cut)) }
{
    let here = of.spans()[at];
    if here.lo < cut.lo {
        left.push(of.with_span(
            at,
            Span {
                lo: here.lo,
                hi: cut.lo - 1,
            },
        ))?;
    }
    if cut.hi < here.hi {
        left.push(of.with_span(
            at,
            Span {
                lo: cut.hi + 1,
                hi: here.hi,
            },
        ))?;
    }
    Ok(of.with_span(at, common(here, cut)))
}
