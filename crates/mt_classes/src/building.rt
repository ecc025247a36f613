//! The tree of classes. It is made by halves, so that each box is merged into few trees.
ghost use Rattle.std.specs.Prelude.{◌≡◌, ◌<◌, ◌≤◌, ◌+◌, ◌^◌, ◌==◌, ℕ, IfOk, length, map, if◌then◌else◌};
ghost use Rattle.mt_packet.specs.declared.field.Field.{Field};
ghost use Rattle.mt_cuts.specs.Tree.{value_of};
ghost use Rattle.mt_cuts.specs.View.{tree_of};
ghost use Rattle.mt_cuts.specs.Canonical.{IsCanonical, InDomain, is_within};
ghost use Rattle.mt_classes.specs.Parts.{TellsBox, TellsBoxes, TellsClasses};

use mt_boxes::{HeaderBox, Region};
use mt_cuts::{Combine, Cut, last_of, least_of, merge, split};
use mt_packet::{FIELDS, Field, HEADER_FIELDS, Span};
use mt_terms::Tree;
use std::alloc::{AllocError, Global};

/// The first value, unless it is that of no class; the second then.
#[derive(Drop)]
struct FirstOr {
    none: u32,
}

impl Combine for FirstOr {
    ghost combined = { λ it x y. if x == it.none then y else x };

    fn combine(&self, x: u32, y: u32) -> u32 {
        if x == self.none { y } else { x }
    }
}

/// Some of the classes, one after the other.
#[derive(Clone, Copy)]
pub struct Part<'a> {
    pub classes: &'a [(Region, Tree)],
}

/// The tree of classes whose numbers count from a first one; it has the value `none` at a header of no class.
pub fn cut_of_classes(
    alloc: Global,
    devices: u32,
    none: u32,
    first: usize,
    part: &Part<'_>,
) -> Result<Cut, AllocError>
    requires { first + length part.now.classes.now ≤ none }
    ensures canonical { IfOk result (λ cut. IsCanonical devices (tree_of cut)) }
    ensures tells { IfOk result (λ cut. TellsClasses devices first none (map (λ class. class.0) part.now.classes.now) (tree_of cut)) }
{
    let classes = part.classes;
    if classes.is_empty() {
        return Ok(Cut::leaf(none));
    }
    if classes.len() == 1 {
        return cut_of_boxes(alloc, devices, none, first as u32, classes[0].0.boxes());
    }
    let mid = classes.len() / 2;
    let low = Part {
        classes: &classes[..mid],
    };
    let high = Part {
        classes: &classes[mid..],
    };
    let front = cut_of_classes(alloc, devices, none, first, &low)?;
    let back = cut_of_classes(alloc, devices, none, first + mid, &high)?;
    let cut = merge(alloc, devices, &front, &back, &FirstOr { none })?;
    Ok(cut)
}

/// The tree that has the number at the headers of boxes, and `none` at others.
fn cut_of_boxes(
    alloc: Global,
    devices: u32,
    none: u32,
    number: u32,
    boxes: &[HeaderBox],
) -> Result<Cut, AllocError>
    requires { number < none }
    ensures canonical { IfOk result (λ cut. IsCanonical devices (tree_of cut)) }
    ensures tells { IfOk result (λ cut. TellsBoxes devices number none (map (λ of. of.spans) boxes.now) (tree_of cut)) }
{
    if boxes.is_empty() {
        return Ok(Cut::leaf(none));
    }
    if boxes.len() == 1 {
        return cut_of_box(alloc, devices, none, number, &boxes[0]);
    }
    let mid = boxes.len() / 2;
    let front = cut_of_boxes(alloc, devices, none, number, &boxes[..mid])?;
    let back = cut_of_boxes(alloc, devices, none, number, &boxes[mid..])?;
    let cut = merge(alloc, devices, &front, &back, &FirstOr { none })?;
    Ok(cut)
}

/// The tree that has the number at the headers of a box, and `none` at others: field by field, the last first.
fn cut_of_box(
    alloc: Global,
    devices: u32,
    none: u32,
    number: u32,
    of: &HeaderBox,
) -> Result<Cut, AllocError>
    ensures canonical { IfOk result (λ cut. IsCanonical devices (tree_of cut)) }
    ensures tells { IfOk result (λ cut. TellsBox devices number none of.now.spans (tree_of cut)) }
{
    let spans = spans(of);
    let mut cut = Cut::leaf(number);
    let mut at = HEADER_FIELDS;
    while at > 0 {
        at -= 1;
        cut = within(alloc, devices, none, FIELDS[at], spans[at], cut)?;
    }
    Ok(cut)
}

/// The spans of a box.
fn spans(of: &HeaderBox) -> &[Span]
    ensures spans { result.now ≡ of.now.spans }
    ensures whole { length result.now ≡ 24 }
{
    &of.spans
}

/// The tree within a span of a field, and `none` outside. A span of all values cuts nothing.
fn within(
    alloc: Global,
    devices: u32,
    none: u32,
    field: Field,
    span: Span,
    cut: Cut,
) -> Result<Cut, AllocError>
    requires { IsCanonical devices (tree_of cut) }
    ensures canonical { IfOk result (λ made. IsCanonical devices (tree_of made)) }
    ensures value { IfOk result (λ made. (header : Field → ℕ) → InDomain devices header → value_of (tree_of made) header
        ≡ (if is_within span (header field) then value_of (tree_of cut) header else none)) }
{
    if span.lo <= least_of(field) && last_of(devices, field) <= span.hi {
        return Ok(cut);
    }
    split(alloc, devices, field, span, &cut, &Cut::leaf(none))
}
