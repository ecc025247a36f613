//! The visible part of a region.
ghost use Rattle.std.specs.Prelude.{◌≡◌, ◌↔◌, ◌++◌, ℕ, List, [], ◌∷◌, IfOk, OnOk, length, map};
ghost use Rattle.mt_packet.specs.Header.{visible_of, visible_fields};
ghost use Rattle.mt_boxes.specs.Boxes.{IsIn};
ghost use Rattle.mt_boxes.specs.Parts.{minus_boxes};
ghost use Rattle.mt_boxes.specs.Visible.{span_of, visible_spans};

use crate::boxes::{HeaderBox, VisibleBox};
use crate::difference::minus_boxes;
use crate::region::{Region, VisibleRegion};
use mt_packet::{FIELDS, Field, Span, VISIBLE_FIELDS};
use std::alloc::{AllocError, Global};
use std::slice;

/// The visible headers of the headers of a region.
pub fn project(alloc: Global, region: &Region) -> Result<VisibleRegion, AllocError>
    ensures { IfOk result (λ seen. (visible : List ℕ) → IsIn seen visible
        ↔ ((header : List ℕ) × IsIn region.now header × (visible_of header ≡ visible))) }
{
    let mut seen = Vec::new(alloc);
    for of in region.boxes() {
        push_unseen(alloc, &mut seen, &visible_part(of))?;
    }
    Ok(VisibleRegion::of(seen))
}

/// Puts what is in a box and in none of others behind them.
fn push_unseen(alloc: Global, seen: &mut Vec<VisibleBox>, of: &VisibleBox) -> Result<(), AllocError>
    ensures { OnOk result (map (λ of. of.spans) seen.new.items
        ≡ map (λ of. of.spans) seen.old.items ++ minus_boxes (of.now.spans ∷ []) (map (λ of. of.spans) seen.old.items)) }
{
    let unseen = minus_boxes(alloc, slice::from_ref(of), seen)?;
    seen.extend_from_slice(&unseen)?;
    Ok(())
}

/// The visible headers of the headers of a box.
fn visible_part(of: &HeaderBox) -> VisibleBox
    ensures { result.spans ≡ visible_spans of.now.spans }
{
    let mut spans = [Span { lo: 0, hi: 0 }; VISIBLE_FIELDS];
    copy_spans(&mut spans, of, &FIELDS[..VISIBLE_FIELDS]);
    VisibleBox { spans }
}

/// Writes the spans of fields of a box, one after the other.
fn copy_spans(spans: &mut [Span], of: &HeaderBox, fields: &[Field])
    requires { length spans.old ≡ length fields.now }
    ensures { spans.new ≡ map (span_of of.now.spans) fields.now }
{
    for (at, field) in fields.iter().enumerate() {
        spans[at] = of.spans[field.number()];
    }
}
