//! Sets of headers, and of visible headers, as boxes.
ghost use Rattle.std.specs.Prelude.{◌≡◌, ◌↔◌, ◌++◌, [], ◌∷◌, List, ℕ, IsTrue, OnOk, OnErr, map};
ghost use Rattle.mt_boxes.specs.Boxes.{InBox, IsIn, IsBox, IsRegion, header_ranges, visible_ranges};

use crate::boxes::{HeaderBox, VisibleBox, is_apart};
use crate::spans::are_within;
use mt_packet::Header;
use std::alloc::{AllocError, Global};
use std::marker::Model;

/// A set of headers: boxes in order, of which no two have a header in common. A contract sees the list of
/// the boxes, each as its list of spans.
#[derive(Drop)]
pub struct Region {
    boxes: Vec<HeaderBox>,
}

impl Model for Region {
    ghost use Rattle.std.specs.Prelude.{List, map};
    ghost use Rattle.mt_packet.specs.declared.span.Span.{Span};
    ghost use Rattle.mt_boxes.specs.Boxes.{IsRegion, header_ranges};

    ghost Value = { List (List Span) };

    ghost view = { λ r. map (λ of. of.spans) r.boxes.items };

    ghost invariant = { λ r. IsRegion header_ranges (map (λ of. of.spans) r.boxes.items) };
}

impl Region {
    /// The region with no header.
    pub fn new(alloc: Global) -> Region
        ensures { result ≡ [] }
    {
        Region {
            boxes: Vec::new(alloc),
        }
    }

    /// The region of boxes that are apart.
    pub(crate) fn of(boxes: Vec<HeaderBox>) -> Region
        requires { IsRegion header_ranges (map (λ of. of.spans) boxes.items) }
        ensures { result ≡ map (λ of. of.spans) boxes.items }
    {
        Region { boxes }
    }

    /// The boxes in order.
    pub fn boxes(&self) -> &[HeaderBox]
        ensures boxes { map (λ of. of.spans) result.now ≡ self.now }
        ensures region { IsRegion header_ranges self.now }
    {
        self.boxes.as_slice()
    }

    /// Whether no header of a box is in the region.
    pub fn is_apart_from(&self, of: &HeaderBox) -> bool
        ensures { IsTrue result ↔ ((header : List ℕ) → InBox of.now.spans header → IsIn self.now header → ⊥) }
    {
        is_apart(of, self.boxes())
    }

    /// Puts a box last. It is formed, as `is_formed` tests, and apart from the region, as `is_apart_from`
    /// tests.
    pub fn add(&mut self, of: HeaderBox) -> Result<(), AllocError>
        requires formed { IsBox header_ranges of.spans }
        requires apart { (header : List ℕ) → InBox of.spans header → IsIn self.old header → ⊥ }
        ensures last { OnOk result (self.new ≡ self.old ++ of.spans ∷ []) }
        ensures as_before { OnErr result (self.new ≡ self.old) }
    {
        self.boxes.push(of)?;
        Ok(())
    }
}

/// Whether a header is in a region.
pub fn holds(region: &Region, header: &Header) -> bool
    ensures { IsTrue result ↔ IsIn region.now header.now }
{
    for of in region.boxes() {
        if are_within(&of.spans, header.values()) {
            return true;
        }
    }
    false
}

/// A set of visible headers: boxes in order, of which no two have a visible header in common. A contract
/// sees the list of the boxes, each as its list of spans.
#[derive(Drop)]
pub struct VisibleRegion {
    boxes: Vec<VisibleBox>,
}

impl Model for VisibleRegion {
    ghost use Rattle.std.specs.Prelude.{List, map};
    ghost use Rattle.mt_packet.specs.declared.span.Span.{Span};
    ghost use Rattle.mt_boxes.specs.Boxes.{IsRegion, visible_ranges};

    ghost Value = { List (List Span) };

    ghost view = { λ r. map (λ of. of.spans) r.boxes.items };

    ghost invariant = { λ r. IsRegion visible_ranges (map (λ of. of.spans) r.boxes.items) };
}

impl VisibleRegion {
    /// The region with no visible header.
    pub fn new(alloc: Global) -> VisibleRegion
        ensures { result ≡ [] }
    {
        VisibleRegion {
            boxes: Vec::new(alloc),
        }
    }

    /// The region of boxes that are apart.
    pub(crate) fn of(boxes: Vec<VisibleBox>) -> VisibleRegion
        requires { IsRegion visible_ranges (map (λ of. of.spans) boxes.items) }
        ensures { result ≡ map (λ of. of.spans) boxes.items }
    {
        VisibleRegion { boxes }
    }

    /// The boxes in order.
    pub fn boxes(&self) -> &[VisibleBox]
        ensures boxes { map (λ of. of.spans) result.now ≡ self.now }
        ensures region { IsRegion visible_ranges self.now }
    {
        self.boxes.as_slice()
    }

    /// Whether no visible header of a box is in the region.
    pub fn is_apart_from(&self, of: &VisibleBox) -> bool
        ensures { IsTrue result ↔ ((visible : List ℕ) → InBox of.now.spans visible → IsIn self.now visible → ⊥) }
    {
        is_apart(of, self.boxes())
    }

    /// Puts a box last. It is formed, as `is_formed` tests, and apart from the region, as `is_apart_from`
    /// tests.
    pub fn add(&mut self, of: VisibleBox) -> Result<(), AllocError>
        requires formed { IsBox visible_ranges of.spans }
        requires apart { (visible : List ℕ) → InBox of.spans visible → IsIn self.old visible → ⊥ }
        ensures last { OnOk result (self.new ≡ self.old ++ of.spans ∷ []) }
        ensures as_before { OnErr result (self.new ≡ self.old) }
    {
        self.boxes.push(of)?;
        Ok(())
    }
}
