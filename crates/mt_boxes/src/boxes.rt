//! Boxes of headers and of visible headers.
ghost use Rattle.std.specs.Prelude.{◌≡◌, ◌<◌, ◌↔◌, List, ℕ, IsTrue, length, map, slice_set};
ghost use Rattle.mt_packet.specs.declared.span.Span.{Span};
ghost use Rattle.mt_boxes.specs.Boxes.{InBox, IsIn, IsBox, header_ranges, visible_ranges};

use crate::spans::{are_formed, do_meet};
use mt_packet::{FIELDS, HEADER_FIELDS, Span, VISIBLE_FIELDS};

/// The headers whose values lie in a span for each field, by field number.
#[derive(Clone, Copy, Debug, PartialEq, Eq)]
pub struct HeaderBox {
    pub spans: [Span; HEADER_FIELDS],
}

/// The visible headers whose values lie in a span for each visible field, in the order of the visible
/// fields.
#[derive(Clone, Copy, Debug, PartialEq, Eq)]
pub struct VisibleBox {
    pub spans: [Span; VISIBLE_FIELDS],
}

impl HeaderBox {
    /// Whether each span has a value, and none above the greatest of its field.
    #[tactic(auto, unfolding(crate::specs::Boxes::header_ranges))]
    pub fn is_formed(&self) -> bool
        ensures { IsTrue result ↔ IsBox header_ranges self.now.spans }
    {
        are_formed(&self.spans, &FIELDS)
    }
}

impl VisibleBox {
    /// Whether each span has a value, and none above the greatest of its field.
    #[tactic(auto, unfolding(crate::specs::Boxes::visible_ranges))]
    pub fn is_formed(&self) -> bool
        ensures { IsTrue result ↔ IsBox visible_ranges self.now.spans }
    {
        are_formed(&self.spans, &FIELDS[..VISIBLE_FIELDS])
    }
}

/// A box of whatever fields.
pub(crate) trait Sides: Copy {
    ghost sides: { Self → List Span };

    ghost count: { ℕ };

    /// The spans of the fields.
    fn spans(&self) -> &[Span]
        ensures sides { result.now ≡ sides self.now }
        ensures count { length (sides self.now) ≡ count };

    /// The box with another span of one field.
    fn with_span(&self, at: usize, span: Span) -> Self
        requires { at < length (sides self.now) }
        ensures { sides result ≡ slice_set (sides self.now) at span };
}

impl Sides for HeaderBox {
    ghost sides = { λ of. of.spans };

    ghost count = { 24 };

    fn spans(&self) -> &[Span] {
        &self.spans
    }

    fn with_span(&self, at: usize, span: Span) -> HeaderBox {
        let mut made = *self;
        made.spans[at] = span;
        made
    }
}

impl Sides for VisibleBox {
    ghost sides = { λ of. of.spans };

    ghost count = { 13 };

    fn spans(&self) -> &[Span] {
        &self.spans
    }

    fn with_span(&self, at: usize, span: Span) -> VisibleBox {
        let mut made = *self;
        made.spans[at] = span;
        made
    }
}

/// Whether no header is in a box and in one of others.
pub(crate) fn is_apart<B: Sides>(of: &B, boxes: &[B]) -> bool
    ensures { IsTrue result ↔ ((header : List ℕ) → InBox (B.sides of.now) header → IsIn (map B.sides boxes.now) header → ⊥) }
{
    for other in boxes {
        if do_meet(of.spans(), other.spans()) {
            return false;
        }
    }
    true
}
