//! Lists of spans.
ghost use Rattle.std.specs.Prelude.{◌≡◌, ◌↔◌, ◌≤◌, IsTrue, length, map};
ghost use Rattle.mt_packet.specs.Header.{greatest_of};
ghost use Rattle.mt_boxes.specs.Boxes.{InBox, IsBox};
ghost use Rattle.mt_boxes.specs.Parts.{do_meet, common};

use mt_packet::{Field, Span};

/// Whether each value lies in its span.
pub fn are_within(spans: &[Span], values: &[u64]) -> bool
    requires as_many { length spans.now ≡ length values.now }
    ensures { IsTrue result ↔ InBox spans.now values.now }
{
    for at in 0..spans.len() {
        if values[at] < spans[at].lo || spans[at].hi < values[at] {
            return false;
        }
    }
    true
}

/// Whether each span has a value, and none above the greatest of its field.
pub fn are_formed(spans: &[Span], fields: &[Field]) -> bool
    requires as_many { length spans.now ≡ length fields.now }
    ensures { IsTrue result ↔ IsBox (map greatest_of fields.now) spans.now }
{
    for at in 0..spans.len() {
        if !is_formed(spans[at], fields[at].greatest()) {
            return false;
        }
    }
    true
}

/// Whether a span has a value, and none above a last one.
fn is_formed(span: Span, last: u64) -> bool
    ensures { IsTrue result ↔ ((span.lo ≤ span.hi) × (span.hi ≤ last)) }
{
    span.lo <= span.hi && span.hi <= last
}

/// Whether each two spans have a value in common.
pub fn do_meet(a: &[Span], b: &[Span]) -> bool
    requires as_many { length a.now ≡ length b.now }
    ensures { result ≡ do_meet a.now b.now }
{
    for at in 0..a.len() {
        let both = common(a[at], b[at]);
        if both.hi < both.lo {
            return false;
        }
    }
    true
}

/// The values that are in both spans.
pub fn common(a: Span, b: Span) -> Span
    ensures { result ≡ common a b }
{
    Span {
        lo: a.lo.max(b.lo),
        hi: a.hi.min(b.hi),
    }
}
