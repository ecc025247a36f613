//! What two boxes have in common.
ghost use Rattle.std.specs.Prelude.{◌≡◌, ◌↔◌, ℕ, List, IsSome, IfSome, length, map, option_map};
ghost use Rattle.mt_packet.specs.Header.{fields};
ghost use Rattle.mt_boxes.specs.Boxes.{InBox, IsBox, IsHeader, header_ranges, full};
ghost use Rattle.mt_boxes.specs.Parts.{commons, met};

use crate::boxes::HeaderBox;
use crate::spans::{common, do_meet};
use mt_packet::{FIELDS, Field, HEADER_FIELDS, Span};

/// The headers of both boxes; `None` exactly where no header is in both. A box may have spans without a
/// number, and spans that go past the ranges of their fields.
pub fn meet(a: &HeaderBox, b: &HeaderBox) -> Option<HeaderBox>
    ensures some { IsSome result ↔ ((header : List ℕ) × IsHeader header × InBox a.now.spans header × InBox b.now.spans header) }
    ensures headers { IfSome result (λ of. (header : List ℕ) → IsHeader header → InBox of.spans header ↔ (InBox a.now.spans header × InBox b.now.spans header)) }
    ensures formed { IfSome result (λ of. IsBox header_ranges of.spans) }
{
    let of_headers = common_box(&all_headers(), a)?;
    common_box(&of_headers, b)
}

/// What two boxes have in common.
pub(crate) fn common_box(a: &HeaderBox, b: &HeaderBox) -> Option<HeaderBox>
    ensures met { option_map (λ of. of.spans) result ≡ met a.now.spans b.now.spans }
    ensures as_many { length a.now.spans ≡ length b.now.spans }
{
    if do_meet(&a.spans, &b.spans) {
        Some(common_spans(a, b))
    } else {
        None
    }
}

/// The common spans of two boxes.
fn common_spans(a: &HeaderBox, b: &HeaderBox) -> HeaderBox
    ensures { result.spans ≡ commons a.now.spans b.now.spans }
{
    let mut spans = a.spans;
    for at in 0..HEADER_FIELDS {
        spans[at] = common(spans[at], b.spans[at]);
    }
    HeaderBox { spans }
}

/// The box of all headers.
fn all_headers() -> HeaderBox
    ensures { result.spans ≡ map full fields }
{
    let mut spans = [Span { lo: 0, hi: 0 }; HEADER_FIELDS];
    write_full(&mut spans, &FIELDS);
    HeaderBox { spans }
}

/// Writes the full spans of fields, one after the other.
fn write_full(spans: &mut [Span], fields: &[Field])
    requires { length spans.old ≡ length fields.now }
    ensures { spans.new ≡ map full fields.now }
{
    for (at, field) in fields.iter().enumerate() {
        spans[at] = Span {
            lo: 0,
            hi: field.greatest(),
        };
    }
}
