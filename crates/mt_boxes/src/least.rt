//! The least header of a region.
ghost use Rattle.std.specs.Prelude.{◌≡◌, ◌↔◌, ℕ, List, IsSome, IfSome, length, true, false};
ghost use Rattle.mt_boxes.specs.Boxes.{IsIn, corner};
ghost use Rattle.mt_boxes.specs.Least.{IsAtMost};

use crate::boxes::HeaderBox;
use crate::region::Region;
use mt_packet::{HEADER_FIELDS, Header, Span};

/// The least header of a region, headers being compared field by field in the order of the fields; `None`
/// exactly where the region has no header.
pub fn least_header(region: &Region) -> Option<Header>
    ensures some { IsSome result ↔ ((header : List ℕ) × IsIn region.now header) }
    ensures found { IfSome result (λ least. IsIn region.now least) }
    ensures least { IfSome result (λ least. (other : List ℕ) → IsIn region.now other → IsAtMost least other) }
{
    let boxes = region.boxes();
    let mut least = corner(boxes.first()?);
    for of in boxes {
        let other = corner(of);
        if is_less(&other, &least) {
            least = other;
        }
    }
    Some(Header::new(least))
}

/// Whether the first field in which two headers differ is less.
fn is_less(values: &[u64], others: &[u64]) -> bool
    requires { length values.now ≡ length others.now }
    ensures less { result ≡ true → IsAtMost values.now others.now }
    ensures not_less { result ≡ false → IsAtMost others.now values.now }
{
    values < others
}

/// The least header of a box.
fn corner(of: &HeaderBox) -> [u64; HEADER_FIELDS]
    ensures { result ≡ corner of.now.spans }
{
    let mut values = [0; HEADER_FIELDS];
    write_lows(&mut values, &of.spans);
    values
}

/// Writes the least values of spans, one after the other.
fn write_lows(values: &mut [u64], spans: &[Span])
    requires { length values.old ≡ length spans.now }
    ensures { values.new ≡ corner spans.now }
{
    for (at, span) in spans.iter().enumerate() {
        values[at] = span.lo;
    }
}
