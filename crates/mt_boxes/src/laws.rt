//! Boxes and their headers by field. The contract of each function is the law.
ghost use Rattle.std.specs.Prelude.{◌≤◌, ◌↔◌};
ghost use Rattle.mt_packet.specs.Header.{field_of, greatest_of};
ghost use Rattle.mt_packet.specs.declared.field.Field.{Field};
ghost use Rattle.mt_boxes.specs.Boxes.{IsWithin, InBox, IsBox, header_ranges};
ghost use Rattle.mt_boxes.specs.Visible.{span_of};

use crate::boxes::{HeaderBox, Sides};
use mt_packet::Header;

/// A header is in a box exactly where its value of each field lies in the span of the field.
pub fn in_box_by_field(of: &HeaderBox, header: &Header)
    ensures { InBox of.now.spans header.now ↔ ((field : Field) → IsWithin (span_of of.now.spans field) (field_of header.now field)) }
{
    let _spans = of.spans();
    let _values = header.values();
}

/// A box is formed exactly where the span of each field has a value, and none above the greatest of the
/// field.
pub fn formed_by_field(of: &HeaderBox)
    ensures { IsBox header_ranges of.now.spans ↔ ((field : Field) → ((span_of of.now.spans field).lo ≤ (span_of of.now.spans field).hi)
        × ((span_of of.now.spans field).hi ≤ greatest_of field)) }
{
    let _spans = of.spans();
}
