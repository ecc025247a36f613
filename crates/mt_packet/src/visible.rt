//! The part of a header that a switch sees.
ghost use Rattle.std.specs.Prelude.{◌≡◌, ◌≤◌, length, map};
ghost use Rattle.mt_packet.specs.Header.{visible_of, visible_field_of, field_of, greatest_of, IsVisible, InVisibleRanges};
ghost use Rattle.mt_packet.specs.declared.field.Field.{Field};

use crate::field::{Field, HEADER_FIELDS, VISIBLE, VISIBLE_FIELDS};
use crate::header::Header;
use std::marker::Model;

/// The visible part of a header: a value for each visible field, each in its field's range. A contract
/// sees the list of the numbers, in the order of the visible fields.
#[derive(Drop)]
pub struct Visible {
    values: [u64; VISIBLE_FIELDS],
}

impl Model for Visible {
    ghost use Rattle.std.specs.Prelude.{List, ℕ};
    ghost use Rattle.mt_packet.specs.Header.{InVisibleRanges};

    ghost Value = { List ℕ };

    ghost view = { λ v. v.values };

    ghost invariant = { λ v. InVisibleRanges v.values };
}

impl Visible {
    /// The visible header with these values, in the order of the visible fields.
    pub fn new(values: [u64; VISIBLE_FIELDS]) -> Visible
        requires { InVisibleRanges values }
        ensures { result ≡ values }
    {
        Visible { values }
    }

    /// What a switch sees of a header.
    pub fn of(header: &Header) -> Visible
        ensures visible { result ≡ visible_of header.now }
        ensures ranges { InVisibleRanges result }
        ensures same { (field : Field) → IsVisible field → visible_field_of result field ≡ field_of header.now field }
    {
        let mut values = [0; VISIBLE_FIELDS];
        copy_fields(&mut values, header.values(), &VISIBLE);
        Visible { values }
    }

    /// The value of a visible field.
    pub fn get(&self, field: Field) -> u64
        requires { IsVisible field }
        ensures value { result ≡ visible_field_of self.now field }
        ensures range { result ≤ greatest_of field }
    {
        self.values[field.visible_index()]
    }
}

/// Writes the values of fields of a header, one after the other.
fn copy_fields(values: &mut [u64], header: &[u64; HEADER_FIELDS], fields: &[Field])
    requires { length values.old ≡ length fields.now }
    ensures { values.new ≡ map (λ field. field_of header.now field) fields.now }
{
    for (index, field) in fields.iter().enumerate() {
        values[index] = header[field.number()];
    }
}
