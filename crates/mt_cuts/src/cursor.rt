//! A place among the parts of a tree.
ghost use Rattle.std.specs.Prelude.{◌≡◌, [], ◌∷◌, ◌<◌, ℕ, None, length, map, drop, slice_get, Some, if◌then◌else◌};
ghost use Rattle.mt_cuts.specs.Tree.{value_of};
ghost use Rattle.mt_cuts.specs.View.{tree_of, chain};
ghost use Rattle.mt_cuts.specs.Canonical.{IsOrdered};
ghost use Rattle.mt_cuts.specs.Walk.{top, earlier, IsPlace, first_end, ends_at};
ghost use Rattle.mt_cuts.specs.Skip.{ends_by, past};
ghost use Rattle.mt_packet.specs.declared.field.Field.{Field};

use crate::cut::Cut;
use mt_packet::Field;
use std::slice;

/// What is left of the parts of a node, with their ends. A tree that does not cut the field is one part.
#[derive(Clone, Copy)]
pub struct Cursor<'a> {
    pub ends: &'a [u64],
    pub parts: &'a [Cut],
}

impl Cut {
    /// The field that the tree cuts first.
    pub(crate) fn top(&self) -> Option<Field>
        requires { IsOrdered (tree_of self.now) }
        ensures { result ≡ top (tree_of self.now) }
    {
        match self {
            Cut::Class(_) => None,
            Cut::Cuts { field, .. } => Some(*field),
        }
    }

    /// The value of a tree that cuts no field.
    pub(crate) fn class(&self) -> u32
        ensures { top (tree_of self.now) ≡ None → (header : Field → ℕ) → value_of (tree_of self.now) header ≡ result }
    {
        match self {
            Cut::Class(value) => *value,
            Cut::Cuts { .. } => 0,
        }
    }

    /// The parts of the tree at a field that is not behind the one that it cuts first.
    pub(crate) fn parts_at(&self, field: Field) -> Cursor<'_>
        requires { IsOrdered (tree_of self.now) }
        ensures { chain field result.ends.now (map tree_of result.parts.now) ≡ tree_of self.now }
    {
        match self {
            Cut::Class(_) => alone(self),
            Cut::Cuts {
                field: own,
                ends,
                next,
            } => {
                if own.number() == field.number() {
                    Cursor { ends, parts: next }
                } else {
                    alone(self)
                }
            }
        }
    }
}

/// A tree that is the only part.
fn alone(tree: &Cut) -> Cursor<'_>
    ensures ends { result.ends.now ≡ [] }
    ensures parts { result.parts.now ≡ tree.now ∷ [] }
{
    Cursor {
        ends: &[],
        parts: slice::from_ref(tree),
    }
}

impl<'a> Cursor<'a> {
    /// The first part.
    pub fn first(&self) -> &'a Cut
        requires { 0 < length self.now.parts.now }
        ensures { slice_get self.now.parts.now 0 ≡ Some result.now }
    {
        &self.parts[0]
    }

    /// The end of the first part, where the field's last value is known.
    pub fn end(&self, last: u64) -> u64
        requires { IsPlace self.now.ends.now self.now.parts.now }
        ensures { result ≡ first_end last self.now.ends.now self.now.parts.now }
    {
        if self.parts.len() > 1 {
            self.ends[0]
        } else {
            last
        }
    }

    /// The place behind an end that is not above that of the first part.
    pub fn behind(&self, end: u64) -> Cursor<'a>
        requires { IsPlace self.now.ends.now self.now.parts.now }
        ensures ends { result.ends.now ≡ (if ends_at end self.now.ends.now self.now.parts.now then drop 1 self.now.ends.now else self.now.ends.now) }
        ensures parts { result.parts.now ≡ (if ends_at end self.now.ends.now self.now.parts.now then drop 1 self.now.parts.now else self.now.parts.now) }
    {
        if self.parts.len() > 1 && self.ends[0] == end {
            Cursor {
                ends: &self.ends[1..],
                parts: &self.parts[1..],
            }
        } else {
            *self
        }
    }

    /// Whether the first part ends by a value and others follow.
    fn ends_by(&self, value: u64) -> bool
        requires { IsPlace self.now.ends.now self.now.parts.now }
        ensures { result ≡ ends_by value self.now.ends.now self.now.parts.now }
    {
        self.parts.len() > 1 && self.ends[0] <= value
    }

    /// The place behind a value.
    pub fn past(&self, value: u64) -> Cursor<'a>
        requires { IsPlace self.now.ends.now self.now.parts.now }
        ensures ends { result.ends.now ≡ (past value self.now.ends.now self.now.parts.now).0 }
        ensures parts { result.parts.now ≡ (past value self.now.ends.now self.now.parts.now).1 }
    {
        let mut here = *self;
        while here.ends_by(value) {
            here = Cursor {
                ends: &here.ends[1..],
                parts: &here.parts[1..],
            };
        }
        here
    }
}

/// The field of the lower number.
pub fn earlier(field: Option<Field>, other: Option<Field>) -> Option<Field>
    ensures { result ≡ earlier field other }
{
    match field {
        None => other,
        Some(field) => Some(before(field, other)),
    }
}

/// The field of the lower number, where one of them is there.
pub fn before(field: Field, other: Option<Field>) -> Field
    ensures { Some result ≡ earlier (Some field) other }
{
    match other {
        None => field,
        Some(other) => {
            if field.number() <= other.number() {
                field
            } else {
                other
            }
        }
    }
}
