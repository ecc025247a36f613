//! Whether two trees are equal.
ghost use Rattle.std.specs.Prelude.{◌≡◌, ◌↔◌, ◌<◌, IsTrue, All, map, length};
ghost use Rattle.mt_cuts.specs.View.{tree_of};
ghost use Rattle.mt_cuts.specs.Canonical.{IsOrdered, IsCanonical, SameValues};

use crate::cut::Cut;
use mt_packet::Field;

/// Whether two trees are one function of the headers of a chain with so many devices. Two canonical trees are
/// one function exactly where they are equal, so no header is looked at.
pub fn is_same_function(devices: u32, a: &Cut, b: &Cut) -> bool
    requires some { 0 < devices }
    requires left { IsCanonical devices (tree_of a.now) }
    requires right { IsCanonical devices (tree_of b.now) }
    ensures tree { IsTrue result ↔ (tree_of a.now ≡ tree_of b.now) }
    ensures function { IsTrue result ↔ SameValues devices (tree_of a.now) (tree_of b.now) }
{
    is_same(a, b)
}

/// Whether two trees are equal.
#[cycle(same)]
pub(crate) fn is_same(a: &Cut, b: &Cut) -> bool
    requires left { IsOrdered (tree_of a.now) }
    requires right { IsOrdered (tree_of b.now) }
    ensures { IsTrue result ↔ (tree_of a.now ≡ tree_of b.now) }
{
    match a {
        Cut::Class(value) => match b {
            Cut::Class(other) => *value == *other,
            Cut::Cuts { .. } => false,
        },
        Cut::Cuts { field, ends, next } => match b {
            Cut::Class(_) => false,
            Cut::Cuts {
                field: other_field,
                ends: other_ends,
                next: other_next,
            } => {
                if next.len() != other_next.len() {
                    return false;
                }
                let cuts = next.len() - 1;
                if !is_cut_alike(*field, &ends[..cuts], *other_field, &other_ends[..cuts]) {
                    return false;
                }
                are_same(next, other_next)
            }
        },
    }
}

/// Whether the trees of two lists are equal, one by one.
#[cycle(same)]
fn are_same(a: &[Cut], b: &[Cut]) -> bool
    requires left { All (λ tree. IsOrdered (tree_of tree)) a.now }
    requires right { All (λ tree. IsOrdered (tree_of tree)) b.now }
    requires as_many { length a.now ≡ length b.now }
    ensures { IsTrue result ↔ (map tree_of a.now ≡ map tree_of b.now) }
{
    for i in 0..a.len() {
        if !is_same(&a[i], &b[i]) {
            return false;
        }
    }
    true
}

/// Whether two nodes cut the same field at the same ends.
fn is_cut_alike(field: Field, ends: &[u64], other_field: Field, other_ends: &[u64]) -> bool
    ensures { IsTrue result ↔ ((field ≡ other_field) × (ends.now ≡ other_ends.now)) }
{
    field.number() == other_field.number() && ends == other_ends
}
