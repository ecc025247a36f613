//! The product of two trees.
ghost use Rattle.std.specs.Prelude.{◌≡◌, ℕ, true, Some, slice_get, IfOk};
ghost use Rattle.mt_packet.specs.declared.field.Field.{Field};
ghost use Rattle.mt_cuts.specs.Tree.{value_of};
ghost use Rattle.mt_cuts.specs.View.{tree_of};
ghost use Rattle.mt_cuts.specs.Canonical.{IsCanonical, finishes};

use crate::chooser::Chooser;
use crate::cut::Cut;
use crate::merged::merge_behind;
use indexmap::IndexSet;
use std::alloc::{AllocError, Global};

/// The choice of a number for the first two values. A pair that was met before has its number, and another
/// one has the next.
#[derive(Drop)]
pub(crate) struct ByPair {
    pub pairs: IndexSet<(u32, u32)>,
}

impl ByPair {
    /// No pairs.
    pub fn new(alloc: Global) -> ByPair {
        ByPair {
            pairs: IndexSet::new(alloc),
        }
    }
}

impl Chooser for ByPair {
    ghost chooses = { λ it x y z value. slice_get it.pairs.keys value ≡ Some (x, y) };

    fn choose(&mut self, x: u32, y: u32, _z: u32) -> Result<u32, AllocError> {
        let (number, _) = self.pairs.insert_full((x, y))?;
        match u32::try_from(number) {
            Ok(number) => Ok(number),
            Err(_) => Err(AllocError),
        }
    }
}

/// The product of two trees, and the pairs of values that headers have in both, each of them once. A header's
/// value in the product is the index of its pair. Where there are more than 2^32 pairs the answer is want of
/// memory: their table would take over 64 GB.
pub fn product(
    alloc: Global,
    devices: u32,
    a: &Cut,
    b: &Cut,
) -> Result<(Cut, Vec<(u32, u32)>), AllocError>
    requires first { IsCanonical devices (tree_of a.now) }
    requires second { IsCanonical devices (tree_of b.now) }
    ensures canonical { IfOk result (λ r. IsCanonical devices (tree_of r.0)) }
    ensures pairs { IfOk result (λ r. (header : Field → ℕ) → slice_get r.1.items (value_of (tree_of r.0) header)
        ≡ Some (value_of (tree_of a.now) header, value_of (tree_of b.now) header)) }
    ensures apart { IfOk result (λ r. (i j : ℕ) (pair : ℕ × ℕ) → slice_get r.1.items i ≡ Some pair
        → slice_get r.1.items j ≡ Some pair → i ≡ j) }
    ensures finishes { IfOk result (λ r. finishes devices r.0 ≡ true) }
{
    let none = Cut::leaf(0);
    let mut choice = ByPair::new(alloc);
    let cut = merge_behind(alloc, devices, 0, a, b, &none, &mut choice)?;
    let pairs = choice.pairs.as_slice().to_vec(alloc)?;
    Ok((cut, pairs))
}
