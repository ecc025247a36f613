//! Copies of trees.
ghost use Rattle.std.specs.Prelude.{◌≡◌, ℕ, true, IfOk};
ghost use Rattle.mt_packet.specs.declared.field.Field.{Field};
ghost use Rattle.mt_cuts.specs.Tree.{value_of};
ghost use Rattle.mt_cuts.specs.View.{tree_of};
ghost use Rattle.mt_cuts.specs.Canonical.{IsRest, finishes};

use crate::choice::Select;
use crate::chooser::ByFunction;
use crate::cut::Cut;
use crate::merged::merge_behind;
use std::alloc::{AllocError, Global};

/// A copy of a tree that cuts none of the first fields.
pub fn copied(alloc: Global, devices: u32, settled: usize, tree: &Cut) -> Result<Cut, AllocError>
    requires { IsRest devices settled 0 (tree_of tree.now) }
    ensures canonical { IfOk result (λ copy. IsRest devices settled 0 (tree_of copy)) }
    ensures value { IfOk result (λ copy. (header : Field → ℕ) → value_of (tree_of copy) header ≡ value_of (tree_of tree.now) header) }
    ensures finishes { IfOk result (λ copy. finishes devices copy ≡ true) }
{
    let none = Cut::leaf(0);
    let mut third = ByFunction { function: &Select };
    merge_behind(alloc, devices, settled, &none, &none, tree, &mut third)
}
