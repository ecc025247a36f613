//! Laws of canonical trees. The contract of each function is the law.
ghost use Rattle.std.specs.Prelude.{◌≡◌, ◌<◌, map};
ghost use Rattle.mt_cuts.specs.Boxes.{AreCanonicalBoxes};
ghost use Rattle.mt_cuts.specs.Leaves.{fields, full, leaves_of};
ghost use Rattle.mt_cuts.specs.Tree.{value_of};
ghost use Rattle.mt_cuts.specs.View.{tree_of};
ghost use Rattle.mt_cuts.specs.Canonical.{IsCanonical, SameValues};

use crate::cut::Cut;

/// Two canonical trees that give each header the same value are equal.
pub fn equal_trees(devices: u32, a: &Cut, b: &Cut)
    requires some { 0 < devices }
    requires left { IsCanonical devices (tree_of a.now) }
    requires right { IsCanonical devices (tree_of b.now) }
    requires function { SameValues devices (tree_of a.now) (tree_of b.now) }
    ensures { tree_of a.now ≡ tree_of b.now }
{}

/// The leaves of a canonical tree, in order, are the canonical boxes of its function.
pub fn leaves_are_canonical(devices: u32, tree: &Cut)
    requires some { 0 < devices }
    requires canonical { IsCanonical devices (tree_of tree.now) }
    ensures { AreCanonicalBoxes devices (value_of (tree_of tree.now)) (leaves_of (map (full devices) fields) (tree_of tree.now)) }
{}
