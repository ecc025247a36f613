//! The index.
ghost use Rattle.std.specs.Prelude.{◌≡◌, ◌<◌, ◌^◌, ◌↔◌, ℕ, List, IfOk, IfSome, None, Contains, length, map};
ghost use Rattle.mt_packet.specs.Header.{field_of};
ghost use Rattle.mt_packet.specs.declared.span.Span.{Span};
ghost use Rattle.mt_cuts.specs.Tree.{value_of};
ghost use Rattle.mt_cuts.specs.View.{tree_of};
ghost use Rattle.mt_cuts.specs.Canonical.{IsCanonical, InDomain};
ghost use Rattle.mt_cuts.specs.Boxes.{AreCanonicalBoxes};
ghost use Rattle.mt_cuts.specs.Leaves.{fields, full, leaves_of};
ghost use Rattle.mt_classes.specs.Partition.{HasClass, IsPartition, IsIndexOf};

use crate::building::{Part, cut_of_classes};
use crate::devices::last_of_all;
use mt_cuts::Cut;
use mt_cuts::laws::leaves_are_canonical;
use mt_packet::Header;
use mt_terms::Classes;
use std::alloc::{AllocError, Global};
use std::marker::Model;

/// Finds the class of a header. A contract sees the number of devices and the tree.
#[derive(Drop)]
pub struct Index {
    devices: u32,
    cut: Cut,
}

impl Model for Index {
    ghost use Rattle.std.specs.Prelude.{ℕ, ◌<◌};
    ghost use Rattle.mt_cuts.specs.declared.cut.Cut.{Cut};
    ghost use Rattle.mt_cuts.specs.View.{tree_of};
    ghost use Rattle.mt_cuts.specs.Canonical.{IsCanonical};

    ghost Value = { ℕ × Cut };

    ghost use Rattle.mt_cuts.specs.contracts.cut.Cut as trees;
    ghost use Rattle.std.specs.Coded.{codes};

    ghost coded = { Prim.hlevel (codes, trees.the_row.coded) };

    ghost view = { λ i. (i.devices, i.cut) };

    ghost invariant = { λ i. (0 < i.devices) × IsCanonical i.devices (tree_of i.cut) };
}

impl Index {
    /// The index of classes whose regions are disjoint and are together all headers of a chain.
    pub fn build(alloc: Global, classes: &Classes) -> Result<Index, AllocError>
        requires few { length classes.now < 2 ^ 32 }
        requires partition { (devices : ℕ) × IsPartition devices (map (λ class. class.0) classes.now) }
        ensures { IfOk result (λ index. IsIndexOf (map (λ class. class.0) classes.now) index.0 (tree_of index.1)) }
    {
        let list = classes.list();
        let devices = last_of_all(list) as u32;
        let all = Part { classes: list };
        let cut = cut_of_classes(alloc, devices, list.len() as u32, 0, &all)?;
        Ok(Index { devices, cut })
    }

    /// The number of the class that has a header of the chain. It asks for no memory.
    pub fn class_of(&self, header: &Header) -> u32
        requires { InDomain self.now.0 (field_of header.now) }
        ensures { (regions : List (List (List Span))) → IsIndexOf regions self.now.0 (tree_of self.now.1) → HasClass regions result header.now }
    {
        let _values = header.values();
        self.cut.value_at(header)
    }

    /// The class of a header of the chain where it is among some classes; `None` where it is not. It asks for no
    /// memory.
    pub fn class_among(&self, some: &[u32], header: &Header) -> Option<u32>
        requires { InDomain self.now.0 (field_of header.now) }
        ensures found { (regions : List (List (List Span))) → IsIndexOf regions self.now.0 (tree_of self.now.1)
            → IfSome result (λ number. Contains some.now number × HasClass regions number header.now) }
        ensures none { (regions : List (List (List Span))) → IsIndexOf regions self.now.0 (tree_of self.now.1)
            → (result ≡ None) ↔ ((number : ℕ) → Contains some.now number → HasClass regions number header.now → ⊥) }
    {
        let class = self.class_of(header);
        if some.contains(&class) {
            Some(class)
        } else {
            None
        }
    }

    /// The number of the chain's devices.
    pub fn devices(&self) -> u32
        ensures { result ≡ self.now.0 }
    {
        self.devices
    }

    /// The tree. Its leaves, in order, with the spans on their ways, are the canonical boxes of the function from
    /// a header to the number of its class.
    pub fn cut(&self) -> &Cut
        ensures tree { result.now ≡ self.now.1 }
        ensures some { 0 < self.now.0 }
        ensures canonical { IsCanonical self.now.0 (tree_of self.now.1) }
        ensures boxes { AreCanonicalBoxes self.now.0 (value_of (tree_of self.now.1)) (leaves_of (map (full self.now.0) fields) (tree_of self.now.1)) }
    {
        leaves_are_canonical(self.devices, &self.cut);
        &self.cut
    }
}
