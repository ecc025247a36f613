//! The classes of a cut tree whose values are numbers of trees.
ghost use Rattle.std.specs.Prelude.{◌≡◌, ◌<◌, ◌≤◌, ◌++◌, [], ◌∷◌, ℕ, List, Some, IfOk, IfErr, OnOk, length, map, slice_get, slice_set};
ghost use Rattle.mt_packet.specs.declared.field.Field.{Field};
ghost use Rattle.mt_packet.specs.declared.span.Span.{Span};
ghost use Rattle.mt_boxes.specs.Boxes.{InBox, IsIn, IsBox, header_ranges};
ghost use Rattle.mt_cuts.specs.declared.leaves.Leaf.{Leaf};
ghost use Rattle.mt_cuts.specs.Tree.{value_of};
ghost use Rattle.mt_cuts.specs.View.{tree_of};
ghost use Rattle.mt_cuts.specs.Canonical.{IsCanonical, InDomain};
ghost use Rattle.mt_terms.specs.declared.tree.Tree.{Tree};
ghost use Rattle.mt_terms.specs.Trees.{tree_form};
ghost use Rattle.mt_synth.specs.Numbering.{IsNumbering};
ghost use Rattle.mt_synth.specs.Classes.{AreClasses, IsFaultOf, tree_at, class_form};
ghost use Rattle.mt_synth.specs.Collecting.{AreCollected, AreApart};

use crate::fault::SynthFault;
use crate::numbering::{Numbering, number_leaves};
use mt_boxes::{HeaderBox, Region};
use mt_cuts::{Cut, Leaf};
use mt_terms::{Classes, Tree};
use std::alloc::{AllocError, Global};

/// Classes without a header, with the trees of these numbers.
fn without_boxes(
    alloc: Global,
    order: &[u32],
    trees: &[Tree],
) -> Result<Vec<(Region, Tree)>, AllocError>
    requires named { (number value : ℕ) → slice_get order.now number ≡ Some value → value < length trees.now }
    ensures { IfOk result (λ classes. AreCollected trees.now order.now [] (map class_form classes.items)) }
{
    let mut classes = Vec::with_capacity(alloc, order.len())?;
    let mut rest = order;
    while let [value, after @ ..] = rest {
        classes.push((Region::new(alloc), trees[*value as usize].copy(alloc)?))?;
        rest = after;
    }
    Ok(classes)
}

/// Puts the box of a leaf into the region of a class.
fn add_box(classes: &mut Vec<(Region, Tree)>, number: usize, leaf: &Leaf) -> Result<(), AllocError>
    requires there { number < length classes.old.items }
    requires formed { IsBox header_ranges leaf.now.spans }
    requires apart { (region : List (List Span)) (tree : Tree) → slice_get classes.old.items number ≡ Some (region, tree)
        → (header : List ℕ) → InBox leaf.now.spans header → IsIn region header → ⊥ }
    ensures { OnOk result ((region : List (List Span)) (tree : Tree) → slice_get classes.old.items number ≡ Some (region, tree)
        → classes.new.items ≡ slice_set classes.old.items number (region ++ leaf.now.spans ∷ [], tree)) }
{
    let (region, _) = &mut classes[number];
    region.add(HeaderBox { spans: leaf.spans })
}

/// Classes with the box of each leaf in the region of the class that its value is numbered as.
fn collected(
    alloc: Global,
    made: &Numbering,
    leaves: &[Leaf],
    trees: &[Tree],
) -> Result<Vec<(Region, Tree)>, AllocError>
    requires numbering { IsNumbering (map (λ leaf. leaf.value) leaves.now) made.now.numbers.items made.now.order.items }
    requires named { (at : ℕ) (leaf : Leaf) → slice_get leaves.now at ≡ Some leaf → leaf.value < length trees.now }
    requires formed { (at : ℕ) (leaf : Leaf) → slice_get leaves.now at ≡ Some leaf → IsBox header_ranges leaf.spans }
    requires apart { AreApart leaves.now }
    ensures { IfOk result (λ classes. AreCollected trees.now made.now.order.items leaves.now (map class_form classes.items)) }
{
    let mut classes = without_boxes(alloc, &made.order, trees)?;
    let mut rest = leaves;
    while let [leaf, after @ ..] = rest {
        if let Some(number) = made.numbers[leaf.value as usize] {
            add_box(&mut classes, number as usize, leaf)?;
        }
        rest = after;
    }
    Ok(classes)
}

/// The classes of a chain, where a cut tree gives each header the number of its tree. They are numbered by
/// their least headers, which is the order in which the leaves first show their trees.
pub(crate) fn classes_of(
    alloc: Global,
    devices: u32,
    cut: &Cut,
    trees: &[Tree],
) -> Result<Classes, SynthFault>
    requires some { 0 < devices }
    requires few { devices ≤ 32 }
    requires canonical { IsCanonical devices (tree_of cut.now) }
    requires named { (header : Field → ℕ) → InDomain devices header → value_of (tree_of cut.now) header < length trees.now }
    requires apart { (i j : ℕ) (t u : Tree) → slice_get trees.now i ≡ Some t → slice_get trees.now j ≡ Some u → tree_form t ≡ tree_form u → i ≡ j }
    ensures classes { IfOk result (λ classes. AreClasses devices (tree_at (tree_of cut.now) trees.now) (map class_form classes)) }
    ensures few { IfOk result (λ classes. length classes < 65536) }
    ensures many { IfErr result (λ fault. IsFaultOf devices (tree_at (tree_of cut.now) trees.now) fault) }
{
    let leaves = cut.leaves(alloc, devices)?;
    let made = match number_leaves(alloc, &leaves, trees.len()) {
        Ok(made) => made,
        Err(fault) => return Err(fault),
    };
    let classes = collected(alloc, &made, &leaves, trees)?;
    Ok(Classes::new(classes))
}
