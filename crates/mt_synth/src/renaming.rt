//! Other numbers for the values of a tree of cuts.
ghost use Rattle.std.specs.Prelude.{◌≡◌, get_or, if◌then◌else◌, Bool, List, IfOk, Some, ℕ, true};
ghost use Rattle.mt_packet.specs.declared.field.Field.{Field};
ghost use Rattle.mt_cuts.specs.Canonical.{IsCanonical, finishes};
ghost use Rattle.mt_cuts.specs.View.{tree_of};
ghost use Rattle.mt_cuts.specs.Tree.{value_of};
ghost use Rattle.mt_terms.specs.Trees.{TreeForm};
ghost use Rattle.mt_synth.specs.Cuts.{Means, IsCondition, tree_numbered};

use crate::table::Trees;
use mt_cuts::{Combine, Cut, merge};
use std::alloc::{AllocError, Global};

/// The number at the place of the first value.
#[derive(Drop)]
struct Named<'a> {
    names: &'a [u32],
}

impl Combine for Named<'_> {
    ghost use Rattle.std.specs.Prelude.{get_or};

    ghost combined = { λ it x y. get_or it.names.now x 0 };

    fn combine(&self, x: u32, _y: u32) -> u32 {
        match self.names.get(x as usize) {
            Some(name) => *name,
            None => 0,
        }
    }
}

/// The tree with the name of each value in its place.
pub(crate) fn renamed(
    alloc: Global,
    devices: u32,
    cut: &Cut,
    names: &[u32],
) -> Result<Cut, AllocError>
    requires { IsCanonical devices (tree_of cut.now) }
    ensures canonical { IfOk result (λ renamed. IsCanonical devices (tree_of renamed)) }
    ensures finishes { IfOk result (λ renamed. finishes devices renamed ≡ true) }
    ensures value { IfOk result (λ renamed. (header : Field → ℕ) → value_of (tree_of renamed) header ≡ get_or names.now (value_of (tree_of cut.now) header) 0) }
{
    merge(alloc, devices, cut, &Cut::leaf(0), &Named { names })
}

/// Whether the first value is this number, as 1 or 0.
#[derive(Drop)]
struct IsNumber {
    number: u32,
}

impl Combine for IsNumber {
    ghost use Rattle.std.specs.Prelude.{◌==◌, if◌then◌else◌};

    ghost combined = { λ it x y. if x == it.number then 1 else 0 };

    fn combine(&self, x: u32, _y: u32) -> u32 {
        if x == self.number { 1 } else { 0 }
    }
}

/// 1 where a tree of cuts has the number of a tree, and 0 elsewhere: where it has one of two trees, this is where it has
/// the first.
pub(crate) fn where_numbered(
    alloc: Global,
    devices: u32,
    trees: &Trees,
    cut: &Cut,
    number: u32,
) -> Result<Cut, AllocError>
    requires { IsCanonical devices (tree_of cut.now) }
    ensures canonical { IfOk result (λ made. IsCanonical devices (tree_of made)) }
    ensures condition { IfOk result (λ made. (inside outside : TreeForm) (holds : List ℕ → Bool) → (inside ≡ outside → ⊥) → tree_numbered trees.now number ≡ Some inside
        → Means devices trees.now (tree_of cut.now) (λ header. if holds header then Some inside else Some outside) → IsCondition devices (tree_of made) holds) }
{
    // no other number has that tree
    let _ = trees.as_slice();
    merge(alloc, devices, cut, &Cut::leaf(0), &IsNumber { number })
}
