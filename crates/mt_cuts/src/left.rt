//! The parts of a tree that is taken apart.
ghost use Rattle.std.specs.Prelude.{◌≡◌, ℕ, true, false, [], ◌∷◌, IfOk, OnOk, map, drop, slice_get, Some, ◌==◌, if◌then◌else◌};
ghost use Rattle.mt_packet.specs.declared.field.Field.{Field};
ghost use Rattle.mt_cuts.specs.declared.cut.Cut.{Cut};
ghost use Rattle.mt_cuts.specs.Tree.{value_of};
ghost use Rattle.mt_cuts.specs.View.{tree_of, chain};
ghost use Rattle.mt_cuts.specs.Canonical.{IsOrdered, IsRest, finishes, all_true};
ghost use Rattle.mt_cuts.specs.Walk.{IsPlace, first_end};
ghost use Rattle.mt_cuts.specs.Skip.{ends_by, past};

use crate::copies::copied;
use crate::cut::Cut;
use mt_packet::Field;
use std::alloc::{AllocError, Global};
use std::collections::VecDeque;

/// What is left of the parts of a node that is owned, with their ends. A tree that does not cut the field is
/// one part.
#[derive(Drop)]
pub struct Left {
    pub ends: VecDeque<u64>,
    pub parts: VecDeque<Cut>,
}

impl Left {
    /// The parts of a tree at a field that is not behind the one that it cuts first.
    pub fn of(alloc: Global, tree: Cut, field: Field) -> Result<Left, AllocError>
        requires { IsOrdered (tree_of tree) }
        ensures parts { IfOk result (λ left. chain field left.ends.items (map tree_of left.parts.items) ≡ tree_of tree) }
        ensures finishes { (devices : ℕ) → finishes devices tree ≡ true
            → IfOk result (λ left. all_true (map (finishes devices) left.parts.items) ≡ true) }
    {
        match tree {
            Cut::Class(value) => Left::alone(alloc, Cut::Class(value)),
            Cut::Cuts {
                field: own,
                ends,
                next,
            } => {
                if own.number() != field.number() {
                    return Left::alone(
                        alloc,
                        Cut::Cuts {
                            field: own,
                            ends,
                            next,
                        },
                    );
                }
                Ok(Left {
                    ends: VecDeque::from_vec(ends),
                    parts: VecDeque::from_vec(next),
                })
            }
        }
    }

    /// A tree that is the only part.
    fn alone(alloc: Global, tree: Cut) -> Result<Left, AllocError>
        ensures ends { IfOk result (λ left. left.ends.items ≡ []) }
        ensures parts { IfOk result (λ left. left.parts.items ≡ tree ∷ []) }
    {
        let mut parts = Vec::new(alloc);
        parts.push(tree)?;
        Ok(Left {
            ends: VecDeque::new(alloc),
            parts: VecDeque::from_vec(parts),
        })
    }

    /// The end of the first part, where the field's last value is known.
    pub fn end(&self, last: u64) -> u64
        requires { IsPlace self.now.ends.items self.now.parts.items }
        ensures { result ≡ first_end last self.now.ends.items self.now.parts.items }
    {
        if self.parts.len() > 1 {
            self.ends[0]
        } else {
            last
        }
    }

    /// Whether the first part ends by a value and others follow.
    fn ends_by(&self, value: u64) -> bool
        requires { IsPlace self.now.ends.items self.now.parts.items }
        ensures { result ≡ ends_by value self.now.ends.items self.now.parts.items }
    {
        self.parts.len() > 1 && self.ends[0] <= value
    }

    /// Goes on behind a value.
    fn pass(&mut self, value: u64)
        requires { IsPlace self.old.ends.items self.old.parts.items }
        ensures ends { self.new.ends.items ≡ (past value self.old.ends.items self.old.parts.items).0 }
        ensures parts { self.new.parts.items ≡ (past value self.old.ends.items self.old.parts.items).1 }
    {
        while self.ends_by(value) {
            let _ = self.ends.pop_front();
            let _ = self.parts.pop_front();
        }
    }

    /// Goes on behind an end, and returns the first part, unless nothing is wanted of it. A part that ends
    /// there is moved out, and one that goes on is copied.
    pub fn take(
        &mut self,
        alloc: Global,
        devices: u32,
        settled: usize,
        end: u64,
        last: u64,
        is_passed: bool,
    ) -> Result<Cut, AllocError>
        requires place { IsPlace self.old.ends.items self.old.parts.items }
        requires rest { (part : Cut) → slice_get self.old.parts.items 0 ≡ Some part → IsRest devices settled 0 (tree_of part) }
        requires finished { all_true (map (finishes devices) self.old.parts.items) ≡ true }
        ensures ends { OnOk result (self.new.ends.items ≡ (if is_passed then (past end self.old.ends.items self.old.parts.items).0
            else if first_end last self.old.ends.items self.old.parts.items == end then drop 1 self.old.ends.items else self.old.ends.items)) }
        ensures parts { OnOk result (self.new.parts.items ≡ (if is_passed then (past end self.old.ends.items self.old.parts.items).1
            else if first_end last self.old.ends.items self.old.parts.items == end then drop 1 self.old.parts.items else self.old.parts.items)) }
        ensures canonical { IfOk result (λ tree. IsRest devices settled 0 (tree_of tree)) }
        ensures value { is_passed ≡ false → (part : Cut) → slice_get self.old.parts.items 0 ≡ Some part
            → IfOk result (λ tree. (header : Field → ℕ) → value_of (tree_of tree) header ≡ value_of (tree_of part) header) }
        ensures finishes { IfOk result (λ tree. finishes devices tree ≡ true) }
    {
        if is_passed {
            self.pass(end);
            return Ok(Cut::leaf(0));
        }
        if self.end(last) != end {
            return copied(alloc, devices, settled, &self.parts[0]);
        }
        let _ = self.ends.pop_front();
        match self.parts.pop_front() {
            Some(part) => Ok(part),
            None => Ok(Cut::leaf(0)),
        }
    }
}
