//! A node that is made part by part.
ghost use Rattle.std.specs.Prelude.{◌≡◌, ℕ, true, [], ◌∷◌, ◌++◌, IfOk, OnOk, length, map};
ghost use Rattle.mt_cuts.specs.View.{tree_of, last_part};
ghost use Rattle.mt_cuts.specs.Canonical.{IsOrdered, last_of, finishes, all_true};
ghost use Rattle.mt_cuts.specs.Walk.{put, Joined};

use crate::cut::Cut;
use crate::same::is_same;
use mt_packet::Field;
use std::alloc::AllocError;

/// The parts of a node so far, but for the one that may go on.
#[derive(Drop)]
pub struct Parts {
    pub ends: Vec<u64>,
    pub next: Vec<Cut>,
}

impl Parts {
    /// Puts a part with its end behind the others.
    pub fn push(&mut self, end: u64, part: Cut) -> Result<(), AllocError>
        ensures ends { OnOk result (self.new.ends.items ≡ self.old.ends.items ++ end ∷ []) }
        ensures parts { OnOk result (self.new.next.items ≡ self.old.next.items ++ part ∷ []) }
    {
        self.ends.push(end)?;
        self.next.push(part)?;
        Ok(())
    }

    /// Goes on from the part up to an end to the part behind it, and returns the part that may go on.
    pub fn join(&mut self, here: Cut, end: u64, part: Cut) -> Result<Cut, AllocError>
        requires left { IsOrdered (tree_of here) }
        requires right { IsOrdered (tree_of part) }
        ensures { IfOk result (λ tree.
            Joined self.old.ends.items self.old.next.items self.new.ends.items self.new.next.items here end part tree) }
    {
        if is_same(&here, &part) {
            return Ok(here);
        }
        self.push(end, here)?;
        Ok(part)
    }

    /// The node of these parts and a last one; the last part alone where it is the only one.
    pub fn finish(self, field: Field, last: u64, here: Cut) -> Result<Cut, AllocError>
        requires as_many { length self.ends.items ≡ length self.next.items }
        requires later { last_part field (tree_of here) ≡ tree_of here }
        ensures tree { IfOk result (λ tree. tree_of tree ≡ put field self.ends.items (map tree_of self.next.items) (tree_of here)) }
        ensures finishes { (devices : ℕ) → last ≡ last_of devices field → all_true (map (finishes devices) self.next.items) ≡ true
            → finishes devices here ≡ true → IfOk result (λ tree. finishes devices tree ≡ true) }
    {
        let mut parts = self;
        if parts.next.is_empty() {
            return Ok(here);
        }
        parts.push(last, here)?;
        Ok(Cut::Cuts {
            field,
            ends: parts.ends,
            next: parts.next,
        })
    }
}
