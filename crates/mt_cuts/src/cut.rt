//! A cut tree.
ghost use Rattle.std.specs.Prelude.{◌≡◌, ℕ, true};
ghost use Rattle.mt_cuts.specs.Tree.{class};
ghost use Rattle.mt_cuts.specs.View.{tree_of};
ghost use Rattle.mt_cuts.specs.Canonical.{finishes};

use mt_packet::Field;

/// A function of headers with finitely many values. At a node the field's range is cut at `ends`, which
/// rise and finish with the field's last value; the part at index i is for the values above the end before
/// it and up to `ends[i]`.
#[derive(Debug, Drop)]
pub enum Cut {
    /// The same value for all headers.
    Class(u32),
    /// A part for each span of the field's values.
    Cuts {
        field: Field,
        ends: Vec<u64>,
        next: Vec<Cut>,
    },
}

impl Cut {
    /// The tree that gives all headers one value.
    pub fn leaf(value: u32) -> Cut
        ensures tree { tree_of result ≡ class value }
        ensures finishes { (devices : ℕ) → finishes devices result ≡ true }
    {
        Cut::Class(value)
    }
}
