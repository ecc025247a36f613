//! Conditions that are one value for all headers.
ghost use Rattle.std.specs.Prelude.{◌≡◌, ◌≢◌, ℕ, true};
ghost use Rattle.mt_packet.specs.declared.field.Field.{Field};
ghost use Rattle.mt_cuts.specs.Tree.{value_of};
ghost use Rattle.mt_cuts.specs.View.{tree_of};

use crate::cut::Cut;

impl Cut {
    /// Whether it is 1 for all headers.
    pub(crate) fn holds(&self) -> bool
        ensures { result ≡ true → (header : Field → ℕ) → value_of (tree_of self.now) header ≡ 1 }
    {
        match self {
            Cut::Class(value) => *value == 1,
            Cut::Cuts { .. } => false,
        }
    }

    /// Whether it is one other value for all headers.
    pub(crate) fn fails(&self) -> bool
        ensures { result ≡ true → (header : Field → ℕ) → value_of (tree_of self.now) header ≢ 1 }
    {
        match self {
            Cut::Class(value) => *value != 1,
            Cut::Cuts { .. } => false,
        }
    }
}
