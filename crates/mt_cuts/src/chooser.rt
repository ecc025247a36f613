//! How a merge chooses its values.
ghost use Rattle.std.specs.Prelude.{◌≡◌, ℕ, IfOk, OnOk};

use crate::choice::Choice;
use std::alloc::AllocError;

/// A choice that may learn as it is asked, and keeps to what it chose.
pub(crate) trait Chooser {
    ghost chooses: { Self → ℕ → ℕ → ℕ → ℕ → Type 0 };

    /// The value at a header, of the values of three trees there.
    fn choose(&mut self, x: u32, y: u32, z: u32) -> Result<u32, AllocError>
        ensures value { IfOk result (λ value. chooses self.new x y z value) }
        ensures keeps { OnOk result ((x y z value : ℕ) → chooses self.old x y z value → chooses self.new x y z value) };
}

/// The choice by a function of the three values.
#[derive(Drop)]
pub(crate) struct ByFunction<'a, F: Choice> {
    pub function: &'a F,
}

impl<F: Choice> Chooser for ByFunction<'_, F> {
    ghost chooses = { λ it x y z value. value ≡ F.choice it.function.now x y z };

    fn choose(&mut self, x: u32, y: u32, z: u32) -> Result<u32, AllocError> {
        Ok(self.function.choose(x, y, z))
    }
}
