//! The number of fields that were written.
ghost use Rattle.std.specs.Prelude.{◌≡◌, ◌+◌, ◌^◌, ◌<◌};

use std::marker::Model;

/// Counts writes of fields. A contract sees the number.
#[derive(Drop)]
pub struct Writes {
    count: u64,
}

impl Model for Writes {
    ghost use Rattle.std.specs.Prelude.{ℕ};

    ghost Value = { ℕ };

    ghost view = { λ w. w.count };
}

impl Writes {
    /// No write yet.
    pub fn new() -> Writes
        ensures { result ≡ 0 }
    {
        Writes { count: 0 }
    }

    /// The number of writes.
    pub fn count(&self) -> u64
        ensures { result ≡ self.now }
    {
        self.count
    }

    /// One write more.
    pub(crate) fn add(&mut self)
        requires { self.old < 2 ^ 63 }
        ensures { self.new ≡ self.old + 1 }
    {
        self.count += 1;
    }
}
