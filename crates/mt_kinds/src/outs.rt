//! Sets of outputs, each from 0 to 511.
ghost use Rattle.std.specs.Prelude.{◌≡◌, ℕ, false, ◌||◌, get_or, [], ◌∷◌, IfOk};
ghost use Rattle.mt_kinds.specs.Outputs.{IsOutput};
ghost use Rattle.mt_kinds.specs.Ports.{is_in};

use std::alloc::{AllocError, Global};
use std::marker::Model;

/// A set of outputs. A contract sees it as a table: the truth value at each output tells whether it is one.
#[derive(Drop)]
pub struct Outs {
    table: Vec<bool>,
}

impl Model for Outs {
    ghost use Rattle.std.specs.Prelude.{◌≡◌, List, Bool, length};

    ghost Value = { List Bool };

    ghost view = { λ outs. outs.table.items };

    ghost invariant = { λ outs. length outs.table.items ≡ 512 };
}

impl Outs {
    /// No output.
    pub fn none(alloc: Global) -> Result<Outs, AllocError>
        ensures { IfOk result (λ outs. (out : ℕ) → get_or outs out false ≡ false) }
    {
        let table = vec![in alloc; false; 512]?;
        Ok(Outs { table })
    }

    /// Whether an output is one of them.
    pub fn has(&self, out: u32) -> bool
        ensures { result ≡ get_or self.now out false }
    {
        match self.table.get(out as usize) {
            Some(is_one) => *is_one,
            None => false,
        }
    }

    /// Adds an output.
    pub fn add(&mut self, out: u32)
        requires { IsOutput out }
        ensures { (other : ℕ) → get_or self.new other false ≡ (get_or self.old other false || is_in other (out ∷ [])) }
    {
        self.table[out as usize] = true;
    }

    /// Adds all outputs of another set.
    pub fn join(&mut self, more: &Outs)
        ensures { (other : ℕ) → get_or self.new other false ≡ (get_or self.old other false || get_or more.now other false) }
    {
        for out in 0..512 {
            if more.table[out] {
                self.table[out] = true;
            }
        }
    }
}
