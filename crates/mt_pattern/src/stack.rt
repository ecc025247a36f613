//! What is open in a text that is read so far.
ghost use Rattle.std.specs.Prelude.{◌≡◌, [], ◌∷◌, IfOk, MatchOption, OnOk};

use crate::pattern::Pattern;
use std::alloc::{AllocError, Global};
use std::marker::Model;

/// What is open and waits for what follows.
#[derive(Drop)]
pub(crate) enum Open {
    /// `(`.
    Group,
    /// `not`.
    Negation,
    /// A pattern and `and`.
    Both(Pattern),
    /// A pattern and `or`.
    Either(Pattern),
}

/// What is open, the last first.
#[derive(Drop)]
pub(crate) struct Stack {
    items: Vec<Open>,
}

impl Model for Stack {
    ghost use Rattle.std.specs.Prelude.{List, reverse};
    ghost use Rattle.mt_pattern.specs.declared.stack.Open.{Open};

    ghost Value = { List Open };

    ghost use Rattle.mt_pattern.specs.contracts.pattern.Pattern as pattern;
    ghost use Rattle.std.specs.Coded.{codes};

    ghost coded = { Prim.hlevel (codes, pattern.the_row.coded) };

    ghost view = { λ s. reverse s.items.items };
}

impl Stack {
    pub(crate) fn new(alloc: Global) -> Stack
        ensures { result ≡ [] }
    {
        Stack {
            items: Vec::new(alloc),
        }
    }

    pub(crate) fn push(&mut self, opened: Open) -> Result<(), AllocError>
        ensures { OnOk result (self.new ≡ opened ∷ self.old) }
    {
        self.items.push(opened)?;
        Ok(())
    }

    pub(crate) fn pop(&mut self) -> Option<Open>
        ensures { MatchOption result ((self.old ≡ []) × (self.new ≡ [])) (λ last. self.old ≡ last ∷ self.new) }
    {
        self.items.pop()
    }
}
