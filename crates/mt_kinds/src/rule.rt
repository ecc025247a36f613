//! The rules of a filter, and the patterns of a classifier of IP packets.
ghost use Rattle.std.specs.Prelude.{◌≡◌, ◌<◌, ◌^◌, length};
ghost use Rattle.std.specs.List.{All};
ghost use Rattle.mt_kinds.specs.Outputs.{RuleInRange};

use mt_pattern::Pattern;
use std::marker::Model;

/// What a filter does with a packet.
#[derive(Clone, Copy, Debug, PartialEq, Eq)]
pub enum FilterAction {
    /// Drops it.
    Deny,
    /// Sends it to the output of that number.
    Out(u32),
}

/// A rule of a filter: what it does with packets whose headers the pattern holds for.
#[derive(Drop)]
pub struct Rule {
    /// What is done.
    pub action: FilterAction,
    /// With which packets.
    pub pattern: Pattern,
}

/// The rules of an `IPFilter` in their order; each names an output from 0 to 511, or none. A contract sees the
/// list of them.
#[derive(Drop)]
pub struct Rules {
    list: Vec<Rule>,
}

impl Model for Rules {
    ghost use Rattle.std.specs.Prelude.{List};
    ghost use Rattle.std.specs.List.{All};
    ghost use Rattle.mt_kinds.specs.declared.rule.Rule.{Rule};
    ghost use Rattle.mt_kinds.specs.Outputs.{RuleInRange};

    ghost Value = { List Rule };

    ghost use Rattle.mt_pattern.specs.contracts.pattern.Pattern as pattern;
    ghost use Rattle.std.specs.Coded.{codes};

    ghost coded = { Prim.hlevel (codes, pattern.the_row.coded) };

    ghost view = { λ r. r.list.items };

    ghost invariant = { λ r. All RuleInRange r.list.items };
}

impl Rules {
    /// These rules.
    pub fn new(list: Vec<Rule>) -> Rules
        requires { All RuleInRange list.items }
        ensures { result ≡ list.items }
    {
        Rules { list }
    }

    /// The rules, in their order.
    pub fn as_slice(&self) -> &[Rule]
        ensures rules { result.now ≡ self.now }
        ensures outputs { All RuleInRange self.now }
    {
        &self.list
    }
}

/// The patterns of an `IPClassifier` in their order. A contract sees the list of them.
#[derive(Drop)]
pub struct IPPatterns {
    list: Vec<Pattern>,
}

impl Model for IPPatterns {
    ghost use Rattle.std.specs.Prelude.{List, length, ◌<◌, ◌^◌};
    ghost use Rattle.mt_pattern.specs.declared.pattern.Pattern.{Pattern};

    ghost Value = { List Pattern };

    ghost use Rattle.mt_pattern.specs.contracts.pattern.Pattern as pattern;
    ghost use Rattle.std.specs.Coded.{codes};

    ghost coded = { Prim.hlevel (codes, pattern.the_row.coded) };

    ghost view = { λ p. p.list.items };

    ghost invariant = { λ p. length p.list.items < 2 ^ 32 };
}

impl IPPatterns {
    /// These patterns.
    pub fn new(list: Vec<Pattern>) -> IPPatterns
        requires { length list.items < 2 ^ 32 }
        ensures { result ≡ list.items }
    {
        IPPatterns { list }
    }

    /// The patterns, in their order.
    pub fn as_slice(&self) -> &[Pattern]
        ensures patterns { result.now ≡ self.now }
        ensures count { length self.now < 2 ^ 32 }
    {
        &self.list
    }
}
