//! What a filter and a classifier of IP packets find for a header.
ghost use Rattle.std.specs.Prelude.{◌≡◌, ◌<◌, length, position, IfSome};
ghost use Rattle.mt_chain.specs.Filter.{holds_on, action_on};

use mt_kinds::{FilterAction, Rule};
use mt_packet::Header;
use mt_pattern::{Pattern, holds};

/// What the first rule says whose pattern holds; where none does, the packet is denied.
#[tactic(auto, unfolding(crate::specs::Filter::action_on))]
pub(crate) fn action(rules: &[Rule], header: &Header) -> FilterAction
    ensures { result ≡ action_on header.now rules.now }
{
    let mut rest = rules;
    while let [rule, after @ ..] = rest {
        if holds(&rule.pattern, header) {
            return rule.action;
        }
        rest = after;
    }
    FilterAction::Deny
}

/// The number of the first pattern that holds.
pub(crate) fn first_ip_pattern(patterns: &[Pattern], header: &Header) -> Option<usize>
    ensures first { result ≡ position (holds_on header.now) patterns.now }
    ensures within { IfSome result (λ n. n < length patterns.now) }
{
    patterns.iter().position(|pattern| holds(pattern, header))
}
