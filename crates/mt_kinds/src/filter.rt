//! The arguments of `IPFilter` and `IPClassifier`.
ghost use Rattle.std.specs.Prelude.{◌≡◌, ◌<◌, ◌^◌, length, IfOk, IfSome, option_map};
ghost use Rattle.std.specs.List.{All};
ghost use Rattle.mt_lists.specs.Options.{each};
ghost use Rattle.mt_kinds.specs.Outputs.{ActionInRange, RuleInRange};
ghost use Rattle.mt_kinds.specs.Filters.{action_of, ip_pattern_of, rule_at, rule_of, rules_of, ip_patterns_of};

use crate::argument::GREATEST_OUTPUT;
use crate::rule::{FilterAction, IPPatterns, Rule, Rules};
use mt_pattern::{Pattern, PatternFault};
use mt_text::{Text, index_of, number_up_to};
use std::alloc::{AllocError, Global};

/// An action: `allow`, `deny`, `drop` or the number of an output.
#[tactic(auto, unfolding(crate::specs::Filters::action_of))]
fn action(word: &[u8]) -> Option<FilterAction>
    ensures value { result ≡ action_of word.now }
    ensures range { IfSome result ActionInRange }
{
    if word == b"allow".as_slice() {
        Some(FilterAction::Out(0))
    } else if word == b"deny".as_slice() || word == b"drop".as_slice() {
        Some(FilterAction::Deny)
    } else {
        let out = number_up_to(GREATEST_OUTPUT, word)?;
        Some(FilterAction::Out(out as u32))
    }
}

/// The pattern that an argument is.
#[tactic(auto, unfolding(crate::specs::Filters::ip_pattern_of))]
fn ip_pattern(alloc: Global, argument: &[u8]) -> Result<Option<Pattern>, AllocError>
    ensures { IfOk result (λ found. found ≡ ip_pattern_of argument.now) }
{
    match Pattern::parse(alloc, argument) {
        Ok(pattern) => Ok(Some(pattern)),
        Err(PatternFault::Bad(_)) => Ok(None),
        Err(PatternFault::NoMemory) => Err(AllocError),
    }
}

/// A rule: an action, a space and a pattern.
#[tactic(auto, unfolding(crate::specs::Filters::rule_at))]
fn rule(alloc: Global, argument: &[u8]) -> Result<Option<Rule>, AllocError>
    ensures value { IfOk result (λ found. found ≡ rule_of argument.now) }
    ensures range { IfOk result (λ found. IfSome found RuleInRange) }
{
    let Some(space) = index_of(b' ', argument) else {
        return Ok(None);
    };
    let Some(action) = action(&argument[..space]) else {
        return Ok(None);
    };
    match ip_pattern(alloc, &argument[space + 1..])? {
        Some(pattern) => Ok(Some(Rule { action, pattern })),
        None => Ok(None),
    }
}

/// The rules that arguments are, None where one is none.
fn each_rule(alloc: Global, arguments: &[Text]) -> Result<Option<Vec<Rule>>, AllocError>
    ensures rules { IfOk result (λ found. option_map (λ v. v.items) found ≡ each rule_of arguments.now) }
    ensures range { IfOk result (λ found. IfSome found (λ v. All RuleInRange v.items)) }
{
    let mut rules = Vec::new(alloc);
    for argument in arguments {
        match rule(alloc, argument.bytes())? {
            Some(found) => rules.push(found)?,
            None => return Ok(None),
        }
    }
    Ok(Some(rules))
}

/// The rules that an `IPFilter` has by its arguments. None where an argument is no rule, or there is none.
#[tactic(auto, unfolding(crate::specs::Filters::rules_of))]
pub(crate) fn rules_of(alloc: Global, arguments: &[Text]) -> Result<Option<Rules>, AllocError>
    ensures { IfOk result (λ found. found ≡ rules_of arguments.now) }
{
    if arguments.is_empty() {
        return Ok(None);
    }
    match each_rule(alloc, arguments)? {
        Some(rules) => Ok(Some(Rules::new(rules))),
        None => Ok(None),
    }
}

/// The patterns that arguments are, None where one is none.
fn each_pattern(alloc: Global, arguments: &[Text]) -> Result<Option<Vec<Pattern>>, AllocError>
    ensures patterns { IfOk result (λ found. option_map (λ v. v.items) found ≡ each ip_pattern_of arguments.now) }
    ensures count { IfOk result (λ found. IfSome found (λ v. length v.items ≡ length arguments.now)) }
{
    let mut patterns = Vec::new(alloc);
    for argument in arguments {
        match ip_pattern(alloc, argument.bytes())? {
            Some(found) => patterns.push(found)?,
            None => return Ok(None),
        }
    }
    Ok(Some(patterns))
}

/// The patterns that an `IPClassifier` has by its arguments. None where an argument is no pattern, or there
/// is none.
#[tactic(auto, unfolding(crate::specs::Filters::ip_patterns_of))]
pub(crate) fn ip_patterns_of(
    alloc: Global,
    arguments: &[Text],
) -> Result<Option<IPPatterns>, AllocError>
    requires { length arguments.now < 2 ^ 32 }
    ensures { IfOk result (λ found. found ≡ ip_patterns_of arguments.now) }
{
    if arguments.is_empty() {
        return Ok(None);
    }
    match each_pattern(alloc, arguments)? {
        Some(patterns) => Ok(Some(IPPatterns::new(patterns))),
        None => Ok(None),
    }
}
