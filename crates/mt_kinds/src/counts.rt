//! How many outputs arguments name: one more than the greatest.
ghost use Rattle.std.specs.Prelude.{◌≡◌, ◌≤◌, max};
ghost use Rattle.std.specs.List.{All};
ghost use Rattle.mt_kinds.specs.Outputs.{ActionInRange, RuleInRange, HopInRange, TemplateInRange, action_outs, filter_outs, route_outs, template_outs, templates_outs};

use crate::hop::Hop;
use crate::rewriter::Template;
use crate::rule::{FilterAction, Rule};

/// The greater of two numbers.
pub(crate) fn greater(one: u32, other: u32) -> u32
    ensures { result ≡ max one other }
{
    if one < other { other } else { one }
}

/// One more than the output that an action names, 0 where it names none.
fn action_outs(action: FilterAction) -> u32
    requires { ActionInRange action }
    ensures value { result ≡ action_outs action }
    ensures few { result ≤ 512 }
{
    match action {
        FilterAction::Deny => 0,
        FilterAction::Out(number) => number + 1,
    }
}

/// One more than the greatest output that rules name, 0 where they name none.
pub(crate) fn filter_outs(rules: &[Rule]) -> u32
    requires { All RuleInRange rules.now }
    ensures value { result ≡ filter_outs rules.now }
    ensures few { result ≤ 512 }
{
    let mut count = 0;
    for rule in rules {
        count = greater(count, action_outs(rule.action));
    }
    count
}

/// One more than the greatest output that entries of a route table name, 0 where there are none.
pub(crate) fn route_outs(hops: &[Hop]) -> u32
    requires { All HopInRange hops.now }
    ensures value { result ≡ route_outs hops.now }
    ensures few { result ≤ 512 }
{
    let mut count = 0;
    for hop in hops {
        count = greater(count, hop.out + 1);
    }
    count
}

/// One more than the greatest output that a template names.
pub(crate) fn template_outs(template: &Template) -> u32
    requires { TemplateInRange template.now }
    ensures value { result ≡ template_outs template.now }
    ensures few { result ≤ 512 }
{
    greater(template.fout + 1, template.rout + 1)
}

/// One more than the greatest output that templates name, 0 where there are none.
pub(crate) fn templates_outs(templates: &[Template]) -> u32
    requires { All TemplateInRange templates.now }
    ensures value { result ≡ templates_outs templates.now }
    ensures few { result ≤ 512 }
{
    let mut count = 0;
    for template in templates {
        count = greater(count, template_outs(template));
    }
    count
}
