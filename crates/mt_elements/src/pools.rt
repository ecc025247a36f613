//! Unequal pools of one address that have a port in common.
ghost use Rattle.std.specs.Prelude.{◌≡◌, ◌↔◌, ◌<◌, ℕ, true, false, length, get_or, IfOk, IfErr};
ghost use Rattle.std.specs.List.{list_any, flat_map};
ghost use Rattle.mt_elements.specs.Overlaps.{pool_number, spec_numbers, pool_numbers, ShareAPort, SharesWith, IsShared, Overlaps};
ghost use Rattle.mt_elements.specs.Told.{IsLowest, Nowhere, Tells};
ghost use Rattle.mt_elements.specs.declared.fault.ChainWhy.TheVariants.{PoolOverlap};

use crate::fault::{ChainWhy, Refusal, told_of};
use crate::layout::Layout;
use mt_graph::Element;
use mt_kinds::{Kind, Pool, SourcePort, Spec, Template};
use std::alloc::{AllocError, Global};

/// Whether two pools are of one address and have a port in common.
fn share_a_port(first: Pool, second: Pool) -> bool
    ensures { (result ≡ true) ↔ ShareAPort first second }
{
    first.address == second.address && first.lo <= second.hi && second.lo <= first.hi
}

/// Whether two pools that are not one have a port in common.
fn shares_with(pools: &[Pool], number: usize, other: usize) -> bool
    requires first { number < length pools.now }
    requires second { other < length pools.now }
    ensures { (result ≡ true) ↔ SharesWith pools.now number other }
{
    if number == other {
        return false;
    }
    share_a_port(pools[number], pools[other])
}

/// Whether a pool has a port in common with another.
fn is_shared(pools: &[Pool], number: usize) -> bool
    requires { number < length pools.now }
    ensures { (result ≡ true) ↔ IsShared pools.now number }
{
    for other in 0..pools.len() {
        if shares_with(pools, number, other) {
            return true;
        }
    }
    false
}

/// For each pool, whether it has a port in common with another.
fn shared_pools(alloc: Global, pools: &[Pool]) -> Result<Vec<bool>, AllocError>
    ensures { IfOk result (λ v. (number : ℕ) → (get_or v.items number false ≡ true) ↔ IsShared pools.now number) }
{
    let mut shared = Vec::new(alloc);
    for number in 0..pools.len() {
        shared.push(is_shared(pools, number))?;
    }
    Ok(shared)
}

/// Whether the pool of a source port is one of those that are marked.
fn is_marked(marks: &[bool], port: SourcePort) -> bool
    ensures { result ≡ list_any (λ number. get_or marks.now number false) (pool_number port) }
{
    match port {
        SourcePort::Pool(number) => match marks.get(number as usize) {
            Some(mark) => *mark,
            None => false,
        },
        _ => false,
    }
}

/// Whether the pool of a specification is one of those that are marked.
fn is_marked_spec(marks: &[bool], spec: Spec) -> bool
    ensures { result ≡ list_any (λ number. get_or marks.now number false) (spec_numbers spec) }
{
    match spec {
        Spec::Pattern(template) => is_marked(marks, template.sp),
        _ => false,
    }
}

/// Whether a pool of some specifications is one of those that are marked.
fn have_marked(marks: &[bool], specs: &[Spec]) -> bool
    ensures { result ≡ list_any (λ number. get_or marks.now number false) (flat_map spec_numbers specs.now) }
{
    let mut rest = specs;
    while let [spec, after @ ..] = rest {
        if is_marked_spec(marks, *spec) {
            return true;
        }
        rest = after;
    }
    false
}

/// Whether a pool of some templates is one of those that are marked.
fn are_marked(marks: &[bool], templates: &[Template]) -> bool
    ensures { result ≡ list_any (λ number. get_or marks.now number false) (flat_map (λ t. pool_number t.sp) templates.now) }
{
    let mut rest = templates;
    while let [template, after @ ..] = rest {
        if is_marked(marks, template.sp) {
            return true;
        }
        rest = after;
    }
    false
}

/// Whether an element holds one of the pools that are marked.
fn holds_marked(marks: &[bool], kind: &Kind) -> bool
    ensures { result ≡ list_any (λ number. get_or marks.now number false) (pool_numbers kind.now) }
{
    match kind {
        Kind::IPRewriter(specs) => have_marked(marks, specs.as_slice()),
        Kind::RoundRobinIPMapper(templates) => are_marked(marks, templates.as_slice()),
        _ => false,
    }
}

/// Refuses the lowest element that holds a pool which has a port in common with another.
pub(crate) fn refuse_overlaps(
    alloc: Global,
    elements: &[Element],
    layout: &Layout,
) -> Result<(), Refusal>
    ensures apart { IfOk result (λ _. Nowhere (Overlaps layout.now)) }
    ensures refused { IfErr result (Tells (IsLowest elements.now PoolOverlap (Overlaps layout.now))) }
{
    let shared = shared_pools(alloc, layout.pools())?;
    for element in 0..layout.kinds().len() {
        if holds_marked(&shared, &layout.kinds()[element]) {
            return Err(told_of(elements, ChainWhy::PoolOverlap, element as u32));
        }
    }
    Ok(())
}
