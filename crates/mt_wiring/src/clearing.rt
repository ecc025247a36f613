//! Nodes that are not reached from themselves, told by ranks that fall along no link.
ghost use Rattle.std.specs.Prelude.{◌≡◌, false, true, get_or, IfOk};
ghost use Rattle.mt_wiring.specs.Numbers.{AreClear, NeverFall, Returns};

use crate::components::{component_ranks, least_rank, rank_of, targets_at};
use mt_reach::Targets;
use std::alloc::{AllocError, Global};

/// Whether a node is clear: it is known that it is not reached from itself.
pub fn is_clear(clear: &[bool], node: usize) -> bool
    ensures { result ≡ get_or clear.now node false }
{
    match clear.get(node) {
        Some(known) => *known,
        None => false,
    }
}

// Whether ranks fall along no link.
fn never_fall(graph: &[Targets], ranks: &[usize]) -> bool
    ensures { (result ≡ true) → NeverFall graph.now ranks.now }
{
    for node in 0..graph.len() {
        if least_rank(targets_at(graph, node), ranks) < rank_of(ranks, node) {
            return false;
        }
    }
    true
}

// Whether all links of a node lead to higher ranks.
fn rises(graph: &[Targets], ranks: &[usize], node: usize) -> bool
    requires { NeverFall graph.now ranks.now }
    ensures { (result ≡ true) → Returns graph.now node → ⊥ }
{
    rank_of(ranks, node) < least_rank(targets_at(graph, node), ranks)
}

/// Nodes that are clear: all of whose links lead to another component.
pub fn clear_nodes(alloc: Global, graph: &[Targets]) -> Result<Vec<bool>, AllocError>
    ensures { IfOk result (λ v. AreClear graph.now v.items) }
{
    let ranks = component_ranks(alloc, graph)?;
    let mut clear = Vec::new(alloc);
    if !never_fall(graph, &ranks) {
        return Ok(clear);
    }
    for node in 0..graph.len() {
        clear.push(rises(graph, &ranks, node))?;
    }
    Ok(clear)
}
