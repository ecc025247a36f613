//! Ranks of nodes by their strongly connected components, found in one walk along all links. No contract says that they are
//! right: `clearing` tests them.
ghost use Rattle.std.specs.Prelude.{◌≡◌, ◌≤◌, ℕ, get_or, Contains};
ghost use Rattle.mt_reach.specs.Reach.{targets_of};

use mt_reach::Targets;
use std::alloc::{AllocError, Global};

/// The rank of a node; 0 where it has none.
pub fn rank_of(ranks: &[usize], node: usize) -> usize
    ensures { result ≡ get_or ranks.now node 0 }
{
    match ranks.get(node) {
        Some(rank) => *rank,
        None => 0,
    }
}

/// Where the links of a node lead.
pub fn targets_at(graph: &[Targets], node: usize) -> &[usize]
    ensures { result.now ≡ targets_of graph.now node }
{
    match graph.get(node) {
        Some(targets) => targets.as_slice(),
        None => &[],
    }
}

// The lower of two ranks.
fn lower_rank(rank: usize, least: usize) -> usize
    ensures first { result ≤ rank }
    ensures second { result ≤ least }
{
    if rank < least { rank } else { least }
}

/// The least rank of some nodes; the highest number where there are none.
pub fn least_rank(nodes: &[usize], ranks: &[usize]) -> usize
    ensures { (n : ℕ) → Contains nodes.now n → result ≤ get_or ranks.now n 0 }
{
    let mut least = usize::MAX;
    for node in nodes {
        least = lower_rank(rank_of(ranks, *node), least);
    }
    least
}

// A walk, depth first. The rank of a node is 0 before it is entered, then the place in the walk of an entered node that it
// leads to and that leads to it, and at the end the rank of its component, which is higher than all places.
#[derive(Drop)]
struct Walk {
    ranks: Vec<usize>,
    // nodes that are entered and not done with, each with the link that is followed next
    open: Vec<(usize, usize)>,
    // nodes that are done with, whose components are not
    waiting: Vec<usize>,
    // how many nodes were entered
    entered: usize,
    // the rank of the last component
    rank: usize,
}

fn set_rank(ranks: &mut Vec<usize>, node: usize, rank: usize) {
    if node < ranks.len() {
        ranks[node] = rank;
    }
}

// Opens a node that was not entered yet, at its first link.
fn enter(walk: &mut Walk, node: usize) -> Result<(), AllocError> {
    if node < walk.ranks.len() {
        if walk.ranks[node] == 0 {
            walk.entered = walk.entered.saturating_add(1);
            walk.ranks[node] = walk.entered;
            walk.open.push((node, 0))?;
        }
    }
    Ok(())
}

// The component of the nodes that wait and were entered at a place or behind it.
fn complete(walk: &mut Walk, place: usize) -> Result<(), AllocError> {
    walk.rank = walk.rank.saturating_sub(1);
    for _node in 0..walk.waiting.len() {
        let Some(node) = walk.waiting.pop() else {
            return Ok(());
        };
        if rank_of(&walk.ranks, node) < place {
            walk.waiting.push(node)?;
            return Ok(());
        }
        set_rank(&mut walk.ranks, node, walk.rank);
    }
    Ok(())
}

// Ends a node whose links were all followed. It is the first of its component where they lead to no node of this component
// before it.
fn close(graph: &[Targets], walk: &mut Walk, node: usize) -> Result<(), AllocError> {
    let place = rank_of(&walk.ranks, node);
    let least = least_rank(targets_at(graph, node), &walk.ranks);
    walk.waiting.push(node)?;
    if least < place {
        set_rank(&mut walk.ranks, node, least);
        return Ok(());
    }
    complete(walk, place)
}

// Follows the next link of the last node that is open; false where none is open.
fn step(graph: &[Targets], walk: &mut Walk) -> Result<bool, AllocError> {
    let Some((node, next)) = walk.open.pop() else {
        return Ok(false);
    };
    match targets_at(graph, node).get(next) {
        Some(target) => {
            walk.open.push((node, next + 1))?;
            enter(walk, *target)?;
        }
        None => close(graph, walk, node)?,
    }
    Ok(true)
}

// Walks along all links from a node to nodes that were not entered yet.
fn descend(graph: &[Targets], walk: &mut Walk, start: usize) -> Result<(), AllocError> {
    enter(walk, start)?;
    for _step in 0..u64::MAX {
        if !step(graph, walk)? {
            return Ok(());
        }
    }
    Ok(())
}

/// Ranks of nodes: nodes that lead to one another have the same, and other links lead to higher ranks.
pub fn component_ranks(alloc: Global, graph: &[Targets]) -> Result<Vec<usize>, AllocError> {
    let mut walk = Walk {
        ranks: vec![in alloc; 0; graph.len()]?,
        open: Vec::new(alloc),
        waiting: Vec::new(alloc),
        entered: 0,
        rank: usize::MAX,
    };
    for start in 0..graph.len() {
        descend(graph, &mut walk, start)?;
    }
    Ok(walk.ranks)
}
