//! What links between numbered nodes lead to. `reached` gives exactly the nodes that are reached from a node, each
//! once (`specs/Reach.antt`), with marks that serve many searches of one graph: the paths of a configuration, or the
//! search for cycles. Read `reached` first.
#![tactic(auto)]

ghost use Rattle.std.specs.Prelude.{◌≡◌, ◌≢◌, ◌↔◌, ℕ, ◌+◌, ◌++◌, ◌∷◌, [], ◌<◌, ◌≤◌, length, get_or, Contains, IfOk, OnOk};
ghost use Rattle.mt_reach.specs.Reach.{targets_of, Reaches, AreWithin, AreBetween, with_link, linked, AreBelow, unmarked, IsSearch};

use std::alloc::{AllocError, Global};
use std::marker::Model;

/// Where the links of a node lead: the numbers of nodes, from 0. A contract sees their list.
#[derive(Drop)]
pub struct Targets {
    nodes: Vec<usize>,
}

impl Model for Targets {
    ghost use Rattle.std.specs.Prelude.{List, ℕ};

    ghost Value = { List ℕ };

    ghost view = { λ t. t.nodes.items };
}

impl Targets {
    /// These nodes.
    pub fn new(nodes: Vec<usize>) -> Targets
        ensures { result ≡ nodes.items }
    {
        Targets { nodes }
    }

    /// One more node.
    pub fn push(&mut self, node: usize) -> Result<(), AllocError>
        ensures { OnOk result (self.new ≡ self.old ++ node ∷ []) }
    {
        self.nodes.push(node)?;
        Ok(())
    }

    /// The nodes, in their order.
    pub fn as_slice(&self) -> &[usize]
        ensures { result.now ≡ self.now }
    {
        &self.nodes
    }
}

// So many nodes without links.
fn without_links(alloc: Global, count: usize) -> Result<Vec<Targets>, AllocError>
    ensures len { IfOk result (λ v. length v.items ≡ count) }
    ensures none { IfOk result (λ v. (a : ℕ) → targets_of v.items a ≡ []) }
{
    let mut graph = Vec::new(alloc);
    for _number in 0..count {
        graph.push(Targets::new(Vec::new(alloc)))?;
    }
    Ok(graph)
}

// One more link; none where its node is not there.
fn add_link(graph: &mut Vec<Targets>, link: (usize, usize)) -> Result<(), AllocError>
    ensures { OnOk result (graph.new.items ≡ with_link graph.old.items link) }
{
    if link.0 < graph.len() {
        graph[link.0].push(link.1)
    } else {
        Ok(())
    }
}

/// The graph of so many nodes with these links, each from a node to a node: where the links of each node
/// lead.
#[tactic(auto, unfolding(crate::specs::Reach::linked))]
pub fn graph_of(
    alloc: Global,
    count: usize,
    links: &[(usize, usize)],
) -> Result<Vec<Targets>, AllocError>
    requires { AreBetween links.now count }
    ensures links { IfOk result (λ v. (a b : ℕ) → Contains (targets_of v.items a) b ↔ Contains links.now (a, b)) }
    ensures within { IfOk result (λ v. AreWithin v.items count) }
{
    let mut graph = without_links(alloc, count)?;
    let mut rest = links;
    while let [link, after @ ..] = rest {
        add_link(&mut graph, *link)?;
        rest = after;
    }
    Ok(graph)
}

// Where the links of a node lead; nowhere where it is not there.
fn targets_at(graph: &[Targets], node: usize) -> &[usize]
    ensures { result.now ≡ targets_of graph.now node }
{
    match graph.get(node) {
        Some(targets) => targets.as_slice(),
        None => &[],
    }
}

// Follows the links of the node at a place of `order`, and adds the nodes that have not this mark yet.
fn follow(
    graph: &[Targets],
    at: usize,
    mark: usize,
    seen: &mut Vec<usize>,
    order: &mut Vec<usize>,
) -> Result<(), AllocError>
    requires within { AreWithin graph.now (length seen.old.items) }
    requires search { IsSearch graph.now mark at seen.old.items order.old.items }
    requires at { at < length order.old.items }
    ensures search { OnOk result (IsSearch graph.now mark (at + 1) seen.new.items order.new.items) }
    ensures len { length seen.new.items ≡ length seen.old.items }
    ensures first { get_or order.new.items 0 0 ≡ get_or order.old.items 0 0 }
    ensures longer { length order.old.items ≤ length order.new.items }
    ensures cost { OnOk result (unmarked mark seen.new.items + length order.new.items ≡ unmarked mark seen.old.items + length order.old.items) }
{
    let node = order[at];
    for target in targets_at(graph, node) {
        let target = *target;
        if seen[target] != mark {
            order.push(target)?;
            seen[target] = mark;
        }
    }
    Ok(())
}

/// A mark for each of so many nodes, from no search.
pub fn no_marks(alloc: Global, count: usize) -> Result<Vec<usize>, AllocError>
    ensures len { IfOk result (λ v. length v.items ≡ count) }
    ensures fresh { IfOk result (λ v. AreBelow 1 v.items) }
{
    let mut marks = Vec::new(alloc);
    for _number in 0..count {
        marks.push(0)?;
    }
    Ok(marks)
}

/// All nodes that are reached from a node, in the order in which they were found. `seen` has a mark for
/// each node, from searches before this one, all below `mark`; it is left with marks of at most `mark`.
pub fn reached(
    alloc: Global,
    graph: &[Targets],
    start: usize,
    mark: usize,
    seen: &mut Vec<usize>,
) -> Result<Vec<usize>, AllocError>
    requires within { AreWithin graph.now (length seen.old.items) }
    requires start { start < length seen.old.items }
    requires fresh { AreBelow mark seen.old.items }
    ensures sound { IfOk result (λ v. (n : ℕ) → Contains v.items n → Reaches graph.now start n) }
    ensures apart { IfOk result (λ v. (i j : ℕ) → i < j → j < length v.items → get_or v.items i 0 ≢ get_or v.items j 0) }
    ensures complete { IfOk result (λ v. (n : ℕ) → Reaches graph.now start n → Contains v.items n) }
    ensures marks { OnOk result (AreBelow (mark + 1) seen.new.items) }
    ensures len { length seen.new.items ≡ length seen.old.items }
{
    let mut order = Vec::new(alloc);
    order.push(start)?;
    seen[start] = mark;
    let mut at = 0;
    while at < order.len() {
        follow(graph, at, mark, seen, &mut order)?;
        at += 1;
    }
    Ok(order)
}

#[cfg(test)]
mod tests;
