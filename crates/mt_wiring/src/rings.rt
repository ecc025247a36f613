//! Rings of input ports.
ghost use Rattle.std.specs.Prelude.{◌≡◌, ◌↔◌, ℕ, ◌+◌, ◌<◌, true, length, IfOk, OnOk, IfSome, IfNone, Contains};
ghost use Rattle.mt_reach.specs.Reach.{targets_of, AreWithin, AreBelow};
ghost use Rattle.mt_wiring.specs.Ways.{OnRing};
ghost use Rattle.mt_wiring.specs.Pushes.{IsAmong, IsLowest, HasAtMost, HasLowered};
ghost use Rattle.mt_wiring.specs.Numbers.{AreClear, IsRingAt, Returns};

use crate::behavior::Elements;
use crate::clearing::{clear_nodes, is_clear};
use crate::leaving::leaving;
use crate::links::links_of;
use crate::lowest::lower;
use crate::ports::ports_of;
use mt_graph::Wire;
use mt_reach::{Targets, graph_of, no_marks, reached};
use std::alloc::{AllocError, Global};

// Whether a node has a link to another.
fn is_linked(graph: &[Targets], from: usize, to: usize) -> bool
    ensures { (result ≡ true) ↔ Contains (targets_of graph.now from) to }
{
    match graph.get(from) {
        Some(targets) => targets.as_slice().contains(&to),
        None => false,
    }
}

// Whether one of some nodes has a link to a node.
fn leads_back(graph: &[Targets], nodes: &[usize], to: usize) -> bool
    ensures { (result ≡ true) ↔ ((n : ℕ) × Contains nodes.now n × Contains (targets_of graph.now n) to) }
{
    for from in nodes {
        if is_linked(graph, *from, to) {
            return true;
        }
    }
    false
}

// Whether a node that may be clear is reached from itself. `seen` has marks from searches before this one.
fn comes_back(
    alloc: Global,
    graph: &[Targets],
    clear: &[bool],
    node: usize,
    seen: &mut Vec<usize>,
) -> Result<bool, AllocError>
    requires within { AreWithin graph.now (length seen.old.items) }
    requires start { node < length seen.old.items }
    requires fresh { AreBelow (node + 1) seen.old.items }
    requires clear { AreClear graph.now clear.now }
    ensures returns { IfOk result (λ back. (back ≡ true) ↔ Returns graph.now node) }
    ensures marks { OnOk result (AreBelow (node + 1 + 1) seen.new.items) }
    ensures len { length seen.new.items ≡ length seen.old.items }
{
    if is_clear(clear, node) {
        return Ok(false);
    }
    let nodes = reached(alloc, graph, node, node + 1, seen)?;
    Ok(leads_back(graph, &nodes, node))
}

// Whether an element at most as high as this one was found.
fn has_at_most(lowest: Option<u32>, element: u32) -> bool
    ensures { (result ≡ true) → HasAtMost lowest element }
{
    match lowest {
        Some(least) => least <= element,
        None => false,
    }
}

// The lowest element so far, or that of one more port where it is lower and the node of the port returns to itself.
fn lower_returning(
    alloc: Global,
    graph: &[Targets],
    clear: &[bool],
    node: usize,
    element: u32,
    lowest: Option<u32>,
    seen: &mut Vec<usize>,
) -> Result<Option<u32>, AllocError>
    requires within { AreWithin graph.now (length seen.old.items) }
    requires start { node < length seen.old.items }
    requires fresh { AreBelow (node + 1) seen.old.items }
    requires clear { AreClear graph.now clear.now }
    ensures lowest { IfOk result (HasLowered (Returns graph.now node) element lowest) }
    ensures marks { OnOk result (AreBelow (node + 1 + 1) seen.new.items) }
    ensures len { length seen.new.items ≡ length seen.old.items }
{
    if has_at_most(lowest, element) {
        return Ok(lowest);
    }
    let back = comes_back(alloc, graph, clear, node, seen)?;
    Ok(lower(back, element, lowest))
}

// The port of lower element: this one where it is not clear, or the first so far.
fn lower_port(
    clear: &[bool],
    ports: &[(u32, u32)],
    number: usize,
    first: Option<usize>,
) -> Option<usize>
    requires number { number < length ports.now }
    requires first { IfSome first (λ n. n < length ports.now) }
    ensures { IfSome result (λ n. n < length ports.now) }
{
    if is_clear(clear, number) {
        return first;
    }
    match first {
        Some(other) if ports[other].0 <= ports[number].0 => first,
        _ => Some(number),
    }
}

// The port of the lowest element among those that are not clear.
fn lowest_port(clear: &[bool], ports: &[(u32, u32)]) -> Option<usize>
    ensures { IfSome result (λ n. n < length ports.now) }
{
    let mut first = None;
    for number in 0..ports.len() {
        first = lower_port(clear, ports, number, first);
    }
    first
}

// The element of this port, where its node returns to itself.
fn first_returning(
    alloc: Global,
    graph: &[Targets],
    clear: &[bool],
    ports: &[(u32, u32)],
) -> Result<Option<u32>, AllocError>
    requires within { AreWithin graph.now (length ports.now) }
    requires clear { AreClear graph.now clear.now }
    ensures { IfOk result (λ first. IfSome first (IsAmong (IsRingAt graph.now) ports.now (length ports.now))) }
{
    let Some(number) = lowest_port(clear, ports) else {
        return Ok(None);
    };
    let mut seen = no_marks(alloc, ports.len())?;
    if !comes_back(alloc, graph, clear, number, &mut seen)? {
        return Ok(None);
    }
    Ok(Some(ports[number].0))
}

// The lowest element of ports whose nodes return to themselves. Behind the first that is found, only ports of lower
// elements are searched from.
fn lowest_returning(
    alloc: Global,
    graph: &[Targets],
    clear: &[bool],
    ports: &[(u32, u32)],
) -> Result<Option<u32>, AllocError>
    requires within { AreWithin graph.now (length ports.now) }
    requires clear { AreClear graph.now clear.now }
    ensures { IfOk result (IsLowest (IsAmong (IsRingAt graph.now) ports.now (length ports.now))) }
{
    let mut lowest = first_returning(alloc, graph, clear, ports)?;
    let mut seen = no_marks(alloc, ports.len())?;
    for number in 0..ports.len() {
        let element = ports[number].0;
        lowest = lower_returning(alloc, graph, clear, number, element, lowest, &mut seen)?;
    }
    Ok(lowest)
}

/// The lowest element that is on a ring: a packet that entered it by one of its inputs can come to this input again. It
/// takes time in the number of ports and of links between them: a walk finds the ports that may be on a ring, and the one of
/// the lowest element among them is searched from first.
pub fn lowest_on_ring<E: Elements>(
    alloc: Global,
    elements: &E,
    wires: &[Wire],
) -> Result<Option<u32>, AllocError>
    ensures none { IfOk result (λ lowest. IfNone lowest ((element : ℕ) → OnRing (E.behavior elements.now).leads wires.now element → ⊥)) }
    ensures found { IfOk result (λ lowest. IfSome lowest (OnRing (E.behavior elements.now).leads wires.now)) }
    ensures lowest { IfOk result (λ lowest. IfSome lowest (λ element. (lower : ℕ) → lower < element → OnRing (E.behavior elements.now).leads wires.now lower → ⊥)) }
{
    let ports = ports_of(alloc, wires)?;
    let leaving = leaving(alloc, wires)?;
    let links = links_of(alloc, elements, wires, &leaving, &ports)?;
    let graph = graph_of(alloc, ports.keys.len(), &links)?;
    let clear = clear_nodes(alloc, &graph)?;
    lowest_returning(alloc, &graph, &clear, ports.keys.as_slice())
}
