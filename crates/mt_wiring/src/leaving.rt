//! The wires by the element that they leave.
ghost use Rattle.std.specs.Prelude.{◌≡◌, ◌≤◌, ◌<◌, ℕ, length, slice_get, Some, IfOk, OnOk};
ghost use Rattle.std.specs.List.{Contains};
ghost use Rattle.mt_reach.specs.Reach.{targets_of};
ghost use Rattle.mt_wiring.specs.Leaving.{IsExit, AreLeaving, LeaveAll};

use mt_graph::Wire;
use mt_reach::{Targets, graph_of};
use std::alloc::{AllocError, Global};

// For each wire the element that it leaves, and its place.
fn exits_of(alloc: Global, wires: &[Wire]) -> Result<Vec<(usize, usize)>, AllocError>
    ensures only { IfOk result (λ v. (element place : ℕ) → Contains v.items (element, place) → IsExit wires.now element place) }
    ensures all { IfOk result (λ v. (element place : ℕ) → IsExit wires.now element place → Contains v.items (element, place)) }
{
    let mut exits = Vec::new(alloc);
    for at in 0..wires.len() {
        exits.push((wires[at].from as usize, at))?;
    }
    Ok(exits)
}

// A number above those of all elements that wires leave, and at least that of the wires.
fn count_of(wires: &[Wire]) -> usize
    ensures wires { length wires.now ≤ result }
    ensures elements { (element place : ℕ) → IsExit wires.now element place → element < result }
{
    let mut count = wires.len();
    for at in 0..wires.len() {
        count = count.max(wires[at].from as usize + 1);
    }
    count
}

/// For each element up to the greatest that a wire leaves, the places of the wires that leave it.
pub fn leaving(alloc: Global, wires: &[Wire]) -> Result<Vec<Targets>, AllocError>
    ensures { IfOk result (λ v. AreLeaving wires.now v.items) }
{
    let exits = exits_of(alloc, wires)?;
    graph_of(alloc, count_of(wires), &exits)
}

/// The places of the wires that leave an element.
pub fn places_of(leaving: &[Targets], element: u32) -> &[usize]
    ensures { result.now ≡ targets_of leaving.now element }
{
    match leaving.get(element as usize) {
        Some(places) => places.as_slice(),
        None => &[],
    }
}

/// The wire at a place.
pub fn wire_at(wires: &[Wire], place: usize) -> Wire
    requires { place < length wires.now }
    ensures { slice_get wires.now place ≡ Some result }
{
    wires[place]
}
