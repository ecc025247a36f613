//! The links between input ports.
ghost use Rattle.std.specs.Prelude.{◌≡◌, ◌↔◌, ◌<◌, ℕ, true, length, slice_get, Some, IfOk, OnOk, Contains};
ghost use Rattle.mt_wiring.specs.Ways.{IsLeft};
ghost use Rattle.mt_wiring.specs.Pushes.{HasPushed, IsAmong};
ghost use Rattle.mt_wiring.specs.Leaving.{AreLeaving, LeaveAll};
ghost use Rattle.mt_wiring.specs.Numbers.{AreTargets, IsLink, IsLinkBy};

use crate::behavior::Elements;
use crate::leaving::{places_of, wire_at};
use crate::ports::Ports;
use mt_graph::Wire;
use mt_reach::Targets;
use std::alloc::{AllocError, Global};

/// Whether a packet that entered an element by an input can leave it by the output that a wire leaves.
pub fn is_left<E: Elements>(elements: &E, port: (u32, u32), wire: Wire) -> bool
    ensures { (result ≡ true) ↔ IsLeft (E.behavior elements.now).leads port wire }
{
    wire.from == port.0 && elements.leads(port.0, port.1, wire.out)
}

// Adds a link where it is one by this wire.
fn push_link<E: Elements>(
    elements: &E,
    port: (u32, u32),
    wire: Wire,
    link: (usize, usize),
    links: &mut Vec<(usize, usize)>,
) -> Result<(), AllocError>
    ensures { OnOk result (HasPushed links.old.items links.new.items (λ l. IsLeft (E.behavior elements.now).leads port wire × (link ≡ l))) }
{
    if !is_left(elements, port, wire) {
        return Ok(());
    }
    links.push(link)?;
    Ok(())
}

// The number of the port to which the wire at a place leads.
fn target_at(targets: &[usize], place: usize) -> usize
    requires { place < length targets.now }
    ensures { slice_get targets.now place ≡ Some result }
{
    targets[place]
}

// Adds the links from a port, by the wires at some places.
fn push_links<E: Elements>(
    elements: &E,
    wires: &[Wire],
    targets: &[usize],
    places: &[usize],
    number: usize,
    port: (u32, u32),
    links: &mut Vec<(usize, usize)>,
) -> Result<(), AllocError>
    requires targets { length targets.now ≡ length wires.now }
    requires places { LeaveAll wires.now port.0 places.now }
    ensures { OnOk result (HasPushed links.old.items links.new.items (IsAmong (IsLinkBy (E.behavior elements.now).leads targets.now number port) wires.now (length wires.now))) }
{
    for at in 0..places.len() {
        let place = places[at];
        let wire = wire_at(wires, place);
        let target = target_at(targets, place);
        push_link(elements, port, wire, (number, target), links)?;
    }
    Ok(())
}

/// The links between the numbers of ports, by the wires that leave the element of each.
pub fn links_of<E: Elements>(
    alloc: Global,
    elements: &E,
    wires: &[Wire],
    leaving: &[Targets],
    ports: &Ports,
) -> Result<Vec<(usize, usize)>, AllocError>
    requires targets { AreTargets ports.now.keys.keys wires.now ports.now.targets.items }
    requires leaving { AreLeaving wires.now leaving.now }
    ensures { IfOk result (λ v. (a b : ℕ) → Contains v.items (a, b) ↔ IsLink (E.behavior elements.now).leads wires.now ports.now.keys.keys a b) }
{
    let mut links = Vec::new(alloc);
    let keys = ports.keys.as_slice();
    for number in 0..keys.len() {
        push_links(
            elements,
            wires,
            &ports.targets,
            places_of(leaving, keys[number].0),
            number,
            keys[number],
            &mut links,
        )?;
    }
    Ok(links)
}
