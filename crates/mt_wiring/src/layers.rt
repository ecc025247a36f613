//! The layers at which elements are reached.
ghost use Rattle.std.specs.Prelude.{◌≡◌, ◌↔◌, ℕ, ◌<◌, true, length, IfOk, OnOk, IfSome, IfNone, Contains};
ghost use Rattle.mt_wiring.specs.Ways.{Reached, Clashes};
ghost use Rattle.mt_wiring.specs.Pushes.{HasPushed, IsAmong, IsLowest};
ghost use Rattle.mt_wiring.specs.Leaving.{AreLeaving};
ghost use Rattle.mt_wiring.specs.Numbers.{Grows};
ghost use Rattle.mt_wiring.specs.States.{EntersBy, GoesOnBy, ClashesAt};
ghost use Rattle.mt_wiring.specs.declared.layers.State.{State as TheState};

use crate::behavior::Elements;
use crate::leaving::{leaving, places_of, wire_at};
use crate::links::is_left;
use crate::lowest::lower;
use indexmap::IndexSet;
use mt_graph::Wire;
use mt_packet::Layer;
use mt_reach::Targets;
use std::alloc::{AllocError, Global};

/// A packet of a layer comes to an input of an element. No layer is hashed, since `Layer` has no hash.
#[derive(Clone, Copy, PartialEq, Eq)]
#[derive_where(Hash)]
pub struct State {
    pub element: u32,
    pub input: u32,
    #[derive_where(skip(Hash))]
    pub layer: Layer,
}

// Adds a state where it is wanted and not there.
fn insert(states: &mut IndexSet<State>, wanted: bool, state: State) -> Result<(), AllocError>
    ensures pushed { OnOk result (HasPushed states.old.keys states.new.keys (λ s. (wanted ≡ true) × (state ≡ s))) }
    ensures grows { OnOk result (Grows states.old.keys states.new.keys) }
{
    if wanted {
        states.insert(state)?;
    }
    Ok(())
}

// The states in which packets enter the chain.
fn entered<E: Elements>(
    alloc: Global,
    elements: &E,
    wires: &[Wire],
) -> Result<IndexSet<State>, AllocError>
    ensures { IfOk result (λ v. (s : TheState) → Contains v.keys s ↔ IsAmong (λ k. EntersBy (E.behavior elements.now)) wires.now (length wires.now) s) }
{
    let mut states = IndexSet::new(alloc);
    for at in 0..wires.len() {
        let wire = wires[at];
        let state = State {
            element: wire.to,
            input: wire.into,
            layer: Layer::Frame,
        };
        insert(&mut states, elements.enters(wire.from), state)?;
    }
    Ok(states)
}

// Adds the states in which packets go on from a state, by the wires that leave its element.
fn push_onward<E: Elements>(
    elements: &E,
    wires: &[Wire],
    leaving: &[Targets],
    from: State,
    states: &mut IndexSet<State>,
) -> Result<(), AllocError>
    requires { AreLeaving wires.now leaving.now }
    ensures pushed { OnOk result (HasPushed states.old.keys states.new.keys (IsAmong (λ k. GoesOnBy (E.behavior elements.now) from) wires.now (length wires.now))) }
    ensures grows { OnOk result (Grows states.old.keys states.new.keys) }
{
    if !elements.takes(from.element, from.layer) {
        return Ok(());
    }
    let places = places_of(leaving, from.element);
    for at in 0..places.len() {
        let wire = wire_at(wires, places[at]);
        let state = State {
            element: wire.to,
            input: wire.into,
            layer: elements.layer_behind(from.element, from.layer, wire.out),
        };
        insert(
            states,
            is_left(elements, (from.element, from.input), wire),
            state,
        )?;
    }
    Ok(())
}

// The states in which packets come to elements.
fn states_reached<E: Elements>(
    alloc: Global,
    elements: &E,
    wires: &[Wire],
) -> Result<IndexSet<State>, AllocError>
    ensures { IfOk result (λ v. (s : TheState) → Contains v.keys s ↔ Reached (E.behavior elements.now) wires.now (s.element, s.input) s.layer) }
{
    let leaving = leaving(alloc, wires)?;
    let mut states = entered(alloc, elements, wires)?;
    let mut at = 0;
    while at < states.len() {
        let state = states.as_slice()[at];
        push_onward(elements, wires, &leaving, state, &mut states)?;
        at += 1;
    }
    Ok(states)
}

// The lowest element that does not take the layer of one of some states.
fn lowest_refusing<E: Elements>(elements: &E, states: &[State]) -> Option<u32>
    ensures { IsLowest (IsAmong (λ k. ClashesAt (E.behavior elements.now)) states.now (length states.now)) result }
{
    let mut lowest = None;
    for at in 0..states.len() {
        let state = states[at];
        let refuses = !elements.takes(state.element, state.layer);
        lowest = lower(refuses, state.element, lowest);
    }
    lowest
}

/// The lowest element that is reached at a layer which it does not take. It takes time in the number of pairs of an
/// input port and a layer that are reached, each times the number of wires that leave its element.
pub fn lowest_clash<E: Elements>(
    alloc: Global,
    elements: &E,
    wires: &[Wire],
) -> Result<Option<u32>, AllocError>
    ensures none { IfOk result (λ lowest. IfNone lowest ((element : ℕ) → Clashes (E.behavior elements.now) wires.now element → ⊥)) }
    ensures found { IfOk result (λ lowest. IfSome lowest (Clashes (E.behavior elements.now) wires.now)) }
    ensures lowest { IfOk result (λ lowest. IfSome lowest (λ element. (lower : ℕ) → lower < element → Clashes (E.behavior elements.now) wires.now lower → ⊥)) }
{
    let states = states_reached(alloc, elements, wires)?;
    Ok(lowest_refusing(elements, states.as_slice()))
}
