//! Wires between ports that are there, each output wired once.
ghost use Rattle.std.specs.Prelude.{◌≡◌, ◌<◌, ◌≤◌, ℕ, length, map, IfOk, IfErr, get_or, max, nat_lt};
ghost use Rattle.mt_kinds.specs.Ports.{output_count};
ghost use Rattle.mt_elements.specs.ChainState.{mappers_of, wired_by, wired_of, inputs_of, outputs_of};
ghost use Rattle.mt_elements.specs.Table.{AreCounts};
ghost use Rattle.mt_elements.specs.Wired.{missing_port, AreWired, output_of};
ghost use Rattle.mt_elements.specs.Told.{IsMiswired, Tells};
ghost use Rattle.mt_elements.specs.declared.fault.Refusal.TheVariants.{Fault};

use crate::fault::{ChainFault, ChainWhy, Refusal};
use crate::layout::Layout;
use indexmap::IndexSet;
use mt_graph::Wire;
use mt_kinds::{Kind, input_count, output_count};
use std::alloc::{AllocError, Global};

/// An output of an element.
#[derive(Clone, Copy, PartialEq, Eq, Hash)]
pub(crate) struct Output {
    pub element: u32,
    pub out: u32,
}

/// Raises the count of the element that a wire leaves to one more than its output, where it is lower.
fn raise(counts: &mut Vec<u64>, wire: Wire)
    ensures len { length counts.new.items ≡ length counts.old.items }
    ensures count { (e : ℕ) → e < length counts.old.items → get_or counts.new.items e 0 ≡ max (get_or counts.old.items e 0) (wired_by wire e) }
    ensures few { (e : ℕ) → get_or counts.old.items e 0 ≤ 4294967296 → get_or counts.new.items e 0 ≤ 4294967296 }
{
    let element = wire.from as usize;
    if element < counts.len() {
        counts[element] = counts[element].max(u64::from(wire.out) + 1);
    }
}

/// For each element one more than its greatest output that is wired, 0 where none is.
fn wired_counts(alloc: Global, count: usize, wires: &[Wire]) -> Result<Vec<u64>, AllocError>
    ensures len { IfOk result (λ v. length v.items ≡ count) }
    ensures counts { IfOk result (λ v. (e : ℕ) → e < count → get_or v.items e 0 ≡ wired_of wires.now e) }
    ensures few { IfOk result (λ v. (e : ℕ) → get_or v.items e 0 ≤ 4294967296) }
{
    let mut counts = vec![in alloc; 0; count]?;
    for number in 0..wires.len() {
        raise(&mut counts, wires[number]);
    }
    Ok(counts)
}

/// How many outputs an element has.
fn outputs_in(layout: &Layout, kind: &Kind, wired: u64) -> u64
    requires { wired ≤ 4294967296 }
    ensures value { result ≡ output_count (mappers_of layout.now.kinds) kind.now wired }
    ensures few { result ≤ 4294967296 }
{
    match kind {
        Kind::PaintSwitch => wired,
        _ => u64::from(output_count(layout.mappers(), kind, 0)),
    }
}

/// How many outputs each element has.
pub(crate) fn output_counts(alloc: Global, layout: &Layout) -> Result<Vec<u64>, AllocError>
    ensures { IfOk result (λ v. AreCounts layout.now v.items) }
{
    let wired = wired_counts(alloc, layout.kinds().len(), layout.wires())?;
    let mut counts = Vec::new(alloc);
    for element in 0..layout.kinds().len() {
        let count = outputs_in(layout, &layout.kinds()[element], wired[element]);
        counts.push(count)?;
    }
    Ok(counts)
}

/// Whether an element has an output.
fn has_output(layout: &Layout, outputs: &[u64], element: u32, out: u32) -> bool
    requires { AreCounts layout.now outputs.now }
    ensures { result ≡ nat_lt out (outputs_of layout.now element) }
{
    match outputs.get(element as usize) {
        Some(count) => u64::from(out) < *count,
        None => false,
    }
}

/// Whether an element has an input.
fn has_input(layout: &Layout, element: u32, input: u32) -> bool
    ensures { result ≡ nat_lt input (inputs_of layout.now element) }
{
    match layout.kinds().get(element as usize) {
        Some(kind) => input < input_count(kind),
        None => false,
    }
}

/// The element whose port is not there, where a wire joins one.
fn missing_port(layout: &Layout, outputs: &[u64], wire: Wire) -> Option<u32>
    requires { AreCounts layout.now outputs.now }
    ensures { result ≡ missing_port layout.now wire }
{
    if !has_output(layout, outputs, wire.from, wire.out) {
        return Some(wire.from);
    }
    if !has_input(layout, wire.to, wire.into) {
        return Some(wire.to);
    }
    None
}

/// The outputs that the wires leave, in the order of the wires. Refused is the first wire that joins a port which
/// is not there, or leaves an output that another before it leaves.
pub(crate) fn wired_outputs(
    alloc: Global,
    layout: &Layout,
    outputs: &[u64],
) -> Result<IndexSet<Output>, Refusal>
    requires { AreCounts layout.now outputs.now }
    ensures outputs { IfOk result (λ s. s.keys ≡ map output_of layout.now.wires) }
    ensures wired { IfOk result (λ _. AreWired layout.now) }
    ensures refused { IfErr result (Tells (IsMiswired layout.now)) }
{
    let mut wired = IndexSet::new(alloc);
    for number in 0..layout.wires().len() {
        let wire = layout.wires()[number];
        match missing_port(layout, outputs, wire) {
            Some(element) => return Err(told_at(ChainWhy::NoSuchPort, element, wire)),
            None => {}
        }
        let output = Output {
            element: wire.from,
            out: wire.out,
        };
        let (_, is_new) = wired.insert_full(output)?;
        if !is_new {
            return Err(told_at(ChainWhy::TwiceWired, wire.from, wire));
        }
    }
    Ok(wired)
}

/// A cause at an element, with the line of a wire.
fn told_at(why: ChainWhy, element: u32, wire: Wire) -> Refusal
    ensures { result ≡ Fault (record { why = why; element = element; line = wire.line }) }
{
    Refusal::Fault(ChainFault {
        why,
        element,
        line: wire.line,
    })
}
