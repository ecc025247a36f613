//! Where each output leads, by element and output.
ghost use Rattle.std.specs.Prelude.{◌≡◌, ◌≤◌, true, false, map, position, slice_get, Some, None, IfOk, IfErr, MatchOption};
ghost use Rattle.mt_elements.specs.ChainState.{is_from, next_of, outputs_of};
ghost use Rattle.mt_elements.specs.Wired.{HasOpen, free_at, output_of};
ghost use Rattle.mt_elements.specs.Told.{IsLowest, Nowhere, Tells};
ghost use Rattle.mt_elements.specs.Table.{IsRow, IsTable, AreCounts};
ghost use Rattle.mt_elements.specs.declared.fault.ChainWhy.TheVariants.{Unwired};

use crate::fault::{ChainWhy, Refusal, told_of};
use crate::layout::Layout;
use crate::wires::Output;
use indexmap::IndexSet;
use mt_graph::Element;
use mt_kinds::may_be_open;
use std::alloc::{AllocError, Global};

/// The place of the wire that leaves an output, by the outputs that the wires leave.
fn place_of(layout: &Layout, wired: &IndexSet<Output>, output: Output) -> Option<usize>
    requires { wired.now.keys ≡ map output_of layout.now.wires }
    ensures { result ≡ position (is_from output.element output.out) layout.now.wires }
{
    wired.get_index_of(&output)
}

/// Where an output leads, by the outputs that the wires leave.
fn next_of(layout: &Layout, wired: &IndexSet<Output>, output: Output) -> Option<(u32, u32)>
    requires { wired.now.keys ≡ map output_of layout.now.wires }
    ensures { result ≡ next_of layout.now output.element output.out }
{
    match place_of(layout, wired, output) {
        Some(place) => {
            let wire = layout.wires().get(place)?;
            Some((wire.to, wire.into))
        }
        None => None,
    }
}

/// Whether an output of an element may lead nowhere.
fn is_free(layout: &Layout, output: Output) -> bool
    ensures { result ≡ free_at (slice_get layout.now.kinds output.element) output.out }
{
    match layout.kinds().get(output.element as usize) {
        Some(kind) => may_be_open(kind, output.out),
        None => false,
    }
}

/// Whether an output of an element leads nowhere, though it has to lead on.
fn is_open(layout: &Layout, next: Option<(u32, u32)>, output: Output) -> bool
    ensures open { result ≡ true → (next ≡ None) × (free_at (slice_get layout.now.kinds output.element) output.out ≡ false) }
    ensures closed { result ≡ false → next ≡ None → free_at (slice_get layout.now.kinds output.element) output.out ≡ true }
{
    match next {
        Some(_) => false,
        None => !is_free(layout, output),
    }
}

/// What the outputs of an element lead to. None where one leads nowhere and may not.
fn row_of(
    alloc: Global,
    layout: &Layout,
    wired: &IndexSet<Output>,
    element: u32,
    count: u64,
) -> Result<Option<Vec<Option<(u32, u32)>>>, AllocError>
    requires wired { wired.now.keys ≡ map output_of layout.now.wires }
    requires count { count ≡ outputs_of layout.now element }
    requires few { count ≤ 4294967296 }
    ensures { IfOk result (λ row. MatchOption row (HasOpen layout.now element) (λ r. IsRow layout.now element r.items)) }
{
    let mut row = Vec::new(alloc);
    for out in 0..count {
        let output = Output {
            element,
            out: out as u32,
        };
        let next = next_of(layout, wired, output);
        if is_open(layout, next, output) {
            return Ok(None);
        }
        row.push(next)?;
    }
    Ok(Some(row))
}

/// What the outputs of all elements lead to. Refused is the lowest element of which one leads nowhere and may
/// not.
pub(crate) fn table_of(
    alloc: Global,
    elements: &[Element],
    layout: &Layout,
    outputs: &[u64],
    wired: &IndexSet<Output>,
) -> Result<Vec<Vec<Option<(u32, u32)>>>, Refusal>
    requires outputs { AreCounts layout.now outputs.now }
    requires wired { wired.now.keys ≡ map output_of layout.now.wires }
    ensures table { IfOk result (λ t. IsTable layout.now (map (λ r. r.items) t.items)) }
    ensures closed { IfOk result (λ _. Nowhere (HasOpen layout.now)) }
    ensures refused { IfErr result (Tells (IsLowest elements.now Unwired (HasOpen layout.now))) }
{
    let mut table = Vec::new(alloc);
    for element in 0..layout.kinds().len() {
        let row = row_of(alloc, layout, wired, element as u32, outputs[element])?;
        match row {
            Some(row) => table.push(row)?,
            None => return Err(told_of(elements, ChainWhy::Unwired, element as u32)),
        }
    }
    Ok(table)
}
