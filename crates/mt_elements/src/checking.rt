//! Whether a graph is a chain.
ghost use Rattle.std.specs.Prelude.{◌≡◌, ◌≤◌, ◌⊎◌, length, map, IfOk, IfErr};
ghost use Rattle.std.specs.List.{All};
ghost use Rattle.mt_elements.specs.Accepted.{IsAccepted, LacksDevices};
ghost use Rattle.mt_elements.specs.Described.{HasFewArguments, IsChainOf};
ghost use Rattle.mt_elements.specs.Refused.{IsRefused, IsRefusedChain};
ghost use Rattle.mt_elements.specs.Table.{IsTable};
ghost use Rattle.mt_elements.specs.Told.{IsCause, Tells};
ghost use Rattle.mt_elements.specs.declared.fault.ChainWhy.TheVariants.{NoDevice, NoMemory};

use crate::chain::Chain;
use crate::fault::{ChainFault, ChainWhy, Refusal};
use crate::layout::{Layout, layout_of};
use crate::passing::{refuse_misfits, refuse_rings};
use crate::pools::refuse_overlaps;
use crate::table::table_of;
use crate::wires::{output_counts, wired_outputs};
use mt_graph::{Element, Graph};
use std::alloc::Global;

/// Refuses a chain without a device by which frames enter, or with more than 32 devices.
fn refuse_devices(layout: &Layout) -> Result<(), Refusal>
    ensures devices { IfOk result (λ _. LacksDevices layout.now → ⊥) }
    ensures refused { IfErr result (Tells (λ f. (f ≡ record { why = NoDevice; element = 0; line = 1 }) × LacksDevices layout.now)) }
{
    if layout.entries() == 0 || 32 < layout.devices().len() {
        return Err(Refusal::Fault(ChainFault {
            why: ChainWhy::NoDevice,
            element: 0,
            line: 1,
        }));
    }
    Ok(())
}

/// Where the outputs of a layout lead, or why it is no chain.
fn accepted(
    alloc: Global,
    elements: &[Element],
    layout: &Layout,
) -> Result<Vec<Vec<Option<(u32, u32)>>>, Refusal>
    ensures table { IfOk result (λ t. IsTable layout.now (map (λ r. r.items) t.items)) }
    ensures accepted { IfOk result (λ _. IsAccepted layout.now) }
    ensures refused { IfErr result (Tells (IsRefusedChain elements.now layout.now)) }
{
    let outputs = output_counts(alloc, layout)?;
    let wired = wired_outputs(alloc, layout, &outputs)?;
    let table = table_of(alloc, elements, layout, &outputs, &wired)?;
    refuse_rings(alloc, elements, layout)?;
    refuse_misfits(alloc, elements, layout)?;
    refuse_overlaps(alloc, elements, layout)?;
    refuse_devices(layout)?;
    Ok(table)
}

/// The chain of a graph, or why it is none.
fn chain_of(alloc: Global, graph: Graph) -> Result<Chain, Refusal>
    requires few { length graph.elements.items ≤ 512 }
    requires arguments { All HasFewArguments graph.elements.items }
    ensures chain { IfOk result (λ c. IsChainOf graph.elements.items graph.wires.items c) }
    ensures refused { IfErr result (Tells (IsRefused graph.elements.items graph.wires.items)) }
{
    let Graph { elements, wires } = graph;
    let layout = layout_of(alloc, &elements, wires)?;
    let table = match accepted(alloc, &elements, &layout) {
        Ok(table) => table,
        Err(refusal) => return Err(refusal),
    };
    Ok(Chain::new(alloc, layout, table)?)
}

/// The chain of a graph, or its first refusal: it is looked at each element by number, at each wire in the order
/// of the text, at each output by element and number, at rings, layers and pools, and at the devices. Errors:
/// `NoMemory`, and the refusals of `ChainWhy`.
pub fn check(alloc: Global, graph: Graph) -> Result<Chain, ChainFault>
    requires few { length graph.elements.items ≤ 512 }
    requires arguments { All HasFewArguments graph.elements.items }
    ensures chain { IfOk result (λ c. IsChainOf graph.elements.items graph.wires.items c) }
    ensures accepted { IfOk result (λ c. IsAccepted c) }
    ensures refused { IfErr result (λ f. IsCause NoMemory f ⊎ IsRefused graph.elements.items graph.wires.items f) }
{
    match chain_of(alloc, graph) {
        Ok(chain) => {
            chain.is_accepted();
            Ok(chain)
        }
        Err(Refusal::Fault(fault)) => Err(fault),
        Err(Refusal::Memory) => Err(ChainFault {
            why: ChainWhy::NoMemory,
            element: 0,
            line: 0,
        }),
    }
}
