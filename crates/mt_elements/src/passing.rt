//! What elements do with packets, as rings and layers ask, and the elements that are refused for them.
ghost use Rattle.std.specs.Prelude.{IfOk, IfErr};
ghost use Rattle.mt_elements.specs.Accepted.{Rings, Misfits};
ghost use Rattle.mt_elements.specs.Told.{IsLowest, Nowhere, Tells};
ghost use Rattle.mt_elements.specs.declared.fault.ChainWhy.TheVariants.{Cycle, LayerClash};

use crate::fault::{ChainWhy, Refusal, told_of};
use crate::layout::Layout;
use mt_graph::Element;
use mt_kinds::{Kind, layer_behind, leads, takes};
use mt_packet::Layer;
use mt_wiring::{Elements, lowest_clash, lowest_on_ring};
use std::alloc::Global;

impl Elements for Layout {
    ghost use Rattle.mt_elements.specs.Accepted.{behavior_of};

    ghost behavior = { λ l. behavior_of l.kinds };

    fn leads(&self, element: u32, input: u32, out: u32) -> bool {
        match self.kinds().get(element as usize) {
            Some(kind) => {
                let replies = &self.replies()[element as usize];
                leads(self.mappers(), replies, kind, input, out)
            }
            None => false,
        }
    }

    fn enters(&self, element: u32) -> bool {
        matches!(
            self.kinds().get(element as usize),
            Some(Kind::FromDevice(_))
        )
    }

    fn takes(&self, element: u32, layer: Layer) -> bool {
        match self.kinds().get(element as usize) {
            Some(kind) => takes(kind, layer),
            None => false,
        }
    }

    fn layer_behind(&self, element: u32, layer: Layer, out: u32) -> Layer {
        match self.kinds().get(element as usize) {
            Some(kind) => layer_behind(kind, layer, out),
            None => layer,
        }
    }
}

/// Refuses the lowest element that is on a ring.
pub(crate) fn refuse_rings(
    alloc: Global,
    elements: &[Element],
    layout: &Layout,
) -> Result<(), Refusal>
    ensures acyclic { IfOk result (λ _. Nowhere (Rings layout.now)) }
    ensures refused { IfErr result (Tells (IsLowest elements.now Cycle (Rings layout.now))) }
{
    let lowest = lowest_on_ring(alloc, layout, layout.wires())?;
    match lowest {
        Some(element) => Err(told_of(elements, ChainWhy::Cycle, element)),
        None => Ok(()),
    }
}

/// Refuses the lowest element that packets reach at a layer which it does not take.
pub(crate) fn refuse_misfits(
    alloc: Global,
    elements: &[Element],
    layout: &Layout,
) -> Result<(), Refusal>
    ensures fits { IfOk result (λ _. Nowhere (Misfits layout.now)) }
    ensures refused { IfErr result (Tells (IsLowest elements.now LayerClash (Misfits layout.now))) }
{
    let lowest = lowest_clash(alloc, layout, layout.wires())?;
    match lowest {
        Some(element) => Err(told_of(elements, ChainWhy::LayerClash, element)),
        None => Ok(()),
    }
}
