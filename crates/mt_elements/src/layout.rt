//! The elements, wires, devices and pools of a graph, before it is looked at how the elements are wired.
ghost use Rattle.std.specs.Prelude.{◌≡◌, ◌≤◌, length, map, Ok, IfOk, IfErr};
ghost use Rattle.std.specs.List.{All};
ghost use Rattle.mt_elements.specs.ChainState.{mappers_of};
ghost use Rattle.mt_elements.specs.Replies.{AreReplies};
ghost use Rattle.mt_elements.specs.Described.{HasFewArguments, IsChainOf, chain_of, describe};
ghost use Rattle.mt_elements.specs.Numbered.{IsNumbered};
ghost use Rattle.mt_elements.specs.Told.{IsUnread, Tells};

use crate::describing::mapper_names;
use crate::fault::Refusal;
use crate::kinds::kinds_of;
use crate::numbering::{add_entries, add_exits, pools_of};
use crate::reading::described;
use indexmap::IndexSet;
use mt_graph::{Element, Wire};
use mt_kinds::{Description, Kind, Mappers, Outs, Pool, Templates, replies_of};
use mt_text::Text;
use std::alloc::{AllocError, Global};
use std::marker::Model;

/// What a graph's elements are, how they are wired, and the devices and pools that they name. The outputs that mappers
/// name and those by which replies to flows of each element leave are worked out once. A contract sees the chain that it
/// would be.
#[derive(Drop)]
pub(crate) struct Layout {
    kinds: Vec<Kind>,
    mappers: Mappers,
    replies: Vec<Outs>,
    wires: Vec<Wire>,
    devices: Vec<Text>,
    entries: u32,
    pools: IndexSet<Pool>,
}

impl Model for Layout {
    ghost use Rattle.std.specs.Prelude.{◌≡◌, ◌≤◌, length};
    ghost use Rattle.mt_elements.specs.ChainState.{ChainState, mappers_of};
    ghost use Rattle.mt_elements.specs.Replies.{AreReplies};
    ghost use Rattle.mt_pattern.specs.contracts.pattern.Pattern as pattern;
    ghost use Rattle.std.specs.Coded.{codes};

    ghost Value = { ChainState };

    ghost coded = { Prim.hlevel (codes, pattern.the_row.coded) };

    ghost view = { λ l. record { kinds = l.kinds.items; wires = l.wires.items; devices = l.devices.items; entries = l.entries; pools = l.pools.keys } };

    ghost invariant = { λ l. (l.mappers ≡ mappers_of l.kinds.items) × (length l.kinds.items ≤ 512) × AreReplies l.mappers l.kinds.items l.replies.items };
}

impl Layout {
    /// The layout of these elements and wires.
    pub fn new(
        alloc: Global,
        kinds: Vec<Kind>,
        wires: Vec<Wire>,
        devices: Vec<Text>,
        entries: u32,
        pools: IndexSet<Pool>,
    ) -> Result<Layout, AllocError>
        requires few { length kinds.items ≤ 512 }
        ensures { IfOk result (λ l. l ≡ record { kinds = kinds.items; wires = wires.items; devices = devices.items; entries = entries; pools = pools.keys }) }
    {
        let mappers = Mappers::new(alloc, mappers_of(alloc, &kinds)?)?;
        let replies = all_replies(alloc, &mappers, &kinds)?;
        Ok(Layout {
            kinds,
            mappers,
            replies,
            wires,
            devices,
            entries,
            pools,
        })
    }

    /// The elements.
    pub fn kinds(&self) -> &[Kind]
        ensures kinds { result.now ≡ self.now.kinds }
        ensures few { length self.now.kinds ≤ 512 }
    {
        &self.kinds
    }

    /// The patterns of each mapper, with the outputs that they name.
    pub fn mappers(&self) -> &Mappers
        ensures { result.now ≡ mappers_of self.now.kinds }
    {
        &self.mappers
    }

    /// The outputs by which replies to flows of each element leave.
    pub fn replies(&self) -> &[Outs]
        ensures { AreReplies (mappers_of self.now.kinds) self.now.kinds result.now }
    {
        &self.replies
    }

    /// The patterns of each mapper, and nothing else of the layout.
    pub fn into_mappers(self) -> Vec<Templates>
        ensures { result.items ≡ mappers_of self.kinds }
    {
        let Layout { mappers, .. } = self;
        mappers.into_list()
    }

    /// The wires.
    pub fn wires(&self) -> &[Wire]
        ensures { result.now ≡ self.now.wires }
    {
        &self.wires
    }

    /// The names of the devices.
    pub fn devices(&self) -> &[Text]
        ensures { result.now ≡ self.now.devices }
    {
        &self.devices
    }

    /// The number of devices on which frames arrive.
    pub fn entries(&self) -> u32
        ensures { result ≡ self.now.entries }
    {
        self.entries
    }

    /// The pools.
    pub fn pools(&self) -> &[Pool]
        ensures { result.now ≡ self.now.pools }
    {
        self.pools.as_slice()
    }
}

/// A copy of the patterns of each mapper, in the order of the elements.
#[tactic(auto, unfolding(crate::specs::ChainState::mappers_of))]
fn mappers_of(alloc: Global, kinds: &[Kind]) -> Result<Vec<Templates>, AllocError>
    ensures { IfOk result (λ v. v.items ≡ mappers_of kinds.now) }
{
    let mut mappers = Vec::new(alloc);
    let mut rest = kinds;
    while let [kind, after @ ..] = rest {
        if let Kind::RoundRobinIPMapper(templates) = kind {
            mappers.push(Templates::new(Vec::from_slice(alloc, templates.as_slice())?))?;
        }
        rest = after;
    }
    Ok(mappers)
}

/// The outputs by which replies to flows of each element leave.
fn all_replies(alloc: Global, mappers: &Mappers, kinds: &[Kind]) -> Result<Vec<Outs>, AllocError>
    ensures { IfOk result (λ v. AreReplies mappers.now kinds.now v.items) }
{
    let mut replies = Vec::new(alloc);
    for element in 0..kinds.len() {
        let outs = replies_of(alloc, mappers, &kinds[element])?;
        replies.push(outs)?;
    }
    Ok(replies)
}

/// The layout of elements with these descriptions.
fn laid_out(
    alloc: Global,
    elements: &[Element],
    wires: Vec<Wire>,
    descriptions: Vec<Description>,
) -> Result<Layout, AllocError>
    requires few { length elements.now ≤ 512 }
    requires arguments { All HasFewArguments elements.now }
    requires described { map describe elements.now ≡ map Ok descriptions.items }
    ensures { IfOk result (λ l. l ≡ chain_of elements.now wires.items descriptions.items) }
{
    let names = mapper_names(alloc, elements)?;
    let mut devices = Vec::new(alloc);
    add_entries(alloc, &mut devices, &descriptions)?;
    let entries = devices.len() as u32;
    add_exits(alloc, &mut devices, &descriptions)?;
    let pools = pools_of(alloc, &descriptions)?;
    let kinds = kinds_of(alloc, &devices, &pools, &names, elements, descriptions)?;
    Layout::new(alloc, kinds, wires, devices, entries, pools)
}

/// The layout of a graph. Refused is the first element with which something is wrong.
pub(crate) fn layout_of(
    alloc: Global,
    elements: &[Element],
    wires: Vec<Wire>,
) -> Result<Layout, Refusal>
    requires few { length elements.now ≤ 512 }
    requires arguments { All HasFewArguments elements.now }
    ensures chain { IfOk result (λ l. IsChainOf elements.now wires.items l) }
    ensures numbered { IfOk result (λ l. IsNumbered l) }
    ensures refused { IfErr result (Tells (IsUnread elements.now)) }
{
    let descriptions = described(alloc, elements)?;
    let layout = laid_out(alloc, elements, wires, descriptions)?;
    Ok(layout)
}
