//! A chain that was accepted: its elements, where their outputs lead, its devices, pools and mappers.
ghost use Rattle.std.specs.Prelude.{◌≡◌, ◌<◌, ◌≤◌, ◌^◌, ℕ, suc, length, map, position, slice_get, Option, Some, IfOk};
ghost use Rattle.std.specs.List.{All};
ghost use Rattle.mt_elements.specs.Accepted.{IsAccepted, behavior_of};
ghost use Rattle.mt_elements.specs.ChainState.{entry_of, is_entry, mappers_of, next_of, specs_in};
ghost use Rattle.mt_elements.specs.Kept.{AreArrivals};
ghost use Rattle.mt_elements.specs.Numbered.{IsNumbered};
ghost use Rattle.mt_elements.specs.Table.{IsTable};
ghost use Rattle.mt_kinds.specs.Ports.{output_count};
ghost use Rattle.mt_kinds.specs.declared.kind.Kind.{Kind};

use crate::layout::Layout;
use mt_kinds::{Kind, Pool, Spec, Templates, output_count};
use mt_text::Text;
use mt_wiring::Elements;
use std::alloc::{AllocError, Global};
use std::marker::Model;

/// What a server needs of a chain's rewriters: the specifications of each element by its number, none for an
/// element that is no rewriter, the patterns of each mapper, and the pools.
#[derive(Drop)]
pub struct Rewriters {
    pub specs: Vec<Vec<Spec>>,
    pub mappers: Vec<Templates>,
    pub pools: Vec<Pool>,
}

/// A chain that was accepted, which the type keeps. Elements, mappers and pools are numbered from 0, devices from
/// 1: first those on which frames arrive.
#[derive(Drop)]
pub struct Chain {
    layout: Layout,
    table: Vec<Vec<Option<(u32, u32)>>>,
    arrivals: Vec<Option<u32>>,
    sizes: Vec<u32>,
    specs: Vec<Vec<Spec>>,
    pools: Vec<Pool>,
}

impl Model for Chain {
    ghost use Rattle.std.specs.Prelude.{map};
    ghost use Rattle.mt_elements.specs.ChainState.{ChainState};
    ghost use Rattle.mt_elements.specs.Kept.{Keeps};
    ghost use Rattle.mt_pattern.specs.contracts.pattern.Pattern as pattern;
    ghost use Rattle.std.specs.Coded.{codes};

    ghost Value = { ChainState };

    ghost coded = { Prim.hlevel (codes, pattern.the_row.coded) };

    ghost view = { λ c. c.layout };

    ghost invariant = { λ c. Keeps c.layout (map (λ v. v.items) c.table.items) c.arrivals.items c.sizes.items (map (λ v. v.items) c.specs.items) c.pools.items };
}

impl Chain {
    /// The chain of this layout, with the table of where its outputs lead.
    pub(crate) fn new(
        alloc: Global,
        layout: Layout,
        table: Vec<Vec<Option<(u32, u32)>>>,
    ) -> Result<Chain, AllocError>
        requires accepted { IsAccepted layout }
        requires numbered { IsNumbered layout }
        requires table { IsTable layout (map (λ v. v.items) table.items) }
        requires short { All (λ templates. length templates < 2 ^ 32) (mappers_of layout.kinds) }
        ensures { IfOk result (λ c. c ≡ layout) }
    {
        let arrivals = arrivals_of(alloc, layout.kinds(), layout.entries())?;
        let sizes = sizes_of(alloc, layout.mappers().as_slice())?;
        let specs = specs_of(alloc, layout.kinds())?;
        let pools = Vec::from_slice(alloc, layout.pools())?;
        Ok(Chain {
            layout,
            table,
            arrivals,
            sizes,
            specs,
            pools,
        })
    }

    /// Every chain is accepted: wires join ports that are there, each output is wired once or may lead nowhere,
    /// no packet comes to an input twice, each element takes the layers at which packets reach it, unequal pools
    /// have no port in common, and there are 1 to 32 devices.
    pub fn is_accepted(&self)
        ensures accepted { IsAccepted self.now }
        ensures numbered { IsNumbered self.now }
    {
        let _opened = &self.layout;
    }

    /// The number of elements.
    pub fn elements(&self) -> u32
        ensures { result ≡ length self.now.kinds }
    {
        self.layout.kinds().len() as u32
    }

    /// The elements, by number.
    pub fn kinds(&self) -> &[Kind]
        ensures { result.now ≡ self.now.kinds }
    {
        self.layout.kinds()
    }

    /// What an element is.
    pub fn kind(&self, element: u32) -> &Kind
        requires { element < length self.now.kinds }
        ensures { slice_get self.now.kinds element ≡ Some result.now }
    {
        &self.layout.kinds()[element as usize]
    }

    /// Where an output leads: the element and its input. None where the output is not wired.
    pub fn next(&self, element: u32, out: u32) -> Option<(u32, u32)>
        ensures { result ≡ next_of self.now element out }
    {
        let row = self.table.get(element as usize)?;
        *row.get(out as usize)?
    }

    /// How many outputs an element has; those of a `PaintSwitch` are not counted.
    pub fn outputs(&self, element: u32) -> u32
        requires { element < length self.now.kinds }
        ensures { (kind : Kind) → slice_get self.now.kinds element ≡ Some kind → result ≡ output_count (mappers_of self.now.kinds) kind 0 }
    {
        output_count(self.layout.mappers(), self.kind(element), 0)
    }

    /// Whether a packet that enters an element by an input can leave it by an output; false where the element is not there.
    pub fn leads(&self, element: u32, input: u32, out: u32) -> bool
        ensures { result ≡ (behavior_of self.now.kinds).leads element input out }
    {
        self.layout.leads(element, input, out)
    }

    /// The number of wires.
    pub fn wires(&self) -> usize
        ensures wires { result ≡ length self.now.wires }
        ensures small { result < 2 ^ 63 }
    {
        self.layout.wires().len()
    }

    /// The names of the devices, that of device 1 first.
    pub fn devices(&self) -> &[Text]
        ensures devices { result.now ≡ self.now.devices }
        ensures few { length self.now.devices ≤ 32 }
    {
        self.layout.devices()
    }

    /// The number of devices on which frames arrive.
    pub fn entries(&self) -> u32
        ensures { result ≡ self.now.entries }
    {
        self.layout.entries()
    }

    /// The element by which the frames of a device enter. None where it is no device on which frames arrive.
    pub fn entry(&self, device: u32) -> Option<u32>
        ensures { result ≡ entry_of self.now device }
    {
        *self.arrivals.get(device as usize)?
    }

    /// The pools, by number.
    pub fn pools(&self) -> &[Pool]
        ensures { result.now ≡ self.now.pools }
    {
        &self.pools
    }

    /// The number of patterns of each mapper, by the mapper's number.
    pub fn mappers(&self) -> &[u32]
        ensures { result.now ≡ map length (mappers_of self.now.kinds) }
    {
        &self.sizes
    }

    /// The patterns of each mapper, by the mapper's number.
    pub fn templates(&self) -> &[Templates]
        ensures { result.now ≡ mappers_of self.now.kinds }
    {
        self.layout.mappers().as_slice()
    }

    /// What a server needs of the chain's rewriters.
    pub fn into_rewriters(self) -> Rewriters
        ensures specs { map (λ v. v.items) result.specs.items ≡ map specs_in self.kinds }
        ensures mappers { result.mappers.items ≡ mappers_of self.kinds }
        ensures pools { result.pools.items ≡ self.pools }
    {
        let Chain {
            layout,
            specs,
            pools,
            ..
        } = self;
        Rewriters {
            specs,
            mappers: layout.into_mappers(),
            pools,
        }
    }
}

/// The element by which the frames of a device enter.
fn entry_of(kinds: &[Kind], device: u32) -> Option<u32>
    requires { length kinds.now ≤ 512 }
    ensures { result ≡ position (is_entry device) kinds.now }
{
    for element in 0..kinds.len() {
        if is_entry(&kinds[element], device) {
            return Some(element as u32);
        }
    }
    None
}

/// Whether frames of a device enter by an element.
fn is_entry(kind: &Kind, device: u32) -> bool
    ensures { result ≡ is_entry device kind.now }
{
    match kind {
        Kind::FromDevice(number) => *number == device,
        _ => false,
    }
}

/// For each number up to that of the last device on which frames arrive, the element by which they enter.
fn arrivals_of(alloc: Global, kinds: &[Kind], entries: u32) -> Result<Vec<Option<u32>>, AllocError>
    requires { length kinds.now ≤ 512 }
    ensures whole { IfOk result (λ v. length v.items ≡ suc entries) }
    ensures each { IfOk result (λ v. (device : ℕ) (entry : Option ℕ) → slice_get v.items device ≡ Some entry → entry ≡ position (is_entry device) kinds.now) }
{
    let mut arrivals = Vec::new(alloc);
    arrivals.push(entry_of(kinds, 0))?;
    for device in 0..entries {
        arrivals.push(entry_of(kinds, device + 1))?;
    }
    Ok(arrivals)
}

/// The number of patterns of each mapper.
fn sizes_of(alloc: Global, mappers: &[Templates]) -> Result<Vec<u32>, AllocError>
    requires { All (λ templates. length templates < 2 ^ 32) mappers.now }
    ensures { IfOk result (λ v. v.items ≡ map length mappers.now) }
{
    let mut sizes = Vec::new(alloc);
    let mut rest = mappers;
    while let [templates, after @ ..] = rest {
        sizes.push(templates.as_slice().len() as u32)?;
        rest = after;
    }
    Ok(sizes)
}

/// The specifications of each element, none where it is no rewriter.
fn specs_of(alloc: Global, kinds: &[Kind]) -> Result<Vec<Vec<Spec>>, AllocError>
    ensures { IfOk result (λ v. map (λ s. s.items) v.items ≡ map specs_in kinds.now) }
{
    let mut all = Vec::new(alloc);
    let mut rest = kinds;
    while let [kind, after @ ..] = rest {
        all.push(specs_in(alloc, kind)?)?;
        rest = after;
    }
    Ok(all)
}

/// The specifications of an element, none where it is no rewriter.
fn specs_in(alloc: Global, kind: &Kind) -> Result<Vec<Spec>, AllocError>
    ensures { IfOk result (λ v. v.items ≡ specs_in kind.now) }
{
    match kind {
        Kind::IPRewriter(specs) => Vec::from_slice(alloc, specs.as_slice()),
        _ => Ok(Vec::new(alloc)),
    }
}
