//! What the walk has found: for each station that it came to, the tree of cuts behind it. Ways that come together again
//! are walked once from there on.
ghost use Rattle.std.specs.Prelude.{◌≡◌, ℕ, List, IfOk, OnOk};
ghost use Rattle.mt_cuts.specs.Canonical.{IsCanonical};
ghost use Rattle.mt_cuts.specs.View.{tree_of};
ghost use Rattle.mt_elements.specs.ChainState.{ChainState};
ghost use Rattle.mt_terms.specs.declared.tree.Tree.{Tree};
ghost use Rattle.mt_synth.specs.Memo.{layer_of, symbol_of, Remembers, IsKept};
ghost use Rattle.mt_synth.specs.Symbols.{symbol_form};

use crate::patterns::copied;
use crate::symbol::Symbol;
use mt_cuts::Cut;
use mt_packet::Layer;
use mt_terms::Term;
use std::alloc::{AllocError, Global};
use std::collections::BTreeMap;

/// Where the walk is and as what: over how many elements it may still go, the element and its input, and the packet
/// under way.
#[derive(Drop, PartialEq, Eq, PartialOrd, Ord)]
pub(crate) struct Station {
    pub most: usize,
    pub element: u32,
    pub input: u32,
    pub layer: u32,
    pub trim: bool,
    pub passages: u32,
    pub terms: Vec<Term>,
}

/// The trees of cuts that are kept.
#[derive(Drop)]
pub(crate) struct Memo {
    pub kept: BTreeMap<Station, Cut>,
}

/// A number for each layer.
fn layer_number(layer: Layer) -> u32
    ensures { layer_of result ≡ layer }
{
    match layer {
        Layer::Frame => 0,
        Layer::Bare => 1,
        Layer::Ip => 2,
        Layer::Framed => 3,
    }
}

/// The station at an input with a packet under way.
pub(crate) fn station_at(
    alloc: Global,
    most: usize,
    at: (u32, u32),
    symbol: &Symbol,
) -> Result<Station, AllocError>
    ensures most { IfOk result (λ key. key.most ≡ most) }
    ensures element { IfOk result (λ key. key.element ≡ at.0) }
    ensures input { IfOk result (λ key. key.input ≡ at.1) }
    ensures symbol { IfOk result (λ key. symbol_of key ≡ symbol_form symbol.now) }
{
    Ok(Station {
        most,
        element: at.0,
        input: at.1,
        layer: layer_number(symbol.layer()),
        trim: symbol.trims(),
        passages: symbol.passages(),
        terms: symbol.terms(alloc)?,
    })
}

impl Memo {
    /// Nothing is kept.
    pub fn new(alloc: Global) -> Memo
        ensures { (chain : ChainState) (trees : List Tree) → Remembers chain trees result.kept }
    {
        Memo {
            kept: BTreeMap::new(alloc),
        }
    }

    /// Keeps a copy of a tree of cuts.
    pub fn keep(
        &mut self,
        alloc: Global,
        devices: u32,
        key: Station,
        cut: &Cut,
    ) -> Result<(), AllocError>
        requires { IsCanonical devices (tree_of cut.now) }
        ensures { OnOk result ((chain : ChainState) (trees : List Tree) → chain.entries ≡ devices → IsKept chain trees key cut.now
            → Remembers chain trees self.old.kept → Remembers chain trees self.new.kept) }
    {
        let copy = copied(alloc, devices, cut)?;
        self.kept.insert(key, copy)?;
        Ok(())
    }
}
