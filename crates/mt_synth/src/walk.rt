//! The walk of a chain with terms in place of values: from each device on, element by element, to a tree of cuts whose
//! values are numbers of trees.
ghost use Rattle.std.specs.Prelude.{◌≡◌, ℕ, List, None, IfOk, OnOk};
ghost use Rattle.mt_trees.specs.Symbols as symbols;
ghost use Rattle.mt_cuts.specs.Canonical.{IsCanonical};
ghost use Rattle.mt_cuts.specs.View.{tree_of};
ghost use Rattle.mt_trees.specs.Elements.{Along, by_wire, tree_from, tree_of as tree_at};
ghost use Rattle.mt_chain.specs.Step.{unwired_cause};
ghost use Rattle.mt_synth.specs.Symbols.{symbol_form};
ghost use Rattle.mt_synth.specs.Entries.{entered_at};
ghost use Rattle.mt_synth.specs.Cuts.{TreeAt, Means, Grows};
ghost use Rattle.mt_synth.specs.Memo.{Remembers};

use crate::exits::{Exit, exits_of};
use crate::joined::joined;
use crate::leaves::dropped;
use crate::memo::{Memo, station_at};
use crate::patterns::copied;
use crate::symbol::Symbol;
use crate::table::Trees;
use mt_cuts::{Cut, split};
use mt_elements::Chain;
use mt_kinds::{Kind, takes};
use mt_packet::{Cause, Field, Span};
use std::alloc::{AllocError, Global};

/// The cause for which a packet is dropped at an output that leads nowhere. None where that output always leads
/// somewhere.
fn unwired_cause(kind: &Kind, out: u32) -> Option<Cause>
    ensures { result ≡ unwired_cause kind.now out }
{
    match kind {
        Kind::PaintSwitch => Some(Cause::NoPaint),
        Kind::CheckIPHeader if out == 1 => Some(Cause::BadIp),
        Kind::DecIPTTL if out == 1 => Some(Cause::Ttl),
        _ => None,
    }
}

/// An output that leads nowhere.
fn unwired(alloc: Global, trees: &mut Trees, kind: &Kind, out: u32) -> Result<Cut, AllocError>
    ensures canonical { IfOk result (λ cut. (devices : ℕ) → IsCanonical devices (tree_of cut)) }
    ensures means { IfOk result (λ cut. (devices : ℕ) (along : List ℕ → Along) (symbol : symbols.Symbol) → Means devices trees.new (tree_of cut) (λ header. by_wire (along header) symbol None (unwired_cause kind.now out))) }
    ensures grows { Grows trees.old trees.new }
{
    match unwired_cause(kind, out) {
        Some(cause) => dropped(alloc, trees, cause),
        None => Ok(Cut::leaf(0)),
    }
}

/// From an element and its input on, over at most so many elements. What was found from there on as the same packet is
/// not walked again.
fn walk_from(
    alloc: Global,
    chain: &Chain,
    trees: &mut Trees,
    memo: &mut Memo,
    most: usize,
    at: (u32, u32),
    symbol: &Symbol,
) -> Result<Cut, AllocError>
    requires memo { Remembers chain.now trees.old memo.old.kept }
    ensures canonical { IfOk result (λ cut. IsCanonical chain.now.entries (tree_of cut)) }
    ensures means { IfOk result (λ cut. Means chain.now.entries trees.new (tree_of cut) (λ header. tree_from most chain.now header at (symbol_form symbol.now))) }
    ensures grows { Grows trees.old trees.new }
    ensures memo { OnOk result (Remembers chain.now trees.new memo.new.kept) }
{
    if most == 0 {
        return Ok(Cut::leaf(0));
    }
    let Some(kind) = chain.kinds().get(at.0 as usize) else {
        return Ok(Cut::leaf(0));
    };
    if !takes(kind, symbol.layer()) {
        return Ok(Cut::leaf(0));
    }
    let key = station_at(alloc, most, at, symbol)?;
    if let Some(cut) = memo.kept.get(&key) {
        return copied(alloc, chain.entries(), cut);
    }
    let exits = exits_of(alloc, chain, at, kind, symbol)?;
    let mut cuts = Vec::with_capacity(alloc, exits.len())?;
    for place in 0..exits.len() {
        let exit = &exits[place];
        let cut = match chain.next(at.0, exit.out) {
            Some(next) => walk_from(alloc, chain, trees, memo, most - 1, next, &exit.symbol)?,
            None => unwired(alloc, trees, kind, exit.out)?,
        };
        cuts.push(cut)?;
    }
    let made = joined(alloc, chain, trees, at, kind, symbol, &exits, &cuts)?;
    memo.keep(alloc, chain.entries(), key, &made)?;
    Ok(made)
}

/// From the element by which the frames of a device enter.
fn entered(
    alloc: Global,
    chain: &Chain,
    trees: &mut Trees,
    memo: &mut Memo,
    device: u32,
) -> Result<Cut, AllocError>
    requires memo { Remembers chain.now trees.old memo.old.kept }
    ensures canonical { IfOk result (λ cut. IsCanonical chain.now.entries (tree_of cut)) }
    ensures means { IfOk result (λ cut. Means chain.now.entries trees.new (tree_of cut) (λ header. entered_at chain.now header device)) }
    ensures grows { Grows trees.old trees.new }
    ensures memo { OnOk result (Remembers chain.now trees.new memo.new.kept) }
{
    match chain.entry(device) {
        Some(entry) => {
            let symbol = Symbol::arrived(alloc)?;
            let most = chain.wires() + 1;
            walk_from(alloc, chain, trees, memo, most, (entry, 0), &symbol)
        }
        None => Ok(Cut::leaf(0)),
    }
}

/// The trees of all headers: for each header the number of its tree.
pub(crate) fn walked(alloc: Global, chain: &Chain, trees: &mut Trees) -> Result<Cut, AllocError>
    ensures canonical { IfOk result (λ cut. IsCanonical chain.now.entries (tree_of cut)) }
    ensures means { IfOk result (λ cut. Means chain.now.entries trees.new (tree_of cut) (λ header. tree_at chain.now header)) }
    ensures grows { Grows trees.old trees.new }
{
    let devices = chain.entries();
    let mut memo = Memo::new(alloc);
    let mut made = Cut::leaf(0);
    for number in 0..devices {
        let device = number + 1;
        let cut = entered(alloc, chain, trees, &mut memo, device)?;
        let span = Span {
            lo: u64::from(device),
            hi: u64::from(device),
        };
        made = split(alloc, devices, Field::Device, span, &cut, &made)?;
    }
    Ok(made)
}
