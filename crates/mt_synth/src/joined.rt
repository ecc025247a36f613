//! What an element makes of the trees behind its exits.
ghost use Rattle.std.specs.Prelude.{◌≡◌, ◌<◌, ℕ, List, length, map, IfOk, Some, slice_get, true};
ghost use Rattle.mt_packet.specs.declared.cause.Cause.TheVariants.{Short};
ghost use Rattle.mt_packet.specs.declared.field.Field.{Field};
ghost use Rattle.mt_cuts.specs.Canonical.{IsCanonical, finishes};
ghost use Rattle.mt_cuts.specs.Tree.{value_of};
ghost use Rattle.mt_cuts.specs.View.{tree_of};
ghost use Rattle.mt_cuts.specs.declared.cut.Cut.{Cut};
ghost use Rattle.mt_kinds.specs.declared.kind.Kind.{Kind};
ghost use Rattle.mt_kinds.specs.declared.rewriter.Spec.{Spec};
ghost use Rattle.mt_kinds.specs.declared.rewriter.Spec.TheVariants.{Pass};
ghost use Rattle.mt_elements.specs.ChainState.{ChainState};
ghost use Rattle.mt_trees.specs.Elements.{Along, dropped, class_tree, passage_tree, rewriter_tree};
ghost use Rattle.mt_trees.specs.Tests.{field_tested, whole_tested, ports_tested};
ghost use Rattle.mt_synth.specs.Symbols.{symbol_form};
ghost use Rattle.mt_synth.specs.Cuts.{TreeAt, Means, Grows, AreBehind, AreCanonical};
ghost use Rattle.mt_synth.specs.Exits.{exits_of, taken_exits, rewriter_exits};

use crate::branching::passed;
use crate::exits::Exit;
use crate::leaves::{dropped, sent};
use crate::lists::{classified, filtered, ip_classified, routed};
use crate::patterns::copied;
use crate::symbol::Symbol;
use crate::table::Trees;
use crate::testing::field_tested;
use mt_cuts::Cut;
use mt_elements::Chain;
use mt_kinds::{Kind, Spec};
use mt_packet::{Cause, Field, Layer};
use std::alloc::{AllocError, Global};

/// The tree at a place.
fn at_place(alloc: Global, devices: u32, cuts: &[Cut], place: usize) -> Result<Cut, AllocError>
    requires { AreCanonical devices cuts.now }
    ensures canonical { IfOk result (λ copy. IsCanonical devices (tree_of copy)) }
    ensures finishes { IfOk result (λ copy. finishes devices copy ≡ true) }
    ensures value { IfOk result (λ copy. (cut : Cut) → slice_get cuts.now place ≡ Some cut
        → (header : Field → ℕ) → value_of (tree_of copy) header ≡ value_of (tree_of cut) header) }
{
    match cuts.get(place) {
        Some(cut) => copied(alloc, devices, cut),
        None => Ok(Cut::leaf(0)),
    }
}

/// Where a field lies in a span, the tree of the first exit, and elsewhere that of the second.
fn either(
    alloc: Global,
    devices: u32,
    trees: &mut Trees,
    symbol: &Symbol,
    field: Field,
    lo: u64,
    hi: u64,
    cuts: &[Cut],
) -> Result<Cut, AllocError>
    requires some { 0 < length cuts.now }
    requires cuts { AreCanonical devices cuts.now }
    ensures canonical { IfOk result (λ cut. IsCanonical devices (tree_of cut)) }
    ensures means { IfOk result (λ cut. (inside outside : Cut) (inside_at outside_at : TreeAt) → slice_get cuts.now 0 ≡ Some inside → slice_get cuts.now 1 ≡ Some outside
        → Means devices trees.old (tree_of inside) inside_at → Means devices trees.old (tree_of outside) outside_at
        → Means devices trees.new (tree_of cut) (λ header. field_tested header (symbol_form symbol.now) field lo hi (inside_at header) (outside_at header))) }
    ensures grows { Grows trees.old trees.new }
{
    let outside = at_place(alloc, devices, cuts, 1)?;
    field_tested(
        alloc, devices, trees, symbol, field, lo, hi, &cuts[0], outside,
    )
}

/// On frames of 14 bytes and more the tree of the exit; shorter ones are dropped.
fn whole(
    alloc: Global,
    devices: u32,
    trees: &mut Trees,
    symbol: &Symbol,
    cuts: &[Cut],
) -> Result<Cut, AllocError>
    requires some { 0 < length cuts.now }
    requires cuts { AreCanonical devices cuts.now }
    ensures canonical { IfOk result (λ cut. IsCanonical devices (tree_of cut)) }
    ensures means { IfOk result (λ cut. (inside : Cut) (inside_at : TreeAt) → slice_get cuts.now 0 ≡ Some inside → Means devices trees.old (tree_of inside) inside_at
        → Means devices trees.new (tree_of cut) (λ header. whole_tested header (symbol_form symbol.now) (inside_at header) (dropped Short))) }
    ensures grows { Grows trees.old trees.new }
{
    let short = dropped(alloc, trees, Cause::Short)?;
    field_tested(
        alloc,
        devices,
        trees,
        symbol,
        Field::EthType,
        0,
        65535,
        &cuts[0],
        short,
    )
}

/// A passage where the ports are visible, and elsewhere another tree.
fn ported(
    alloc: Global,
    devices: u32,
    trees: &mut Trees,
    at: (u32, u32),
    symbol: &Symbol,
    exits: &[Exit],
    cuts: &[Cut],
    unported: Cut,
) -> Result<Cut, AllocError>
    requires count { length cuts.now ≡ length exits.now }
    requires cuts { AreCanonical devices cuts.now }
    requires unported { IsCanonical devices (tree_of unported) }
    requires finished { finishes devices unported ≡ true }
    ensures canonical { IfOk result (λ cut. IsCanonical devices (tree_of cut)) }
    ensures means { IfOk result (λ cut. (chain : ChainState) (along : List ℕ → Along) (own : Kind) (specs : List Spec) (spec : Spec) (unported_at : TreeAt)
        → map (λ exit. (exit.out, symbol_form exit.symbol)) exits.now ≡ taken_exits chain at specs spec (symbol_form symbol.now)
        → AreBehind devices trees.old chain along at own (taken_exits chain at specs spec (symbol_form symbol.now)) cuts.now
        → Means devices trees.old (tree_of unported) unported_at
        → Means devices trees.new (tree_of cut) (λ header. ports_tested header (symbol_form symbol.now)
        (passage_tree chain header (along header) at own (symbol_form symbol.now) specs spec) (unported_at header))) }
    ensures grows { Grows trees.old trees.new }
{
    let made = passed(alloc, devices, trees, at, symbol, exits, cuts)?;
    field_tested(
        alloc,
        devices,
        trees,
        symbol,
        Field::Ports,
        1,
        1,
        &made,
        unported,
    )
}

/// What a rewriter does at an input with a specification.
fn rewritten(
    alloc: Global,
    devices: u32,
    trees: &mut Trees,
    at: (u32, u32),
    symbol: &Symbol,
    spec: &Spec,
    exits: &[Exit],
    cuts: &[Cut],
) -> Result<Cut, AllocError>
    requires count { length cuts.now ≡ length exits.now }
    requires cuts { AreCanonical devices cuts.now }
    requires passes { (out : ℕ) → spec.now ≡ Pass out → 0 < length exits.now }
    ensures canonical { IfOk result (λ cut. IsCanonical devices (tree_of cut)) }
    ensures means { IfOk result (λ cut. (chain : ChainState) (along : List ℕ → Along) (own : Kind) (specs : List Spec)
        → map (λ exit. (exit.out, symbol_form exit.symbol)) exits.now ≡ rewriter_exits chain at specs (Some spec.now) (symbol_form symbol.now)
        → AreBehind devices trees.old chain along at own (rewriter_exits chain at specs (Some spec.now) (symbol_form symbol.now)) cuts.now
        → Means devices trees.new (tree_of cut) (λ header. rewriter_tree chain header (along header) at own (symbol_form symbol.now) specs (Some spec.now))) }
    ensures grows { Grows trees.old trees.new }
{
    if let Spec::Pass(_) = spec {
        let unported = at_place(alloc, devices, cuts, 0)?;
        return ported(
            alloc,
            devices,
            trees,
            at,
            symbol,
            &exits[1..],
            &cuts[1..],
            unported,
        );
    }
    let unported = dropped(alloc, trees, Cause::Unported)?;
    ported(alloc, devices, trees, at, symbol, exits, cuts, unported)
}

/// What an element makes of the trees behind its exits.
pub(crate) fn joined(
    alloc: Global,
    chain: &Chain,
    trees: &mut Trees,
    at: (u32, u32),
    kind: &Kind,
    symbol: &Symbol,
    exits: &[Exit],
    cuts: &[Cut],
) -> Result<Cut, AllocError>
    requires exits { map (λ exit. (exit.out, symbol_form exit.symbol)) exits.now ≡ exits_of chain.now at kind.now (symbol_form symbol.now) }
    requires count { length cuts.now ≡ length exits.now }
    requires cuts { AreCanonical chain.now.entries cuts.now }
    ensures canonical { IfOk result (λ cut. IsCanonical chain.now.entries (tree_of cut)) }
    ensures means { IfOk result (λ cut. (along : List ℕ → Along)
        → AreBehind chain.now.entries trees.old chain.now along at kind.now (exits_of chain.now at kind.now (symbol_form symbol.now)) cuts.now
        → Means chain.now.entries trees.new (tree_of cut) (λ header. class_tree chain.now header (along header) at kind.now (symbol_form symbol.now))) }
    ensures grows { Grows trees.old trees.new }
{
    let devices = chain.entries();
    match kind {
        Kind::ToDevice(device) => sent(alloc, trees, symbol, *device),
        Kind::Discard => dropped(alloc, trees, Cause::Discarded),
        Kind::Classifier(patterns) => classified(alloc, devices, trees, symbol, patterns, cuts),
        Kind::EtherMirror => whole(alloc, devices, trees, symbol, cuts),
        Kind::Strip => whole(alloc, devices, trees, symbol, cuts),
        Kind::CheckIPHeader => match symbol.layer() {
            Layer::Ip => at_place(alloc, devices, cuts, 0),
            _ => either(alloc, devices, trees, symbol, Field::IpOk, 1, 1, cuts),
        },
        Kind::DecIPTTL => either(alloc, devices, trees, symbol, Field::Ttl, 0, 1, cuts),
        Kind::IPMirror => either(alloc, devices, trees, symbol, Field::Ports, 1, 1, cuts),
        Kind::IPFilter(rules) => filtered(alloc, devices, trees, symbol, rules.as_slice(), cuts),
        Kind::IPClassifier(patterns) => {
            ip_classified(alloc, devices, trees, symbol, patterns.as_slice(), cuts)
        }
        Kind::Route(hops) => routed(alloc, devices, trees, symbol, hops.as_slice(), cuts),
        Kind::IPRewriter(specs) => match specs.as_slice().get(at.1 as usize) {
            Some(spec) => rewritten(alloc, devices, trees, at, symbol, spec, exits, cuts),
            None => Ok(Cut::leaf(0)),
        },
        Kind::RoundRobinIPMapper(_) => Ok(Cut::leaf(0)),
        _ => {
            symbol.has_paint();
            at_place(alloc, devices, cuts, 0)
        }
    }
}
