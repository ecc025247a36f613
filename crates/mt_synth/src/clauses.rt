//! The clauses of a `Classifier` pattern that are tried on a packet under way.
ghost use Rattle.std.specs.Prelude.{◌≡◌, ℕ, IsTrue, List, IfOk, true};
ghost use Rattle.mt_cuts.specs.Canonical.{IsCanonical, finishes};
ghost use Rattle.mt_cuts.specs.View.{tree_of};
ghost use Rattle.mt_trees.specs.Symbols.{Symbol as SymbolForm};
ghost use Rattle.mt_trees.specs.Tests.{Found, clauses_tried, field_tested, value_tried};
ghost use Rattle.mt_synth.specs.Symbols.{symbol_form};
ghost use Rattle.mt_synth.specs.Cuts.{TreeAt, Means, Grows, IsCondition};
ghost use Rattle.mt_synth.specs.Decided.{AreKnown, clause_tried, clauses_hold};

use crate::conditions::is_known;
use crate::patterns::copied;
use crate::renaming::where_numbered;
use crate::symbol::Symbol;
use crate::table::Trees;
use crate::testing::field_tested;
use mt_cuts::{Cut, select};
use mt_kinds::Clause;
use mt_packet::{Cause, Field};
use mt_terms::Tree;
use std::alloc::{AllocError, Global};

/// The field that a clause looks at, and the value that it asks for.
fn asked(clause: Clause) -> (Field, u64)
    ensures { (header : List ℕ) (symbol : SymbolForm) (inside outside : Found) → value_tried header symbol clause inside outside ≡ field_tested header symbol result.0 result.1 result.1 inside outside }
{
    match clause {
        Clause::EthType(value) => (Field::EthType, u64::from(value)),
        Clause::EthDst(value) => (Field::EthDst, value),
        Clause::EthSrc(value) => (Field::EthSrc, value),
        Clause::ArpOp(value) => (Field::ArpOp, u64::from(value)),
    }
}

/// Where the field of a clause has its value and elsewhere.
fn value_tried(
    alloc: Global,
    devices: u32,
    trees: &mut Trees,
    symbol: &Symbol,
    clause: Clause,
    inside: &Cut,
    outside: Cut,
) -> Result<Cut, AllocError>
    requires inside { IsCanonical devices (tree_of inside.now) }
    requires outside { IsCanonical devices (tree_of outside) }
    requires finished { finishes devices outside ≡ true }
    ensures canonical { IfOk result (λ cut. IsCanonical devices (tree_of cut)) }
    ensures finishes { IfOk result (λ cut. finishes devices cut ≡ true) }
    ensures means { IfOk result (λ cut. (inside_at outside_at : TreeAt) → Means devices trees.old (tree_of inside.now) inside_at → Means devices trees.old (tree_of outside) outside_at
        → Means devices trees.new (tree_of cut) (λ header. value_tried header (symbol_form symbol.now) clause (inside_at header) (outside_at header))) }
    ensures grows { Grows trees.old trees.new }
{
    let (field, value) = asked(clause);
    field_tested(
        alloc, devices, trees, symbol, field, value, value, inside, outside,
    )
}

/// Where an Ethernet header is there and a clause holds, and elsewhere.
fn clause_tried(
    alloc: Global,
    devices: u32,
    trees: &mut Trees,
    symbol: &Symbol,
    clause: Clause,
    inside: &Cut,
    outside: &Cut,
) -> Result<Cut, AllocError>
    requires inside { IsCanonical devices (tree_of inside.now) }
    requires outside { IsCanonical devices (tree_of outside.now) }
    ensures canonical { IfOk result (λ cut. IsCanonical devices (tree_of cut)) }
    ensures finishes { IfOk result (λ cut. finishes devices cut ≡ true) }
    ensures means { IfOk result (λ cut. (inside_at outside_at : TreeAt) → Means devices trees.old (tree_of inside.now) inside_at → Means devices trees.old (tree_of outside.now) outside_at
        → Means devices trees.new (tree_of cut) (λ header. clause_tried header (symbol_form symbol.now) clause (inside_at header) (outside_at header))) }
    ensures grows { Grows trees.old trees.new }
{
    let other = copied(alloc, devices, outside)?;
    let has = value_tried(alloc, devices, trees, symbol, clause, inside, other)?;
    let other = copied(alloc, devices, outside)?;
    field_tested(
        alloc,
        devices,
        trees,
        symbol,
        Field::EthType,
        0,
        65535,
        &has,
        other,
    )
}

/// Where clauses hold, on no frame below 14 bytes, and elsewhere.
fn tried(
    alloc: Global,
    devices: u32,
    trees: &mut Trees,
    symbol: &Symbol,
    clauses: &[Clause],
    inside: Cut,
    outside: &Cut,
) -> Result<Cut, AllocError>
    requires inside { IsCanonical devices (tree_of inside) }
    requires outside { IsCanonical devices (tree_of outside.now) }
    requires finished { finishes devices inside ≡ true }
    ensures canonical { IfOk result (λ cut. IsCanonical devices (tree_of cut)) }
    ensures finishes { IfOk result (λ cut. finishes devices cut ≡ true) }
    ensures means { IfOk result (λ cut. (inside_at outside_at : TreeAt) → Means devices trees.old (tree_of inside) inside_at → Means devices trees.old (tree_of outside.now) outside_at
        → Means devices trees.new (tree_of cut) (λ header. clauses_tried header (symbol_form symbol.now) clauses.now (inside_at header) (outside_at header))) }
    ensures grows { Grows trees.old trees.new }
{
    let mut made = inside;
    let mut rest = clauses;
    while let [before @ .., last] = rest {
        made = clause_tried(alloc, devices, trees, symbol, *last, &made, outside)?;
        rest = before;
    }
    Ok(made)
}

/// Whether no clause can look at a term that needs a flow.
fn are_decided(symbol: &Symbol) -> bool
    ensures { IsTrue result → AreKnown (symbol_form symbol.now) }
{
    is_known(symbol.term(Field::EthType))
        && is_known(symbol.term(Field::EthDst))
        && is_known(symbol.term(Field::EthSrc))
        && is_known(symbol.term(Field::ArpOp))
}

/// Where clauses hold that the header decides: 1, and 0 elsewhere.
fn decided(
    alloc: Global,
    devices: u32,
    symbol: &Symbol,
    clauses: &[Clause],
) -> Result<Cut, AllocError>
    requires { AreKnown (symbol_form symbol.now) }
    ensures canonical { IfOk result (λ cut. IsCanonical devices (tree_of cut)) }
    ensures holds { IfOk result (λ cut. IsCondition devices (tree_of cut) (λ header. clauses_hold header (symbol_form symbol.now) clauses.now)) }
{
    let mut marks = Trees::new(alloc);
    let outside = marks.number(alloc, Tree::Drop(Cause::Filtered))?;
    let inside = marks.number(alloc, Tree::Drop(Cause::Unported))?;
    let cut = tried(
        alloc,
        devices,
        &mut marks,
        symbol,
        clauses,
        Cut::leaf(inside),
        &Cut::leaf(outside),
    )?;
    where_numbered(alloc, devices, &marks, &cut, inside)
}

/// Where clauses hold, on no frame below 14 bytes, and elsewhere.
pub(crate) fn clauses_tried(
    alloc: Global,
    devices: u32,
    trees: &mut Trees,
    symbol: &Symbol,
    clauses: &[Clause],
    inside: &Cut,
    outside: Cut,
) -> Result<Cut, AllocError>
    requires inside { IsCanonical devices (tree_of inside.now) }
    requires outside { IsCanonical devices (tree_of outside) }
    requires finished { finishes devices outside ≡ true }
    ensures canonical { IfOk result (λ cut. IsCanonical devices (tree_of cut)) }
    ensures finishes { IfOk result (λ cut. finishes devices cut ≡ true) }
    ensures means { IfOk result (λ cut. (inside_at outside_at : TreeAt) → Means devices trees.old (tree_of inside.now) inside_at → Means devices trees.old (tree_of outside) outside_at
        → Means devices trees.new (tree_of cut) (λ header. clauses_tried header (symbol_form symbol.now) clauses.now (inside_at header) (outside_at header))) }
    ensures grows { Grows trees.old trees.new }
{
    if are_decided(symbol) {
        let holds = decided(alloc, devices, symbol, clauses)?;
        return select(alloc, devices, &holds, inside, outside);
    }
    let inside = copied(alloc, devices, inside)?;
    tried(alloc, devices, trees, symbol, clauses, inside, &outside)
}
