//! Tests of terms.
ghost use Rattle.std.specs.Prelude.{◌≡◌, ℕ, IfOk, Some, get_or, option_map, slice_get, true};
ghost use Rattle.mt_cuts.specs.Canonical.{IsCanonical, finishes};
ghost use Rattle.mt_cuts.specs.View.{tree_of};
ghost use Rattle.mt_terms.specs.Terms.{term_form};
ghost use Rattle.mt_terms.specs.Trees.{tree_form};
ghost use Rattle.mt_trees.specs.Tests.{tested, field_tested, kept};
ghost use Rattle.mt_synth.specs.Symbols.{symbol_form};
ghost use Rattle.mt_synth.specs.Cuts.{TreeAt, Means, Grows, tree_numbered};
ghost use Rattle.mt_synth.specs.Tests.{IsTestOf};

use crate::conditions::condition;
use crate::renaming::renamed;
use crate::symbol::Symbol;
use crate::table::Trees;
use mt_cuts::{Cut, product, select};
use mt_packet::{Field, Span};
use mt_terms::{Term, Tree};
use std::alloc::{AllocError, Global};

/// A copy of the tree of a number. None where there is no such tree.
fn tree_at(alloc: Global, trees: &Trees, number: u32) -> Result<Option<Tree>, AllocError>
    ensures { IfOk result (λ found. option_map tree_form found ≡ tree_numbered trees.now number) }
{
    match trees.as_slice().get(number as usize) {
        Some(tree) => Ok(Some(tree.copy(alloc)?)),
        None => Ok(None),
    }
}

/// The number of a test with the trees of these numbers.
fn test_of(
    alloc: Global,
    trees: &mut Trees,
    term: &Term,
    span: Span,
    inside: u32,
    outside: u32,
) -> Result<u32, AllocError>
    ensures test { IfOk result (λ number. IsTestOf trees.old trees.new (term_form term.now) span (inside, outside) number) }
    ensures grows { Grows trees.old trees.new }
{
    let Some(inside) = tree_at(alloc, trees, inside)? else {
        return Ok(0);
    };
    let Some(outside) = tree_at(alloc, trees, outside)? else {
        return Ok(0);
    };
    let term = term.copy(alloc)?;
    let inside = Box::new(alloc, inside)?;
    let outside = Box::new(alloc, outside)?;
    trees.number(alloc, Tree::Test(term, span, inside, outside))
}

/// The numbers of the tests with the trees of each pair.
fn tests_of(
    alloc: Global,
    trees: &mut Trees,
    term: &Term,
    span: Span,
    pairs: &[(u32, u32)],
) -> Result<Vec<u32>, AllocError>
    ensures tests { IfOk result (λ numbers. (place : ℕ) (pair : ℕ × ℕ) → slice_get pairs.now place ≡ Some pair
        → IsTestOf trees.old trees.new (term_form term.now) span pair (get_or numbers.items place 0)) }
    ensures grows { Grows trees.old trees.new }
{
    let mut numbers = Vec::new(alloc);
    for pair in pairs {
        numbers.push(test_of(alloc, trees, term, span, pair.0, pair.1)?)?;
    }
    Ok(numbers)
}

/// A test that stays, since only a flow decides it.
fn kept(
    alloc: Global,
    devices: u32,
    trees: &mut Trees,
    term: &Term,
    span: Span,
    inside: &Cut,
    outside: &Cut,
) -> Result<Cut, AllocError>
    requires inside { IsCanonical devices (tree_of inside.now) }
    requires outside { IsCanonical devices (tree_of outside.now) }
    ensures canonical { IfOk result (λ cut. IsCanonical devices (tree_of cut)) }
    ensures finishes { IfOk result (λ cut. finishes devices cut ≡ true) }
    ensures means { IfOk result (λ cut. (inside_at outside_at : TreeAt) → Means devices trees.old (tree_of inside.now) inside_at → Means devices trees.old (tree_of outside.now) outside_at
        → Means devices trees.new (tree_of cut) (λ header. kept (term_form term.now) span (inside_at header) (outside_at header))) }
    ensures grows { Grows trees.old trees.new }
{
    let (cut, pairs) = product(alloc, devices, inside, outside)?;
    let names = tests_of(alloc, trees, term, span, &pairs)?;
    renamed(alloc, devices, &cut, &names)
}

/// Where a term lies in a span and elsewhere.
pub(crate) fn tested(
    alloc: Global,
    devices: u32,
    trees: &mut Trees,
    term: &Term,
    span: Span,
    inside: &Cut,
    outside: Cut,
) -> Result<Cut, AllocError>
    requires inside { IsCanonical devices (tree_of inside.now) }
    requires outside { IsCanonical devices (tree_of outside) }
    requires finished { finishes devices outside ≡ true }
    ensures canonical { IfOk result (λ cut. IsCanonical devices (tree_of cut)) }
    ensures finishes { IfOk result (λ cut. finishes devices cut ≡ true) }
    ensures means { IfOk result (λ cut. (inside_at outside_at : TreeAt) → Means devices trees.old (tree_of inside.now) inside_at → Means devices trees.old (tree_of outside) outside_at
        → Means devices trees.new (tree_of cut) (λ header. tested header (term_form term.now) span (inside_at header) (outside_at header))) }
    ensures grows { Grows trees.old trees.new }
{
    match condition(alloc, devices, term, span)? {
        Some(holds) => select(alloc, devices, &holds, inside, outside),
        None => kept(alloc, devices, trees, term, span, inside, &outside),
    }
}

/// Where a field lies in a span and elsewhere.
pub(crate) fn field_tested(
    alloc: Global,
    devices: u32,
    trees: &mut Trees,
    symbol: &Symbol,
    field: Field,
    lo: u64,
    hi: u64,
    inside: &Cut,
    outside: Cut,
) -> Result<Cut, AllocError>
    requires inside { IsCanonical devices (tree_of inside.now) }
    requires outside { IsCanonical devices (tree_of outside) }
    requires finished { finishes devices outside ≡ true }
    ensures canonical { IfOk result (λ cut. IsCanonical devices (tree_of cut)) }
    ensures finishes { IfOk result (λ cut. finishes devices cut ≡ true) }
    ensures means { IfOk result (λ cut. (inside_at outside_at : TreeAt) → Means devices trees.old (tree_of inside.now) inside_at → Means devices trees.old (tree_of outside) outside_at
        → Means devices trees.new (tree_of cut) (λ header. field_tested header (symbol_form symbol.now) field lo hi (inside_at header) (outside_at header))) }
    ensures grows { Grows trees.old trees.new }
{
    let span = Span { lo, hi };
    tested(
        alloc,
        devices,
        trees,
        symbol.term(field),
        span,
        inside,
        outside,
    )
}
