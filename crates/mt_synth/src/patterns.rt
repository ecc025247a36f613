//! Patterns that are tried on a packet under way.
ghost use Rattle.std.specs.Prelude.{◌≡◌, ℕ, true, IfOk};
ghost use Rattle.mt_cuts.specs.Canonical.{IsCanonical, finishes};
ghost use Rattle.mt_cuts.specs.View.{tree_of};
ghost use Rattle.mt_trees.specs.Tests.{pattern_tried};
ghost use Rattle.mt_synth.specs.Symbols.{symbol_form};
ghost use Rattle.mt_synth.specs.Cuts.{TreeAt, Means, Grows, IsCondition};
ghost use Rattle.mt_synth.specs.Decided.{is_decided, pattern_holds};
ghost use Rattle.mt_cuts.specs.Tree.{value_of};
ghost use Rattle.mt_packet.specs.declared.field.Field.{Field};

use crate::conditions::is_known;
use crate::renaming::where_numbered;
use crate::symbol::Symbol;
use crate::table::Trees;
use crate::testing::tested;
use mt_cuts::{Cut, select};
use mt_packet::Cause;
use mt_pattern::Pattern;
use mt_terms::Tree;
use std::alloc::{AllocError, Global};

/// A side of a pattern that is tried when the other is done with, and what is not asked of it.
#[derive(Drop)]
enum Waiting<'a> {
    /// Where the other side held: goes on with what comes of it inside, and with this outside.
    Inside(&'a Pattern, Cut),
    /// Where the other side did not hold: goes on with this inside, and with what comes of it outside.
    Outside(&'a Pattern, Cut),
}

/// A copy of a tree of cuts.
pub(crate) fn copied(alloc: Global, devices: u32, cut: &Cut) -> Result<Cut, AllocError>
    requires { IsCanonical devices (tree_of cut.now) }
    ensures canonical { IfOk result (λ copy. IsCanonical devices (tree_of copy)) }
    ensures finishes { IfOk result (λ copy. finishes devices copy ≡ true) }
    ensures value { IfOk result (λ copy. (header : Field → ℕ) → value_of (tree_of copy) header ≡ value_of (tree_of cut.now) header) }
{
    select(alloc, devices, &Cut::leaf(1), cut, Cut::leaf(0))
}

/// A pattern from left to right, each side only where it is needed. What stands open is kept beside, and no call is
/// open for it, since a text can nest patterns as deep as it is long.
fn tried(
    alloc: Global,
    devices: u32,
    trees: &mut Trees,
    symbol: &Symbol,
    pattern: &Pattern,
    inside: Cut,
    outside: Cut,
) -> Result<Cut, AllocError>
    requires inside { IsCanonical devices (tree_of inside) }
    requires outside { IsCanonical devices (tree_of outside) }
    requires first { finishes devices inside ≡ true }
    requires second { finishes devices outside ≡ true }
    ensures canonical { IfOk result (λ cut. IsCanonical devices (tree_of cut)) }
    ensures finishes { IfOk result (λ cut. finishes devices cut ≡ true) }
    ensures means { IfOk result (λ cut. (inside_at outside_at : TreeAt) → Means devices trees.old (tree_of inside) inside_at → Means devices trees.old (tree_of outside) outside_at
        → Means devices trees.new (tree_of cut) (λ header. pattern_tried header (symbol_form symbol.now) pattern.now (inside_at header) (outside_at header))) }
    ensures grows { Grows trees.old trees.new }
{
    let mut rest = pattern;
    let mut inside = inside;
    let mut outside = outside;
    let mut waiting = Vec::new(alloc);
    loop {
        let made = match rest {
            Pattern::Not(inner) => {
                (inside, outside) = (outside, inside);
                rest = inner.get();
                continue;
            }
            Pattern::And(left, right) => {
                waiting.push(Waiting::Inside(left.get(), copied(alloc, devices, &outside)?))?;
                rest = right.get();
                continue;
            }
            Pattern::Or(left, right) => {
                waiting.push(Waiting::Outside(left.get(), copied(alloc, devices, &inside)?))?;
                rest = right.get();
                continue;
            }
            Pattern::True => inside,
            Pattern::Within(field, span) => {
                let term = symbol.term(*field);
                tested(alloc, devices, trees, term, *span, &inside, outside)?
            }
        };
        match waiting.pop() {
            None => return Ok(made),
            Some(Waiting::Inside(left, other)) => (rest, inside, outside) = (left, made, other),
            Some(Waiting::Outside(left, other)) => (rest, inside, outside) = (left, other, made),
        }
    }
}

/// Whether no part of a pattern looks at a term that needs a flow.
fn is_decided(alloc: Global, symbol: &Symbol, pattern: &Pattern) -> Result<bool, AllocError>
    ensures { IfOk result (λ decided. decided ≡ is_decided (symbol_form symbol.now) pattern.now) }
{
    let mut rest = Vec::new(alloc);
    rest.push(pattern)?;
    while let Some(pattern) = rest.pop() {
        match pattern {
            Pattern::True => {}
            Pattern::Within(field, _) => {
                if !is_known(symbol.term(*field)) {
                    return Ok(false);
                }
            }
            Pattern::Not(inner) => rest.push(inner.get())?,
            Pattern::And(left, right) => {
                rest.push(left.get())?;
                rest.push(right.get())?;
            }
            Pattern::Or(left, right) => {
                rest.push(left.get())?;
                rest.push(right.get())?;
            }
        }
    }
    Ok(true)
}

/// Where a pattern holds that the header decides: 1, and 0 elsewhere.
fn decided(
    alloc: Global,
    devices: u32,
    symbol: &Symbol,
    pattern: &Pattern,
) -> Result<Cut, AllocError>
    requires { is_decided (symbol_form symbol.now) pattern.now ≡ true }
    ensures canonical { IfOk result (λ cut. IsCanonical devices (tree_of cut)) }
    ensures holds { IfOk result (λ cut. IsCondition devices (tree_of cut) (λ header. pattern_holds header (symbol_form symbol.now) pattern.now)) }
{
    let mut marks = Trees::new(alloc);
    let outside = marks.number(alloc, Tree::Drop(Cause::Filtered))?;
    let inside = marks.number(alloc, Tree::Drop(Cause::Unported))?;
    let cut = tried(
        alloc,
        devices,
        &mut marks,
        symbol,
        pattern,
        Cut::leaf(inside),
        Cut::leaf(outside),
    )?;
    where_numbered(alloc, devices, &marks, &cut, inside)
}

/// Where a pattern holds and elsewhere.
pub(crate) fn pattern_tried(
    alloc: Global,
    devices: u32,
    trees: &mut Trees,
    symbol: &Symbol,
    pattern: &Pattern,
    inside: &Cut,
    outside: Cut,
) -> Result<Cut, AllocError>
    requires inside { IsCanonical devices (tree_of inside.now) }
    requires outside { IsCanonical devices (tree_of outside) }
    requires finished { finishes devices outside ≡ true }
    ensures canonical { IfOk result (λ cut. IsCanonical devices (tree_of cut)) }
    ensures finishes { IfOk result (λ cut. finishes devices cut ≡ true) }
    ensures means { IfOk result (λ cut. (inside_at outside_at : TreeAt) → Means devices trees.old (tree_of inside.now) inside_at → Means devices trees.old (tree_of outside) outside_at
        → Means devices trees.new (tree_of cut) (λ header. pattern_tried header (symbol_form symbol.now) pattern.now (inside_at header) (outside_at header))) }
    ensures grows { Grows trees.old trees.new }
{
    if is_decided(alloc, symbol, pattern)? {
        let holds = decided(alloc, devices, symbol, pattern)?;
        return select(alloc, devices, &holds, inside, outside);
    }
    let inside = copied(alloc, devices, inside)?;
    tried(alloc, devices, trees, symbol, pattern, inside, outside)
}
