//! What a passage at a rewriter makes of the trees behind its outputs.
ghost use Rattle.std.specs.Prelude.{◌≡◌, ℕ, List, [], ◌∷◌, ◌++◌, length, map, get_or, IfOk, OnOk, Some, slice_get};
ghost use Rattle.std.specs.List.{list_all};
ghost use Rattle.mt_cuts.specs.Canonical.{IsCanonical};
ghost use Rattle.mt_cuts.specs.View.{tree_of};
ghost use Rattle.mt_elements.specs.ChainState.{ChainState, mappers_of};
ghost use Rattle.mt_kinds.specs.declared.kind.Kind.{Kind};
ghost use Rattle.mt_kinds.specs.declared.rewriter.Spec.{Spec};
ghost use Rattle.mt_kinds.specs.declared.kind.Kind.TheVariants.{IPRewriter};
ghost use Rattle.mt_packet.specs.declared.field.Field.{Field};
ghost use Rattle.mt_cuts.specs.Tree.{value_of};
ghost use Rattle.mt_terms.specs.Trees.{op_form, branch_form, branches_of};
ghost use Rattle.mt_terms.specs.Trees.{passage as op};
ghost use Rattle.mt_synth.specs.Branches.{branch_named, branches_named, IsNamed};
ghost use Rattle.mt_trees.specs.Elements.{Along, passage_tree};
ghost use Rattle.mt_trees.specs.Passages.{across, behind, code_of, keeps_part, spec_leaves, template_leaves};
ghost use Rattle.mt_synth.specs.Cuts.{Means, Grows, AreBehind, AreCanonical, tree_numbered};
ghost use Rattle.mt_synth.specs.Exits.{rewriter_exits, taken_exits};
ghost use Rattle.mt_synth.specs.Symbols.{symbol_form};

use crate::exits::Exit;
use crate::renaming::renamed;
use crate::symbol::{Symbol, field_of_part};
use crate::table::Trees;
use mt_cuts::{Cut, product};
use mt_terms::{OpCode, Part, Tree};
use std::alloc::{AllocError, Global};

/// The code of a passage.
fn code_of(alloc: Global, at: (u32, u32), symbol: &Symbol) -> Result<OpCode, AllocError>
    ensures { IfOk result (λ code. op_form code ≡ code_of at (symbol_form symbol.now)) }
{
    let part = |part: Part| symbol.term(field_of_part(part)).copy(alloc);
    Ok(OpCode {
        element: at.0,
        input: at.1,
        sa: part(Part::Sa)?,
        sp: part(Part::Sp)?,
        da: part(Part::Da)?,
        dp: part(Part::Dp)?,
    })
}

/// The list of that number with one tree more.
fn one_longer(
    alloc: Global,
    lists: &[Vec<u32>],
    list: u32,
    tree: u32,
) -> Result<Vec<u32>, AllocError>
    ensures { IfOk result (λ made. made.items ≡ get_or (map (λ v. v.items) lists.now) list [] ++ tree ∷ []) }
{
    let mut made = match lists.get(list as usize) {
        Some(front) => Vec::from_slice(alloc, front)?,
        None => Vec::new(alloc),
    };
    made.push(tree)?;
    Ok(made)
}

/// Lists of trees by number, each with one more.
fn longer(
    alloc: Global,
    lists: &[Vec<u32>],
    pairs: &[(u32, u32)],
) -> Result<Vec<Vec<u32>>, AllocError>
    ensures { IfOk result (λ made. map (λ v. v.items) made.items ≡ map (λ pair. get_or (map (λ v. v.items) lists.now) pair.0 [] ++ pair.1 ∷ []) pairs.now) }
{
    let mut made = Vec::with_capacity(alloc, pairs.len())?;
    let mut rest = pairs;
    while let [(list, tree), after @ ..] = rest {
        made.push(one_longer(alloc, lists, *list, *tree)?)?;
        rest = after;
    }
    Ok(made)
}

/// The product of trees: at a header its value is the number of the list of their values.
fn combined(alloc: Global, devices: u32, cuts: &[Cut]) -> Result<(Cut, Vec<Vec<u32>>), AllocError>
    requires { AreCanonical devices cuts.now }
    ensures canonical { IfOk result (λ r. IsCanonical devices (tree_of r.0)) }
    ensures lists { IfOk result (λ r. (header : Field → ℕ) → slice_get (map (λ v. v.items) r.1.items) (value_of (tree_of r.0) header)
        ≡ Some (map (λ cut. value_of (tree_of cut) header) cuts.now)) }
{
    let mut made = Cut::leaf(0);
    let mut lists = Vec::new(alloc);
    lists.push(Vec::new(alloc))?;
    let mut place = 0;
    while place < cuts.len() {
        let (next, pairs) = product(alloc, devices, &made, &cuts[place])?;
        lists = longer(alloc, &lists, &pairs)?;
        made = next;
        place += 1;
    }
    Ok((made, lists))
}

/// A branch with the tree of that number, where there is one.
fn push_branch(
    alloc: Global,
    made: &mut Vec<(u32, Tree)>,
    trees: &[Tree],
    out: u32,
    number: u32,
) -> Result<(), AllocError>
    ensures { OnOk result (map branch_form made.new.items ≡ map branch_form made.old.items ++ branch_named out (tree_numbered trees.now number)) }
{
    if let Some(tree) = trees.get(number as usize) {
        made.push((out, tree.copy(alloc)?))?;
    }
    Ok(())
}

/// The branches with the trees of these numbers.
fn branches_named(
    alloc: Global,
    trees: &[Tree],
    exits: &[Exit],
    numbers: &[u32],
) -> Result<Vec<(u32, Tree)>, AllocError>
    ensures { IfOk result (λ made. map branch_form made.items ≡ branches_named trees.now (map (λ exit. exit.out) exits.now) numbers.now) }
{
    let mut made = Vec::new(alloc);
    let mut outs = exits;
    let mut rest = numbers;
    while let [number, after @ ..] = rest {
        let [exit, later @ ..] = outs else {
            return Ok(made);
        };
        push_branch(alloc, &mut made, trees, exit.out, *number)?;
        outs = later;
        rest = after;
    }
    Ok(made)
}

/// The number of a passage with these branches.
fn op_of(
    alloc: Global,
    trees: &mut Trees,
    at: (u32, u32),
    symbol: &Symbol,
    exits: &[Exit],
    branches: &[u32],
) -> Result<u32, AllocError>
    ensures number { IfOk result (λ n. tree_numbered trees.new n
        ≡ Some (op (code_of at (symbol_form symbol.now)) (branches_of (branches_named trees.old (map (λ exit. exit.out) exits.now) branches.now)))) }
    ensures grows { Grows trees.old trees.new }
{
    let made = branches_named(alloc, trees.as_slice(), exits, branches)?;
    let tree = Tree::Op(code_of(alloc, at, symbol)?, made);
    trees.number(alloc, tree)
}

/// The numbers of the passages with these lists of branches.
fn named(
    alloc: Global,
    trees: &mut Trees,
    at: (u32, u32),
    symbol: &Symbol,
    exits: &[Exit],
    lists: &[Vec<u32>],
) -> Result<Vec<u32>, AllocError>
    ensures names { IfOk result (λ names. (place : ℕ) (list : List ℕ) → slice_get (map (λ v. v.items) lists.now) place ≡ Some list
        → IsNamed trees.old trees.new (code_of at (symbol_form symbol.now)) (map (λ exit. exit.out) exits.now) list (get_or names.items place 0)) }
    ensures grows { Grows trees.old trees.new }
{
    let mut names = Vec::with_capacity(alloc, lists.len())?;
    let mut place = 0;
    while place < lists.len() {
        let name = op_of(alloc, trees, at, symbol, exits, &lists[place])?;
        names.push(name)?;
        place += 1;
    }
    Ok(names)
}

/// A passage: each output that can be taken, with its tree.
pub(crate) fn passed(
    alloc: Global,
    devices: u32,
    trees: &mut Trees,
    at: (u32, u32),
    symbol: &Symbol,
    exits: &[Exit],
    cuts: &[Cut],
) -> Result<Cut, AllocError>
    requires count { length cuts.now ≡ length exits.now }
    requires cuts { AreCanonical devices cuts.now }
    ensures canonical { IfOk result (λ cut. IsCanonical devices (tree_of cut)) }
    ensures means { IfOk result (λ cut. (chain : ChainState) (along : List ℕ → Along) (own : Kind) (specs : List Spec) (spec : Spec)
        → map (λ exit. (exit.out, symbol_form exit.symbol)) exits.now ≡ taken_exits chain at specs spec (symbol_form symbol.now)
        → AreBehind devices trees.old chain along at own (taken_exits chain at specs spec (symbol_form symbol.now)) cuts.now
        → Means devices trees.new (tree_of cut) (λ header. passage_tree chain header (along header) at own (symbol_form symbol.now) specs spec)) }
    ensures grows { Grows trees.old trees.new }
{
    let (made, lists) = combined(alloc, devices, cuts)?;
    let names = named(alloc, trees, at, symbol, exits, &lists)?;
    renamed(alloc, devices, &made, &names)
}
