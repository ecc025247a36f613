//! How packets leave a rewriter: the outputs that can be taken, and the packet behind a passage.
ghost use Rattle.std.specs.Prelude.{◌≡◌, ◌++◌, ℕ, List, length, map, IfOk, OnOk, Some, slice_get};
ghost use Rattle.std.specs.List.{list_all};
ghost use Rattle.mt_cuts.specs.Canonical.{IsCanonical};
ghost use Rattle.mt_cuts.specs.View.{tree_of};
ghost use Rattle.mt_elements.specs.ChainState.{ChainState, mappers_of};
ghost use Rattle.mt_kinds.specs.declared.kind.Kind.{Kind};
ghost use Rattle.mt_kinds.specs.declared.rewriter.Spec.{Spec};
ghost use Rattle.mt_kinds.specs.declared.kind.Kind.TheVariants.{IPRewriter};
ghost use Rattle.mt_terms.specs.Trees.{op_form};
ghost use Rattle.mt_trees.specs.Elements.{Along, passage_tree};
ghost use Rattle.mt_trees.specs.Passages.{across, behind, code_of, keeps_part, part_behind, spec_leaves, template_leaves};
ghost use Rattle.mt_synth.specs.Cuts.{Means, Grows, AreBehind, AreCanonical};
ghost use Rattle.mt_elements.specs.Accepted.{behavior_of};
ghost use Rattle.mt_rewriter.specs.Passages.{unported};
ghost use Rattle.mt_synth.specs.Exits.{by_outputs, exit_forms, passed_exits, rewriter_exits, taken_exits};
ghost use Rattle.mt_synth.specs.Symbols.{symbol_form};

use crate::exits::Exit;
use crate::symbol::Symbol;
use mt_elements::Chain;
use mt_kinds::{SourcePort, Spec, Template, Templates};
use mt_terms::Part;
use std::alloc::{AllocError, Global};

/// Whether a template leaves a part as it is.
fn template_leaves(part: Part, template: &Template) -> bool
    ensures { result ≡ template_leaves part template.now }
{
    match part {
        Part::Sa => template.sa.is_none(),
        Part::Sp => matches!(template.sp, SourcePort::Same),
        Part::Da => template.da.is_none(),
        Part::Dp => template.dp.is_none(),
    }
}

/// Whether all templates leave it.
fn templates_leave(part: Part, templates: &[Template]) -> bool
    ensures { result ≡ list_all (template_leaves part) templates.now }
{
    let mut rest = templates;
    while let [template, after @ ..] = rest {
        if !template_leaves(part, template) {
            return false;
        }
        rest = after;
    }
    true
}

/// Whether all that a specification can make leaves it.
fn spec_leaves(mappers: &[Templates], part: Part, spec: &Spec) -> bool
    ensures { result ≡ spec_leaves mappers.now part spec.now }
{
    match spec {
        Spec::Drop | Spec::Pass(_) | Spec::Keep(_, _) => true,
        Spec::Pattern(template) => template_leaves(part, template),
        Spec::Mapper(number) => match mappers.get(*number as usize) {
            Some(templates) => templates_leave(part, templates.as_slice()),
            None => true,
        },
    }
}

/// Whether all specifications leave it.
fn specs_leave(mappers: &[Templates], part: Part, specs: &[Spec]) -> bool
    ensures { result ≡ list_all (spec_leaves mappers.now part) specs.now }
{
    let mut rest = specs;
    while let [spec, after @ ..] = rest {
        if !spec_leaves(mappers, part, spec) {
            return false;
        }
        rest = after;
    }
    true
}

/// The part of the other end, from which replies are rewritten.
fn across(part: Part) -> Part
    ensures { result ≡ across part }
{
    match part {
        Part::Sa => Part::Da,
        Part::Sp => Part::Dp,
        Part::Da => Part::Sa,
        Part::Dp => Part::Sp,
    }
}

/// Whether a part keeps its term at an input with this specification.
fn keeps_part(mappers: &[Templates], specs: &[Spec], spec: &Spec, part: Part) -> bool
    ensures { result ≡ keeps_part mappers.now specs.now spec.now part }
{
    match spec {
        Spec::Drop | Spec::Pass(_) => specs_leave(mappers, across(part), specs),
        _ => spec_leaves(mappers, part, spec),
    }
}

/// A part that may change is that of the flow after a passage.
fn follow_unless(kept: bool, passage: u32, part: Part, symbol: &mut Symbol)
    ensures { symbol_form symbol.new ≡ part_behind passage kept part (symbol_form symbol.old) }
{
    if !kept {
        symbol.follow(passage, part);
    }
}

/// The packet behind a passage at an input with this specification.
fn behind(
    alloc: Global,
    mappers: &[Templates],
    specs: &[Spec],
    spec: &Spec,
    symbol: &Symbol,
) -> Result<Symbol, AllocError>
    ensures { IfOk result (λ after. symbol_form after ≡ behind (keeps_part mappers.now specs.now spec.now) (symbol_form symbol.now)) }
{
    let mut after = symbol.copy(alloc)?;
    let passage = after.count_passage()?;
    let kept = |part: Part| keeps_part(mappers, specs, spec, part);
    follow_unless(kept(Part::Sa), passage, Part::Sa, &mut after);
    follow_unless(kept(Part::Sp), passage, Part::Sp, &mut after);
    follow_unless(kept(Part::Da), passage, Part::Da, &mut after);
    follow_unless(kept(Part::Dp), passage, Part::Dp, &mut after);
    after.annotate(alloc)?;
    Ok(after)
}

/// How packets leave a rewriter: without visible ports by the output of a `pass`, first, and behind a passage by the outputs
/// that can be taken, ascending.
pub(crate) fn passage_exits(
    alloc: Global,
    chain: &Chain,
    at: (u32, u32),
    specs: &[Spec],
    symbol: &Symbol,
) -> Result<Vec<Exit>, AllocError>
    requires there { slice_get chain.now.kinds at.0 ≡ Some (IPRewriter specs.now) }
    ensures { IfOk result (λ exits. map (λ exit. (exit.out, symbol_form exit.symbol)) exits.items ≡ rewriter_exits chain.now at specs.now (slice_get specs.now at.1) (symbol_form symbol.now)) }
{
    let Some(spec) = specs.get(at.1 as usize) else {
        return Ok(Vec::new(alloc));
    };
    let mut exits = passed_exits(alloc, spec, symbol)?;
    let after = behind(alloc, chain.templates(), specs, spec, symbol)?;
    push_taken(alloc, chain, at, chain.outputs(at.0), &after, &mut exits)?;
    Ok(exits)
}

/// How packets leave without visible ports.
fn passed_exits(alloc: Global, spec: &Spec, symbol: &Symbol) -> Result<Vec<Exit>, AllocError>
    ensures { IfOk result (λ exits. exit_forms exits.items ≡ passed_exits (unported spec.now) (symbol_form symbol.now)) }
{
    let mut exits = Vec::new(alloc);
    match spec {
        Spec::Pass(out) => {
            let mut passed = symbol.copy(alloc)?;
            passed.annotate(alloc)?;
            exits.push(Exit {
                out: *out,
                symbol: passed,
            })?;
        }
        Spec::Drop | Spec::Keep(_, _) | Spec::Pattern(_) | Spec::Mapper(_) => {}
    }
    Ok(exits)
}

/// Adds the packet by each of the first outputs to which the input leads.
fn push_taken(
    alloc: Global,
    chain: &Chain,
    at: (u32, u32),
    count: u32,
    after: &Symbol,
    exits: &mut Vec<Exit>,
) -> Result<(), AllocError>
    ensures { OnOk result (exit_forms exits.new.items ≡ exit_forms exits.old.items ++ by_outputs ((behavior_of chain.now.kinds).leads at.0 at.1) count (symbol_form after.now)) }
{
    for out in 0..count {
        if chain.leads(at.0, at.1, out) {
            exits.push(Exit {
                out,
                symbol: after.copy(alloc)?,
            })?;
        }
    }
    Ok(())
}
