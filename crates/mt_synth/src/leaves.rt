//! The ends of ways.
ghost use Rattle.std.specs.Prelude.{◌≡◌, ℕ, IfOk, Some, true};
ghost use Rattle.mt_cuts.specs.Canonical.{IsCanonical, finishes};
ghost use Rattle.mt_cuts.specs.View.{tree_of};
ghost use Rattle.mt_terms.specs.Terms.{term_form};
ghost use Rattle.mt_terms.specs.Trees.{leaf, rewrite_form};
ghost use Rattle.mt_trees.specs.Elements.{dropped, is_own, rewrite_of};
ghost use Rattle.mt_synth.specs.Symbols.{symbol_form};
ghost use Rattle.mt_synth.specs.Cuts.{TreeAt, Means, Grows};

use crate::symbol::Symbol;
use crate::table::Trees;
use mt_cuts::Cut;
use mt_packet::{Cause, Field};
use mt_terms::{FieldWrite, Rewrite, Term, Tree, WriteList};
use std::alloc::{AllocError, Global};

/// A packet that is dropped.
pub(crate) fn dropped(alloc: Global, trees: &mut Trees, cause: Cause) -> Result<Cut, AllocError>
    ensures canonical { IfOk result (λ cut. (devices : ℕ) → IsCanonical devices (tree_of cut)) }
    ensures finishes { IfOk result (λ cut. (devices : ℕ) → finishes devices cut ≡ true) }
    ensures means { IfOk result (λ cut. (devices : ℕ) → Means devices trees.new (tree_of cut) (λ header. dropped cause)) }
    ensures grows { Grows trees.old trees.new }
{
    let number = trees.number(alloc, Tree::Drop(cause))?;
    Ok(Cut::leaf(number))
}

/// The fields that are written, ascending.
const WRITTEN: [Field; 9] = [
    Field::EthType,
    Field::EthDst,
    Field::EthSrc,
    Field::Src,
    Field::Dst,
    Field::Dscp,
    Field::Sport,
    Field::Dport,
    Field::Ttl,
];

/// Whether a term is the field's own value as the frame arrived.
fn is_own(field: Field, term: &Term) -> bool
    ensures { result ≡ is_own field (term_form term.now) }
{
    match term {
        Term::Entry(own) => own.number() == field.number(),
        Term::Const(_) | Term::Less(_, _) | Term::Flow(_, _) => false,
    }
}

/// The rewrite of a packet at the end of its way.
fn rewrite_of(alloc: Global, symbol: &Symbol) -> Result<Rewrite, AllocError>
    ensures { IfOk result (λ rewrite. rewrite_form rewrite ≡ rewrite_of (symbol_form symbol.now)) }
{
    let mut writes = Vec::new(alloc);
    let mut rest = WRITTEN.as_slice();
    while let [field, after @ ..] = rest {
        let term = symbol.term(*field);
        if !is_own(*field, term) {
            writes.push(FieldWrite {
                field: *field,
                term: term.copy(alloc)?,
            })?;
        }
        rest = after;
    }
    Ok(Rewrite {
        trim: symbol.trims(),
        untag: false,
        tag: None,
        writes: WriteList::from_vec(writes),
    })
}

/// A packet that is sent to a device.
pub(crate) fn sent(
    alloc: Global,
    trees: &mut Trees,
    symbol: &Symbol,
    device: u32,
) -> Result<Cut, AllocError>
    ensures canonical { IfOk result (λ cut. (devices : ℕ) → IsCanonical devices (tree_of cut)) }
    ensures means { IfOk result (λ cut. (devices : ℕ) → Means devices trees.new (tree_of cut) (λ header. Some (leaf (rewrite_of (symbol_form symbol.now)) device))) }
    ensures grows { Grows trees.old trees.new }
{
    let number = trees.number(alloc, Tree::Leaf(rewrite_of(alloc, symbol)?, device))?;
    Ok(Cut::leaf(number))
}
