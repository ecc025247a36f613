//! A packet under way, with terms in place of values.
ghost use Rattle.std.specs.Prelude.{◌≡◌, map, IfOk, OnOk};
ghost use Rattle.mt_packet.specs.declared.field.Field.TheVariants as of;
ghost use Rattle.mt_terms.specs.Terms.{term_form, flow_part};
ghost use Rattle.mt_trees.specs.Passages.{field_of_part, one_more};
ghost use Rattle.mt_trees.specs.Symbols.{first_symbol, term_at, with_term, annotated, stripped, encapsulated, checked, refused};
ghost use Rattle.mt_synth.specs.Exits.{number_in};
ghost use Rattle.mt_synth.specs.Symbols.{IsPaint, first_term, symbol_form};

use mt_packet::{FIELDS, Field, HEADER_FIELDS, Layer};
use mt_terms::{Part, Term};
use std::alloc::{AllocError, Global};
use std::marker::Model;

/// A packet under way: a term for each field by its number, its layer, whether it was checked, and the number of
/// passages behind it.
#[derive(Drop)]
pub(crate) struct Symbol {
    terms: Vec<Term>,
    layer: Layer,
    trim: bool,
    passages: u32,
}

impl Model for Symbol {
    ghost use Rattle.std.specs.Prelude.{List, Bool, ℕ};
    ghost use Rattle.mt_packet.specs.declared.layer.Layer.{Layer};
    ghost use Rattle.mt_terms.specs.declared.term.Term.{Term};
    ghost use Rattle.mt_synth.specs.Symbols.{IsSymbol, symbol_form};
    ghost use Rattle.mt_terms.specs.contracts.term.Term as term;
    ghost use Rattle.std.specs.Coded.{codes};

    ghost Value = { List Term × Layer × Bool × ℕ };

    ghost coded = { Prim.hlevel (codes, term.the_row.coded) };

    ghost view = { λ s. (s.terms.items, s.layer, s.trim, s.passages) };

    ghost invariant = { λ s. IsSymbol (symbol_form (s.terms.items, s.layer, s.trim, s.passages)) };
}

impl Symbol {
    /// As its frame arrives: each field is its own, but the paint and the annotation, which are 0.
    pub fn arrived(alloc: Global) -> Result<Symbol, AllocError>
        ensures { IfOk result (λ symbol. symbol_form symbol ≡ first_symbol) }
    {
        Ok(Symbol {
            terms: first_terms(alloc)?,
            layer: Layer::Frame,
            trim: false,
            passages: 0,
        })
    }

    /// A copy of the terms.
    pub fn terms(&self, alloc: Global) -> Result<Vec<Term>, AllocError>
        ensures { IfOk result (λ terms. map term_form terms.items ≡ (symbol_form self.now).terms) }
    {
        let mut terms = Vec::with_capacity(alloc, HEADER_FIELDS)?;
        let mut rest = self.terms.as_slice();
        while let [term, after @ ..] = rest {
            terms.push(term.copy(alloc)?)?;
            rest = after;
        }
        Ok(terms)
    }

    pub fn copy(&self, alloc: Global) -> Result<Symbol, AllocError>
        ensures { IfOk result (λ copy. symbol_form copy ≡ symbol_form self.now) }
    {
        Ok(Symbol {
            terms: self.terms(alloc)?,
            layer: self.layer,
            trim: self.trim,
            passages: self.passages,
        })
    }

    pub fn layer(&self) -> Layer
        ensures { result ≡ (symbol_form self.now).layer }
    {
        self.layer
    }

    pub fn trims(&self) -> bool
        ensures { result ≡ (symbol_form self.now).trim }
    {
        self.trim
    }

    pub fn passages(&self) -> u32
        ensures { result ≡ (symbol_form self.now).passages }
    {
        self.passages
    }

    /// What a field is.
    pub fn term(&self, field: Field) -> &Term
        ensures { term_form result.now ≡ term_at (symbol_form self.now) field }
    {
        &self.terms[field.number()]
    }

    /// The paint, a number that an element gave.
    pub fn paint(&self) -> u32
        ensures { result ≡ number_in (term_at (symbol_form self.now) of.Paint) }
    {
        let _ = &self.terms;
        match self.term(Field::Paint) {
            Term::Const(paint) => *paint as u32,
            Term::Entry(_) | Term::Less(_, _) | Term::Flow(_, _) => 0,
        }
    }

    /// The paint is a number of 8 bits.
    pub fn has_paint(&self)
        ensures { IsPaint (term_at (symbol_form self.now) of.Paint) }
    {
        let _ = &self.terms;
    }

    /// Another term for a field.
    pub fn set(&mut self, field: Field, term: Term)
        requires { field ≡ of.Paint → IsPaint (term_form term) }
        ensures { symbol_form self.new ≡ with_term (symbol_form self.old) field (term_form term) }
    {
        self.terms[field.number()] = term;
    }

    /// The annotation is the destination.
    pub fn annotate(&mut self, alloc: Global) -> Result<(), AllocError>
        ensures { OnOk result (symbol_form self.new ≡ annotated (symbol_form self.old)) }
    {
        let dst = self.term(Field::Dst).copy(alloc)?;
        self.set(Field::Annotation, dst);
        Ok(())
    }

    /// The Ethernet header is taken away.
    pub fn strip(&mut self)
        ensures { symbol_form self.new ≡ stripped (symbol_form self.old) }
    {
        self.set(Field::EthType, Term::Const(65536));
        self.set(Field::EthDst, Term::Const(0));
        self.set(Field::EthSrc, Term::Const(0));
        self.set(Field::ArpOp, Term::Const(65536));
        self.layer = match self.layer {
            Layer::Frame | Layer::Bare => Layer::Bare,
            Layer::Ip | Layer::Framed => Layer::Ip,
        };
    }

    /// An Ethernet header is put in front.
    pub fn encapsulate(&mut self, ether_type: u16, src: u64, dst: u64)
        ensures { symbol_form self.new ≡ encapsulated (symbol_form self.old) ether_type src dst }
    {
        self.set(Field::EthType, Term::Const(u64::from(ether_type)));
        self.set(Field::EthDst, Term::Const(dst));
        self.set(Field::EthSrc, Term::Const(src));
        self.set(Field::ArpOp, Term::Const(65536));
        self.layer = Layer::Framed;
    }

    /// The terms of two fields are exchanged.
    pub fn swap(&mut self, alloc: Global, one: Field, other: Field) -> Result<(), AllocError>
        requires one { one ≡ of.Paint → ⊥ }
        requires other { other ≡ of.Paint → ⊥ }
        ensures { OnOk result (symbol_form self.new ≡ with_term (with_term (symbol_form self.old) one (term_at (symbol_form self.old) other)) other (term_at (symbol_form self.old) one)) }
    {
        let before = self.term(one).copy(alloc)?;
        let behind = self.term(other).copy(alloc)?;
        self.set(one, behind);
        self.set(other, before);
        Ok(())
    }

    /// It was checked and is valid IPv4.
    pub fn check(&mut self, alloc: Global) -> Result<(), AllocError>
        ensures { OnOk result (symbol_form self.new ≡ checked (symbol_form self.old)) }
    {
        self.annotate(alloc)?;
        self.layer = Layer::Ip;
        self.trim = true;
        Ok(())
    }

    /// It was checked and is not valid IPv4.
    pub fn refuse(&mut self)
        ensures { symbol_form self.new ≡ refused (symbol_form self.old) }
    {
        self.layer = Layer::Bare;
    }

    /// One passage more is behind it. 2^32 passages on one way find no memory.
    pub fn count_passage(&mut self) -> Result<u32, AllocError>
        ensures passage { IfOk result (λ passage. passage ≡ (symbol_form self.old).passages) }
        ensures counted { OnOk result (symbol_form self.new ≡ one_more (symbol_form self.old)) }
    {
        let passage = self.passages;
        if passage == u32::MAX {
            return Err(AllocError);
        }
        self.passages = passage + 1;
        Ok(passage)
    }

    /// A part is that of the flow after a passage.
    pub fn follow(&mut self, passage: u32, part: Part)
        ensures { symbol_form self.new ≡ with_term (symbol_form self.old) (field_of_part part) (flow_part passage part) }
    {
        self.set(field_of_part(part), Term::Flow(passage, part));
    }
}

/// What a field is as the frame arrives.
fn first_term(field: Field) -> Term
    ensures { term_form result ≡ first_term field }
{
    match field {
        Field::Paint | Field::Annotation => Term::Const(0),
        _ => Term::Entry(field),
    }
}

/// What each field is.
fn first_terms(alloc: Global) -> Result<Vec<Term>, AllocError>
    ensures { IfOk result (λ terms. map term_form terms.items ≡ first_symbol.terms) }
{
    let mut terms = Vec::with_capacity(alloc, HEADER_FIELDS)?;
    let mut rest = FIELDS.as_slice();
    while let [field, after @ ..] = rest {
        terms.push(first_term(*field))?;
        rest = after;
    }
    Ok(terms)
}

/// The field of a part of a flow.
pub(crate) fn field_of_part(part: Part) -> Field
    ensures { result ≡ field_of_part part }
{
    match part {
        Part::Sa => Field::Src,
        Part::Sp => Field::Sport,
        Part::Da => Field::Dst,
        Part::Dp => Field::Dport,
    }
}
