//! The mappers of a chain, with the outputs that their templates name worked out once.
ghost use Rattle.std.specs.Prelude.{◌≡◌, ◌≤◌, ℕ, false, ◌||◌, get_or, map, [], IfOk, IfSome, IfNone};
ghost use Rattle.std.specs.List.{All};
ghost use Rattle.mt_kinds.specs.Outputs.{TemplateInRange, templates_outs};
ghost use Rattle.mt_kinds.specs.Ports.{mapper_at, is_in};
ghost use Rattle.mt_kinds.specs.OutTables.{IsTableOf, AreOutsOf, AreTables};

use crate::counts::templates_outs;
use crate::outs::Outs;
use crate::rewriter::{Template, Templates};
use std::alloc::{AllocError, Global};
use std::marker::Model;

/// The outputs that the templates of a mapper name: those of packets in a flow's direction, those of replies, and
/// one more than the greatest, 0 where there is none.
#[derive(Drop)]
pub(crate) struct MapperOuts {
    forward: Outs,
    reply: Outs,
    count: u32,
}

/// Mappers by number, from 0. A contract sees the list of the lists of their templates.
#[derive(Drop)]
pub struct Mappers {
    list: Vec<Templates>,
    outs: Vec<MapperOuts>,
}

impl Model for Mappers {
    ghost use Rattle.std.specs.Prelude.{List};
    ghost use Rattle.mt_kinds.specs.declared.rewriter.Template.{Template};
    ghost use Rattle.mt_kinds.specs.OutTables.{AreTables};

    ghost Value = { List (List Template) };

    ghost view = { λ m. m.list.items };

    ghost invariant = { λ m. AreTables m.list.items m.outs.items };
}

impl Mappers {
    /// The mappers with these templates.
    pub fn new(alloc: Global, list: Vec<Templates>) -> Result<Mappers, AllocError>
        ensures { IfOk result (λ m. m ≡ list.items) }
    {
        let outs = tables_of(alloc, &list)?;
        Ok(Mappers { list, outs })
    }

    /// The templates of each mapper.
    pub fn as_slice(&self) -> &[Templates]
        ensures { result.now ≡ self.now }
    {
        &self.list
    }

    /// The templates of each mapper, and nothing else.
    pub fn into_list(self) -> Vec<Templates>
        ensures { result.items ≡ self }
    {
        let Mappers { list, .. } = self;
        list
    }

    /// The outputs of a mapper, where it is there.
    fn outs(&self, number: u32) -> Option<&MapperOuts>
        ensures outs { IfSome result (λ outs. AreOutsOf (mapper_at self.now number) outs.now) }
        ensures none { IfNone result (mapper_at self.now number ≡ []) }
    {
        self.outs.get(number as usize)
    }

    /// One more than the greatest output that templates of a mapper name, 0 where it is not there.
    pub fn count(&self, number: u32) -> u32
        ensures value { result ≡ templates_outs (mapper_at self.now number) }
        ensures few { result ≤ 512 }
    {
        match self.outs(number) {
            Some(outs) => outs.count,
            None => 0,
        }
    }

    /// Whether a template of a mapper sends packets in a flow's direction to an output.
    pub fn has_forward(&self, number: u32, out: u32) -> bool
        ensures { result ≡ is_in out (map (λ template. template.fout) (mapper_at self.now number)) }
    {
        match self.outs(number) {
            Some(outs) => outs.forward.has(out),
            None => false,
        }
    }

    /// Adds the outputs to which templates of a mapper send replies.
    pub fn add_replies(&self, number: u32, replies: &mut Outs)
        ensures { (out : ℕ) → get_or replies.new out false ≡ (get_or replies.old out false || is_in out (map (λ template. template.rout) (mapper_at self.now number))) }
    {
        match self.outs(number) {
            Some(outs) => replies.join(&outs.reply),
            None => {}
        }
    }
}

/// The outputs in a flow's direction that templates name.
fn forward_of(alloc: Global, templates: &[Template]) -> Result<Outs, AllocError>
    requires { All TemplateInRange templates.now }
    ensures { IfOk result (IsTableOf (map (λ template. template.fout) templates.now)) }
{
    let mut outs = Outs::none(alloc)?;
    let mut rest = templates;
    while let [template, after @ ..] = rest {
        outs.add(template.fout);
        rest = after;
    }
    Ok(outs)
}

/// The outputs of replies that templates name.
fn replies_of(alloc: Global, templates: &[Template]) -> Result<Outs, AllocError>
    requires { All TemplateInRange templates.now }
    ensures { IfOk result (IsTableOf (map (λ template. template.rout) templates.now)) }
{
    let mut outs = Outs::none(alloc)?;
    let mut rest = templates;
    while let [template, after @ ..] = rest {
        outs.add(template.rout);
        rest = after;
    }
    Ok(outs)
}

/// The outputs that templates name.
fn outs_of(alloc: Global, templates: &[Template]) -> Result<MapperOuts, AllocError>
    requires { All TemplateInRange templates.now }
    ensures { IfOk result (AreOutsOf templates.now) }
{
    Ok(MapperOuts {
        forward: forward_of(alloc, templates)?,
        reply: replies_of(alloc, templates)?,
        count: templates_outs(templates),
    })
}

/// The outputs that the templates of each mapper name.
fn tables_of(alloc: Global, mappers: &[Templates]) -> Result<Vec<MapperOuts>, AllocError>
    ensures { IfOk result (λ v. AreTables mappers.now v.items) }
{
    let mut tables = Vec::new(alloc);
    for number in 0..mappers.len() {
        let outs = outs_of(alloc, mappers[number].as_slice())?;
        tables.push(outs)?;
    }
    Ok(tables)
}
