//! The specifications of a rewriter's inputs, and the templates by which mappings are made.
ghost use Rattle.std.specs.Prelude.{◌≡◌, ◌<◌, ◌^◌, length};
ghost use Rattle.std.specs.List.{All};
ghost use Rattle.mt_kinds.specs.Outputs.{TemplateInRange, SpecInRange};

use std::marker::Model;

/// The ports of an address, of which one is picked for each mapping.
#[derive(Clone, Copy, Debug, PartialEq, Eq, PartialOrd, Ord, Hash)]
pub struct Pool {
    /// The address, in network order.
    pub address: u32,
    /// The least port.
    pub lo: u16,
    /// The greatest port.
    pub hi: u16,
}

/// What becomes of a flow's source port.
#[derive(Clone, Copy, Debug, PartialEq, Eq)]
pub enum SourcePort {
    /// It stays.
    Same,
    /// It becomes this one.
    One(u16),
    /// It becomes one of the pool with that number.
    Pool(u32),
}

/// How a flow is rewritten, and the outputs of the two ways. Addresses are in network order; a part without a
/// value stays.
#[derive(Clone, Copy, Debug, PartialEq, Eq)]
pub struct Template {
    /// The source address.
    pub sa: Option<u32>,
    /// The source port.
    pub sp: SourcePort,
    /// The destination address.
    pub da: Option<u32>,
    /// The destination port.
    pub dp: Option<u16>,
    /// The output of packets in the flow's direction.
    pub fout: u32,
    /// The output of replies.
    pub rout: u32,
}

/// What an input of a rewriter does with a packet whose flow has no mapping.
#[derive(Clone, Copy, Debug, PartialEq, Eq)]
pub enum Spec {
    /// Drops it.
    Drop,
    /// Sends it to this output as it is.
    Pass(u32),
    /// Makes a mapping that keeps the flow as it is: the output of its packets and that of replies.
    Keep(u32, u32),
    /// Makes a mapping by this template.
    Pattern(Template),
    /// Makes a mapping by the template whose turn it is at the mapper of that number.
    Mapper(u32),
}

/// The templates of a mapper in their order, one at least; each names outputs from 0 to 511. A contract sees the
/// list of them.
#[derive(Drop)]
pub struct Templates {
    list: Vec<Template>,
}

impl Model for Templates {
    ghost use Rattle.std.specs.Prelude.{List, length, ◌<◌, ◌^◌};
    ghost use Rattle.std.specs.List.{All};
    ghost use Rattle.mt_kinds.specs.declared.rewriter.Template.{Template};
    ghost use Rattle.mt_kinds.specs.Outputs.{TemplateInRange};

    ghost Value = { List Template };

    ghost view = { λ t. t.list.items };

    ghost invariant = { λ t. (0 < length t.list.items) × (length t.list.items < 2 ^ 32) × All TemplateInRange t.list.items };
}

impl Templates {
    /// These templates.
    pub fn new(list: Vec<Template>) -> Templates
        requires some { 0 < length list.items }
        requires count { length list.items < 2 ^ 32 }
        requires outputs { All TemplateInRange list.items }
        ensures { result ≡ list.items }
    {
        Templates { list }
    }

    /// The templates, in their order.
    pub fn as_slice(&self) -> &[Template]
        ensures templates { result.now ≡ self.now }
        ensures some { 0 < length self.now }
        ensures count { length self.now < 2 ^ 32 }
        ensures outputs { All TemplateInRange self.now }
    {
        &self.list
    }
}

/// The specifications of a rewriter's inputs in their order, one at least; each names outputs from 0 to 511. A
/// contract sees the list of them.
#[derive(Drop)]
pub struct Specs {
    list: Vec<Spec>,
}

impl Model for Specs {
    ghost use Rattle.std.specs.Prelude.{List, length, ◌<◌, ◌^◌};
    ghost use Rattle.std.specs.List.{All};
    ghost use Rattle.mt_kinds.specs.declared.rewriter.Spec.{Spec};
    ghost use Rattle.mt_kinds.specs.Outputs.{SpecInRange};

    ghost Value = { List Spec };

    ghost view = { λ s. s.list.items };

    ghost invariant = { λ s. (0 < length s.list.items) × (length s.list.items < 2 ^ 32) × All SpecInRange s.list.items };
}

impl Specs {
    /// These specifications.
    pub fn new(list: Vec<Spec>) -> Specs
        requires some { 0 < length list.items }
        requires count { length list.items < 2 ^ 32 }
        requires outputs { All SpecInRange list.items }
        ensures { result ≡ list.items }
    {
        Specs { list }
    }

    /// The specifications, in their order.
    pub fn as_slice(&self) -> &[Spec]
        ensures specs { result.now ≡ self.now }
        ensures some { 0 < length self.now }
        ensures count { length self.now < 2 ^ 32 }
        ensures outputs { All SpecInRange self.now }
    {
        &self.list
    }
}
