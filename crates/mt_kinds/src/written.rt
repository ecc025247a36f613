//! The arguments of rewriters and mappers as they are written: mappers by their names, and ports of their own
//! where a pool has no number yet.
ghost use Rattle.std.specs.Prelude.{◌≡◌, ◌<◌, ◌^◌, length};
ghost use Rattle.std.specs.List.{All};
ghost use Rattle.mt_kinds.specs.Written.{TemplateStands, SpecStands};

use mt_text::Text;
use std::marker::Model;

/// What is written of a flow's source port.
#[derive(Clone, Copy, Debug, PartialEq, Eq)]
pub enum WrittenPort {
    /// It stays.
    Same,
    /// It becomes this one.
    One(u16),
    /// It becomes one of those from the first to the second.
    Range(u16, u16),
}

/// A template as it is written. Addresses are in network order; a part without a value stays.
#[derive(Clone, Copy, Debug, PartialEq, Eq)]
pub struct WrittenTemplate {
    /// The source address.
    pub sa: Option<u32>,
    /// The source port.
    pub sp: WrittenPort,
    /// The destination address.
    pub da: Option<u32>,
    /// The destination port.
    pub dp: Option<u16>,
    /// The output of packets in the flow's direction.
    pub fout: u32,
    /// The output of replies.
    pub rout: u32,
}

/// A specification of a rewriter's input as it is written.
#[derive(Debug, Drop)]
pub enum WrittenSpec {
    /// `drop`
    Drop,
    /// `pass OUT`
    Pass(u32),
    /// `keep FOUT ROUT`
    Keep(u32, u32),
    /// `pattern SADDR SPORT DADDR DPORT FOUT ROUT`
    Pattern(WrittenTemplate),
    /// The name of a mapper.
    Mapper(Text),
}

/// The templates of a mapper as they are written, one at least. A contract sees the list of them.
#[derive(Drop)]
pub struct WrittenTemplates {
    list: Vec<WrittenTemplate>,
}

impl Model for WrittenTemplates {
    ghost use Rattle.std.specs.Prelude.{List, length, ◌<◌, ◌^◌};
    ghost use Rattle.std.specs.List.{All};
    ghost use Rattle.mt_kinds.specs.declared.written.WrittenTemplate.{WrittenTemplate};
    ghost use Rattle.mt_kinds.specs.Written.{TemplateStands};

    ghost Value = { List WrittenTemplate };

    ghost view = { λ t. t.list.items };

    ghost invariant = { λ t. (0 < length t.list.items) × (length t.list.items < 2 ^ 32) × All TemplateStands t.list.items };
}

impl WrittenTemplates {
    /// These templates.
    pub fn new(list: Vec<WrittenTemplate>) -> WrittenTemplates
        requires some { 0 < length list.items }
        requires count { length list.items < 2 ^ 32 }
        requires templates { All TemplateStands list.items }
        ensures { result ≡ list.items }
    {
        WrittenTemplates { list }
    }

    /// The templates, in their order.
    pub fn as_slice(&self) -> &[WrittenTemplate]
        ensures value { result.now ≡ self.now }
        ensures some { 0 < length self.now }
        ensures count { length self.now < 2 ^ 32 }
        ensures templates { All TemplateStands self.now }
    {
        &self.list
    }
}

/// The specifications of a rewriter's inputs as they are written, one at least. A contract sees the list of them.
#[derive(Drop)]
pub struct WrittenSpecs {
    list: Vec<WrittenSpec>,
}

impl Model for WrittenSpecs {
    ghost use Rattle.std.specs.Prelude.{List, length, ◌<◌, ◌^◌};
    ghost use Rattle.std.specs.List.{All};
    ghost use Rattle.mt_kinds.specs.declared.written.WrittenSpec.{WrittenSpec};
    ghost use Rattle.mt_kinds.specs.Written.{SpecStands};

    ghost Value = { List WrittenSpec };

    ghost view = { λ s. s.list.items };

    ghost invariant = { λ s. (0 < length s.list.items) × (length s.list.items < 2 ^ 32) × All SpecStands s.list.items };
}

impl WrittenSpecs {
    /// These specifications.
    pub fn new(list: Vec<WrittenSpec>) -> WrittenSpecs
        requires some { 0 < length list.items }
        requires count { length list.items < 2 ^ 32 }
        requires specs { All SpecStands list.items }
        ensures { result ≡ list.items }
    {
        WrittenSpecs { list }
    }

    /// The specifications, in their order.
    pub fn as_slice(&self) -> &[WrittenSpec]
        ensures value { result.now ≡ self.now }
        ensures some { 0 < length self.now }
        ensures count { length self.now < 2 ^ 32 }
        ensures specs { All SpecStands self.now }
    {
        &self.list
    }
}
