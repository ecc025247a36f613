//! A mapping of a rewriter.
ghost use Rattle.std.specs.Prelude.{◌≡◌};
ghost use Rattle.mt_flow.specs.Tied.{lane_age};
ghost use Rattle.mt_flow.specs.Mappings.{forward_key, refused_of, reply_key, reversed};

use crate::keys::{ForwardKey, LaneAge, ReplyKey};
use mt_ledger::PortToken;
use mt_packet::Flow;

/// A mapping: the rewriter and the input on which it was opened, the flow before and after, the outputs of
/// packets and of replies, its lane, and the port of a pool that it holds.
#[derive(Debug, Drop)]
pub struct Mapping {
    pub element: u32,
    pub input: u32,
    pub before: Flow,
    pub after: Flow,
    pub fout: u32,
    pub rout: u32,
    pub group: u32,
    pub bucket: u32,
    pub port: Option<PortToken>,
}

/// What a packet that met a mapping becomes: its flow, and the output by which it leaves.
#[derive(Clone, Copy, Debug, PartialEq, Eq)]
pub struct Meeting {
    pub after: Flow,
    pub output: u32,
}

/// Why no mapping was opened. The mapping comes back.
#[derive(Debug, Drop)]
pub enum OpenFault {
    /// Its reply key stands.
    Clash(Mapping),
    NoMemory(Mapping),
}

impl OpenFault {
    /// The mapping that comes back.
    pub fn into_mapping(self) -> Mapping
        ensures { result ≡ refused_of self }
    {
        match self {
            OpenFault::Clash(mapping) => mapping,
            OpenFault::NoMemory(mapping) => mapping,
        }
    }
}

/// A flow with its two ends exchanged.
pub fn reversed(flow: &Flow) -> Flow
    ensures { result ≡ reversed flow.now }
{
    Flow {
        proto: flow.proto,
        sa: flow.da,
        sp: flow.dp,
        da: flow.sa,
        dp: flow.sp,
    }
}

impl Mapping {
    /// The key of the packets that it was opened for.
    pub fn forward_key(&self) -> ForwardKey
        ensures { result ≡ forward_key self.now }
    {
        ForwardKey {
            element: self.element,
            input: self.input,
            before: self.before,
        }
    }

    /// Its lane, with its age.
    pub(crate) fn lane_age(&self, age: u64) -> LaneAge
        ensures { result ≡ lane_age self.now age }
    {
        LaneAge {
            group: self.group,
            bucket: self.bucket,
            age,
        }
    }

    /// The key of its replies: its flow after, the two ends exchanged.
    pub fn reply_key(&self) -> ReplyKey
        ensures { result ≡ reply_key self.now }
    {
        ReplyKey {
            element: self.element,
            flow: reversed(&self.after),
        }
    }
}
