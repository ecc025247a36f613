//! What mappings are found by.
ghost use Rattle.std.specs.Prelude.{◌≡◌};
ghost use Rattle.mt_flow.specs.Keys.{lane_key};

use mt_packet::Flow;

/// A forward key: a rewriter, one of its inputs, and the flow that comes in there.
#[derive(Clone, Copy, Debug, PartialEq, Eq, PartialOrd, Ord)]
pub struct ForwardKey {
    pub element: u32,
    pub input: u32,
    pub before: Flow,
}

/// A reply key: a rewriter, and the flow of a reply.
#[derive(Clone, Copy, Debug, PartialEq, Eq, PartialOrd, Ord)]
pub struct ReplyKey {
    pub element: u32,
    pub flow: Flow,
}

/// A lane with the age of one of its mappings: mappings are numbered as they are opened and accepted.
#[derive(Clone, Copy, Debug, PartialEq, Eq, PartialOrd, Ord)]
pub struct LaneAge {
    pub group: u32,
    pub bucket: u32,
    pub age: u64,
}

/// A lane: a bucket of a group.
#[derive(Clone, Copy, Debug, PartialEq, Eq, PartialOrd, Ord)]
pub struct LaneKey {
    pub group: u32,
    pub bucket: u32,
}

impl LaneAge {
    /// The lane alone.
    pub fn lane(&self) -> LaneKey
        ensures { result ≡ lane_key self.now }
    {
        LaneKey {
            group: self.group,
            bucket: self.bucket,
        }
    }
}
