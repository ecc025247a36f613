//! Trees.
ghost use Rattle.std.specs.Prelude.{◌≡◌};
ghost use Rattle.std.specs.Bool.{Decides};
ghost use Rattle.mt_terms.specs.Trees.{empty_rewrite, rewrite_form};

use crate::term::Term;
use crate::writes::WriteList;
use mt_packet::{Cause, Span};

/// What becomes of the bytes of a packet at the end of its way. Rewrites are ordered by `trim`, then by `untag`
/// (`false` comes first in both), by `tag` (none comes first) and by the writes.
#[derive(Debug, Drop, PartialEq, Eq, PartialOrd, Ord)]
pub struct Rewrite {
    /// Whether the packet is checked, which takes the padding off.
    pub trim: bool,
    /// Whether the frame's VLAN tag is taken off.
    pub untag: bool,
    /// The VLAN identifier of the tag that is put on, where one is.
    pub tag: Option<u16>,
    /// The fields that are written.
    pub writes: WriteList,
}

impl Rewrite {
    /// Whether the rewrite is empty: no check, no tag that is taken off or put on, and no write.
    pub fn is_empty(&self) -> bool
        ensures { Decides result (rewrite_form self.now ≡ empty_rewrite) }
    {
        !self.trim && !self.untag && self.tag.is_none() && self.writes.list().is_empty()
    }
}

/// A passage of a rewriter: its element and its input, and the parts of the flow that arrives there.
#[derive(Debug, Drop, PartialEq, Eq, PartialOrd, Ord)]
pub struct OpCode {
    pub element: u32,
    pub input: u32,
    pub sa: Term,
    pub sp: Term,
    pub da: Term,
    pub dp: Term,
}

/// What a chain does with a packet.
#[derive(Debug, Drop, PartialEq, Eq, PartialOrd, Ord)]
pub enum Tree {
    /// It is rewritten and sent to a device, from 1.
    Leaf(Rewrite, u32),
    /// It is dropped.
    Drop(Cause),
    /// The first tree where the term lies in the span, and the second elsewhere.
    Test(Term, Span, Box<Tree>, Box<Tree>),
    /// It passes a rewriter, and goes on by the tree of the output by which it leaves. Outputs ascend.
    Op(OpCode, Vec<(u32, Tree)>),
}
