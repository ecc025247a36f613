//! The leaves of a tree with their boxes.
ghost use Rattle.std.specs.Prelude.{◌≡◌, ◌<◌, ◌^◌, ◌++◌, IfOk, OnOk, length, map};
ghost use Rattle.mt_cuts.specs.Tree.{value_of};
ghost use Rattle.mt_cuts.specs.View.{tree_of};
ghost use Rattle.mt_cuts.specs.Boxes.{AreCanonicalBoxes};
ghost use Rattle.mt_cuts.specs.Canonical.{IsCanonical, IsRest};
ghost use Rattle.mt_cuts.specs.Leaves.{fields, full, up_to, behind, leaves_of};

use crate::cut::Cut;
use crate::domain::{last_of, least_of};
use mt_packet::{Field, HEADER_FIELDS, Span};
use std::alloc::{AllocError, Global};

/// A leaf: the headers whose values lie in a span for each field, by field number, and their value.
#[derive(Debug, Clone, Copy)]
pub struct Leaf {
    pub spans: [Span; HEADER_FIELDS],
    pub value: u32,
}

impl Cut {
    /// The leaves in order, with their boxes, which are the canonical boxes of the tree's function: the
    /// longest spans of each field that leave one function of the fields behind.
    pub fn leaves(&self, alloc: Global, devices: u32) -> Result<Vec<Leaf>, AllocError>
        requires some { 0 < devices }
        requires canonical { IsCanonical devices (tree_of self.now) }
        ensures leaves { IfOk result (λ leaves. leaves.items ≡ leaves_of (map (full devices) fields) (tree_of self.now)) }
        ensures boxes { IfOk result (λ leaves. AreCanonicalBoxes devices (value_of (tree_of self.now)) leaves.items) }
    {
        let mut leaves = Vec::new(alloc);
        push_leaves(&mut leaves, devices, 0, &all_spans(devices), self)?;
        Ok(leaves)
    }
}

/// The box of all headers.
fn all_spans(devices: u32) -> [Span; HEADER_FIELDS]
    ensures { result ≡ map (full devices) fields }
{
    let full = |field| Span {
        lo: least_of(field),
        hi: last_of(devices, field),
    };
    [
        full(Field::Device),
        full(Field::EthType),
        full(Field::EthDst),
        full(Field::EthSrc),
        full(Field::ArpOp),
        full(Field::Proto),
        full(Field::Src),
        full(Field::Dst),
        full(Field::Dscp),
        full(Field::Ecn),
        full(Field::Sport),
        full(Field::Dport),
        full(Field::IcmpType),
        full(Field::IpOk),
        full(Field::Ports),
        full(Field::Mf),
        full(Field::FragOff),
        full(Field::Ttl),
        full(Field::Syn),
        full(Field::Ack),
        full(Field::Fin),
        full(Field::Rst),
        full(Field::Paint),
        full(Field::Annotation),
    ]
}

/// The spans up to an end of a field.
fn spans_up_to(spans: &[Span; HEADER_FIELDS], field: Field, end: u64) -> [Span; HEADER_FIELDS]
    requires { length spans.now ≡ 24 }
    ensures spans { result ≡ up_to spans.now field end }
    ensures whole { length result ≡ 24 }
{
    let mut made = *spans;
    made[field.number()].hi = end;
    made
}

/// The spans behind an end of a field.
fn spans_behind(spans: &[Span; HEADER_FIELDS], field: Field, end: u64) -> [Span; HEADER_FIELDS]
    requires end { end < 2 ^ 63 }
    requires whole { length spans.now ≡ 24 }
    ensures spans { result ≡ behind spans.now field end }
    ensures whole { length result ≡ 24 }
{
    let mut made = *spans;
    made[field.number()].lo = end + 1;
    made
}

/// Puts the leaves of a tree within a box behind others.
fn push_leaves(
    leaves: &mut Vec<Leaf>,
    devices: u32,
    settled: usize,
    spans: &[Span; HEADER_FIELDS],
    tree: &Cut,
) -> Result<(), AllocError>
    requires rest { IsRest devices settled 0 (tree_of tree.now) }
    requires whole { length spans.now ≡ 24 }
    ensures { OnOk result (leaves.new.items ≡ leaves.old.items ++ leaves_of spans.now (tree_of tree.now)) }
{
    let Some(field) = tree.top() else {
        leaves.push(Leaf {
            spans: *spans,
            value: tree.class(),
        })?;
        return Ok(());
    };
    let last = last_of(devices, field);
    let after = field.number() + 1;
    let mut rest = *spans;
    let mut place = tree.parts_at(field);
    let mut end = place.end(last);
    while end < last {
        let here = spans_up_to(&rest, field, end);
        push_leaves(leaves, devices, after, &here, place.first())?;
        rest = spans_behind(&rest, field, end);
        place = place.behind(end);
        end = place.end(last);
    }
    push_leaves(leaves, devices, after, &rest, place.first())
}
