//! The inputs and outputs of an element, and which outputs an input leads to.
ghost use Rattle.std.specs.Prelude.{◌≡◌, ◌≤◌, ℕ, false, ◌||◌, get_or, length, max, IfOk};
ghost use Rattle.std.specs.List.{All};
ghost use Rattle.mt_kinds.specs.Outputs.{SpecInRange};
ghost use Rattle.mt_kinds.specs.Ports.{input_count, spec_outs, rewriter_outs, output_count, may_be_open, is_in, forward_outs, reply_outs, is_reply_out, leads};
ghost use Rattle.mt_kinds.specs.OutTables.{IsTable, IsReplyTable, led};

use crate::Kind;
use crate::counts::{filter_outs, greater, route_outs, template_outs};
use crate::mappers::Mappers;
use crate::outs::Outs;
use crate::rewriter::Spec;
use std::alloc::{AllocError, Global};

/// How many inputs an element has: a rewriter one for each of its specifications, a `FromDevice` and a mapper
/// none, any other one.
pub fn input_count(kind: &Kind) -> u32
    ensures { result ≡ input_count kind.now }
{
    match kind {
        Kind::FromDevice(_) | Kind::RoundRobinIPMapper(_) => 0,
        Kind::IPRewriter(specs) => specs.as_slice().len() as u32,
        _ => 1,
    }
}

/// One more than the greatest output that a specification names, 0 where it names none.
fn spec_outs(mappers: &Mappers, spec: &Spec) -> u32
    requires { SpecInRange spec.now }
    ensures value { result ≡ spec_outs mappers.now spec.now }
    ensures few { result ≤ 512 }
{
    match spec {
        Spec::Drop => 0,
        Spec::Pass(out) => *out + 1,
        Spec::Keep(fout, rout) => greater(*fout + 1, *rout + 1),
        Spec::Pattern(template) => template_outs(template),
        Spec::Mapper(number) => mappers.count(*number),
    }
}

/// One more than the greatest output that specifications name, 0 where they name none.
fn rewriter_outs(mappers: &Mappers, specs: &[Spec]) -> u32
    requires { All SpecInRange specs.now }
    ensures value { result ≡ rewriter_outs mappers.now specs.now }
    ensures few { result ≤ 512 }
{
    let mut count = 0;
    for spec in specs {
        count = greater(count, spec_outs(mappers, spec));
    }
    count
}

/// How many outputs an element has. Those of a `PaintSwitch` are as many as `wired`, one more than the number of
/// its greatest output that is wired; those of a filter, a route table or a rewriter end with the greatest that
/// its arguments and the templates of the mappers that they name have.
pub fn output_count(mappers: &Mappers, kind: &Kind, wired: u32) -> u32
    ensures { result ≡ output_count mappers.now kind.now wired }
{
    match kind {
        Kind::ToDevice(_) | Kind::Discard | Kind::RoundRobinIPMapper(_) => 0,
        Kind::PaintSwitch => wired,
        Kind::CheckIPHeader | Kind::DecIPTTL => 2,
        Kind::Classifier(patterns) => patterns.count(),
        Kind::IPFilter(rules) => filter_outs(rules.as_slice()),
        Kind::IPClassifier(patterns) => patterns.as_slice().len() as u32,
        Kind::Route(hops) => route_outs(hops.as_slice()),
        Kind::IPRewriter(specs) => rewriter_outs(mappers, specs.as_slice()),
        _ => 1,
    }
}

/// Whether an output may lead nowhere, so that packets are dropped at it.
pub fn may_be_open(kind: &Kind, out: u32) -> bool
    ensures { result ≡ may_be_open kind.now out }
{
    match kind {
        Kind::CheckIPHeader | Kind::DecIPTTL => out == 1,
        _ => false,
    }
}

/// Whether packets of a flow that enters by an input with a specification leave by an output.
fn is_forward_out(mappers: &Mappers, spec: &Spec, out: u32) -> bool
    ensures { result ≡ is_in out (forward_outs mappers.now spec.now) }
{
    match spec {
        Spec::Drop | Spec::Pass(_) => false,
        Spec::Keep(fout, _) => *fout == out,
        Spec::Pattern(template) => template.fout == out,
        Spec::Mapper(number) => mappers.has_forward(*number, out),
    }
}

/// Adds the outputs by which replies to a flow leave that enters by an input with a specification.
fn add_replies(mappers: &Mappers, spec: &Spec, replies: &mut Outs)
    requires { SpecInRange spec.now }
    ensures { (out : ℕ) → get_or replies.new out false ≡ (get_or replies.old out false || is_in out (reply_outs mappers.now spec.now)) }
{
    match spec {
        Spec::Drop | Spec::Pass(_) => {}
        Spec::Keep(_, rout) => replies.add(*rout),
        Spec::Pattern(template) => replies.add(template.rout),
        Spec::Mapper(number) => mappers.add_replies(*number, replies),
    }
}

/// The outputs by which replies to flows of a rewriter leave.
fn rewriter_replies(alloc: Global, mappers: &Mappers, specs: &[Spec]) -> Result<Outs, AllocError>
    requires { All SpecInRange specs.now }
    ensures { IfOk result (IsTable (is_reply_out mappers.now specs.now)) }
{
    let mut replies = Outs::none(alloc)?;
    let mut rest = specs;
    while let [spec, after @ ..] = rest {
        add_replies(mappers, spec, &mut replies);
        rest = after;
    }
    Ok(replies)
}

/// The outputs by which replies to flows of an element leave, none where it is no rewriter.
pub fn replies_of(alloc: Global, mappers: &Mappers, kind: &Kind) -> Result<Outs, AllocError>
    ensures { IfOk result (IsReplyTable mappers.now kind.now) }
{
    match kind {
        Kind::IPRewriter(specs) => rewriter_replies(alloc, mappers, specs.as_slice()),
        _ => Outs::none(alloc),
    }
}

/// Whether a packet that enters a rewriter by an input with a specification can leave it by an output, where it is
/// told whether replies leave by it.
fn spec_leads(mappers: &Mappers, is_reply_out: bool, out: u32, spec: &Spec) -> bool
    ensures { result ≡ led mappers.now is_reply_out out spec.now }
{
    match spec {
        Spec::Drop => is_reply_out,
        Spec::Pass(own) => *own == out || is_reply_out,
        _ => is_forward_out(mappers, spec, out),
    }
}

/// Whether a packet that enters an element by an input can leave it by an output: at a rewriter by the outputs of
/// that input's flows, or, where none begins there, by those of replies and the input's own; at any other element
/// by all outputs that it has. The replies are those of `replies_of` for that element.
pub fn leads(mappers: &Mappers, replies: &Outs, kind: &Kind, input: u32, out: u32) -> bool
    requires { IsReplyTable mappers.now kind.now replies.now }
    ensures { result ≡ leads mappers.now kind.now input out }
{
    match kind {
        Kind::IPRewriter(specs) => match specs.as_slice().get(input as usize) {
            Some(spec) => spec_leads(mappers, replies.has(out), out, spec),
            None => false,
        },
        _ => true,
    }
}
