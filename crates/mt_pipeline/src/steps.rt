//! One step of a walk down a tree.
ghost use Rattle.std.specs.Prelude.{◌≡◌, ◌<◌, Some, IfOk, if◌then◌else◌, length, map, vec_len, vec_capacity};
ghost use Rattle.mt_pattern.specs.Meaning.{contains_number};
ghost use Rattle.mt_chain.specs.Run.{IsThere};
ghost use Rattle.mt_terms.specs.Trees.{branch_form, branches_of, op_form, tree_form, passage as op};
ghost use Rattle.mt_pipeline.specs.Passing.{IsReady, IsStep};
ghost use Rattle.mt_pipeline.specs.Walking.{Arrives, CanWalk, EndsStep, GoesBehind, HasBranch, arriving, branch_at, known, spec_of, state_of};

use crate::context::Given;
use crate::journal::Journal;
use crate::passage::{Passed, pass};
use crate::resources::Resources;
use mt_elements::Rewriters;
use mt_kinds::Spec;
use mt_ledger::Ledger;
use mt_packet::{Cause, Field, Flow, Header, Span};
use mt_rewriter::Passage;
use mt_terms::{OpCode, Rewrite, Term, Tree};
use std::alloc::AllocError;

/// How a walk ends.
pub(crate) enum End<'a> {
    /// The packet is rewritten, and sent to a device.
    Leaf(&'a Rewrite, u32),
    /// It is dropped.
    Drop(Cause),
    /// A try met the pool of this number, which is not gone, while its share and its stock were empty.
    Starved(u32),
}

/// Where a step leads.
pub(crate) enum Next<'a> {
    /// The walk goes on by this tree.
    On(&'a Tree),
    /// It is over.
    Over(End<'a>),
}

/// Whether a number lies in a span.
fn contains(span: &Span, value: u64) -> bool
    ensures { result ≡ contains_number span.now value }
{
    span.lo <= value && value <= span.hi
}

/// The side of a test.
fn side<'a>(holds: bool, inside: &'a Tree, outside: &'a Tree) -> &'a Tree
    ensures { tree_form result.now ≡ (if holds then tree_form inside.now else tree_form outside.now) }
{
    if holds { inside } else { outside }
}

/// The specification of an input of an element.
fn spec_of(rewriters: &Rewriters, element: u32, input: u32) -> Spec
    requires { IsThere (spec_of (state_of rewriters.now) element input) }
    ensures { spec_of (state_of rewriters.now) element input ≡ Some result }
{
    let specs = &rewriters.specs[element as usize];
    specs[input as usize]
}

/// The flow that arrives at a passage.
fn arriving(code: &OpCode, header: &Header, passed: &[Flow]) -> Flow
    requires { Arrives header.now passed.now (op_form code.now) }
    ensures { result ≡ arriving header.now passed.now (op_form code.now) }
{
    Flow {
        proto: header.get(Field::Proto) as u8,
        sa: code.sa.value(header, passed) as u32,
        sp: code.sp.value(header, passed) as u16,
        da: code.da.value(header, passed) as u32,
        dp: code.dp.value(header, passed) as u16,
    }
}

/// The tree of an output.
fn branch_at<'a>(branches: &'a [(u32, Tree)], out: u32) -> &'a Tree
    requires { IsThere (branch_at (branches_of (map branch_form branches.now)) out) }
    ensures { branch_at (branches_of (map branch_form branches.now)) out ≡ Some (tree_form result.now) }
{
    let mut rest = branches;
    while let [first, after @ ..] = rest {
        if first.0 == out {
            return &first.1;
        }
        rest = after;
    }
    unreachable!();
}

/// Where a walk goes on behind a passage. There is room for one flow more.
fn behind<'a>(
    passage: Passage,
    flow: Flow,
    passed: &mut Vec<Flow>,
    branches: &'a [(u32, Tree)],
) -> Next<'a>
    requires room { vec_len passed.old < vec_capacity passed.old }
    requires branch { HasBranch (branches_of (map branch_form branches.now)) passage }
    ensures { GoesBehind (branches_of (map branch_form branches.now)) flow passed.old.items passed.new.items passage result }
{
    match passage {
        Passage::Rewritten(meeting) => {
            let _ = passed.push(meeting.after);
            Next::On(branch_at(branches, meeting.output))
        }
        Passage::Passed(out) => {
            let _ = passed.push(flow);
            Next::On(branch_at(branches, out))
        }
        Passage::Dropped(why) => Next::Over(End::Drop(why)),
    }
}

/// A step at a passage.
fn at_passage<'a>(
    given: &Given<'_>,
    resources: &mut Resources,
    ledger: &mut Ledger,
    journal: &mut Journal,
    header: &Header,
    passed: &mut Vec<Flow>,
    code: &OpCode,
    branches: &'a [(u32, Tree)],
) -> Result<Next<'a>, AllocError>
    requires ready { IsReady given.now.rewriters.now given.now.gone.now resources.old ledger.old }
    requires walks { CanWalk (state_of given.now.rewriters.now) journal.old.picks.items header.now (op (op_form code.now) (branches_of (map branch_form branches.now)))
        (known passed.old.items resources.old.store ledger.old journal.old.picks.items) }
    ensures step { IsStep given.now.rewriters.now given.now.gone.now resources.old resources.new ledger.old ledger.new journal.old journal.new }
    ensures next { IfOk result (EndsStep given.now.rewriters.now given.now.gone.now journal.new.picks.items header.now (op (op_form code.now) (branches_of (map branch_form branches.now)))
        (known passed.old.items resources.old.store ledger.old journal.old.picks.items) resources.new ledger.new
        (known passed.new.items resources.new.store ledger.new journal.new.picks.items)) }
{
    let port = (code.element, code.input);
    let spec = spec_of(given.rewriters, port.0, port.1);
    let flow = arriving(code, header, passed);
    passed.reserve(1)?;
    match pass(given, resources, ledger, journal, port, spec, flow)? {
        Passed::Through(passage) => Ok(behind(passage, flow, passed, branches)),
        Passed::Starved(pool) => Ok(Next::Over(End::Starved(pool))),
    }
}

/// One step.
pub(crate) fn step<'a>(
    given: &Given<'_>,
    resources: &mut Resources,
    ledger: &mut Ledger,
    journal: &mut Journal,
    header: &Header,
    passed: &mut Vec<Flow>,
    tree: &'a Tree,
) -> Result<Next<'a>, AllocError>
    requires ready { IsReady given.now.rewriters.now given.now.gone.now resources.old ledger.old }
    requires walks { CanWalk (state_of given.now.rewriters.now) journal.old.picks.items header.now (tree_form tree.now)
        (known passed.old.items resources.old.store ledger.old journal.old.picks.items) }
    ensures step { IsStep given.now.rewriters.now given.now.gone.now resources.old resources.new ledger.old ledger.new journal.old journal.new }
    ensures next { IfOk result (EndsStep given.now.rewriters.now given.now.gone.now journal.new.picks.items header.now (tree_form tree.now)
        (known passed.old.items resources.old.store ledger.old journal.old.picks.items) resources.new ledger.new
        (known passed.new.items resources.new.store ledger.new journal.new.picks.items)) }
{
    match tree {
        Tree::Leaf(rewrite, device) => Ok(Next::Over(End::Leaf(rewrite, *device))),
        Tree::Drop(why) => Ok(Next::Over(End::Drop(*why))),
        Tree::Test(term, span, inside, outside) => {
            let holds = contains(span, term.value(header, passed));
            Ok(Next::On(side(holds, inside, outside)))
        }
        Tree::Op(code, branches) => at_passage(
            given, resources, ledger, journal, header, passed, code, branches,
        ),
    }
}
