//! A walk down a tree.
ghost use Rattle.std.specs.Prelude.{IfOk};
ghost use Rattle.mt_terms.specs.Trees.{tree_form};
ghost use Rattle.mt_pipeline.specs.Passing.{IsReady, IsStep};
ghost use Rattle.mt_pipeline.specs.Walking.{CanWalk, EndsWalk, known, state_of};

use crate::context::Given;
use crate::journal::Journal;
use crate::resources::Resources;
use crate::steps::{End, Next, step};
use mt_ledger::Ledger;
use mt_packet::{Flow, Header};
use mt_terms::Tree;
use std::alloc::AllocError;

/// Goes down the tree of a frame's header to its end, and puts the flows after the passages on the way behind those that
/// passed. Ports are picked behind those of the journal.
pub(crate) fn walk<'a>(
    given: &Given<'_>,
    resources: &mut Resources,
    ledger: &mut Ledger,
    journal: &mut Journal,
    header: &Header,
    passed: &mut Vec<Flow>,
    tree: &'a Tree,
) -> Result<End<'a>, AllocError>
    requires ready { IsReady given.now.rewriters.now given.now.gone.now resources.old ledger.old }
    requires walks { CanWalk (state_of given.now.rewriters.now) journal.old.picks.items header.now (tree_form tree.now)
        (known passed.old.items resources.old.store ledger.old journal.old.picks.items) }
    ensures step { IsStep given.now.rewriters.now given.now.gone.now resources.old resources.new ledger.old ledger.new journal.old journal.new }
    ensures ended { IfOk result (EndsWalk given.now.rewriters.now given.now.gone.now journal.new.picks.items header.now (tree_form tree.now)
        (known passed.old.items resources.old.store ledger.old journal.old.picks.items) resources.new ledger.new
        (known passed.new.items resources.new.store ledger.new journal.new.picks.items)) }
{
    let mut here = tree;
    'down: loop {
        match step(given, resources, ledger, journal, header, passed, here)? {
            Next::On(next) => here = next,
            Next::Over(end) => return Ok(end),
        }
    }
}
