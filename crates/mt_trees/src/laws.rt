//! The laws of trees. The contract of each function is the law; there is nothing to run.
ghost use Rattle.mt_trees.specs.Laws.{HeadersHaveTrees, TreesMeanRuns, TreesCanBeServed, RunsStayInRange, RewritesAreOrdered};

use mt_chain::laws::devices_have_entries;
use mt_kinds::laws::outputs_are_counted;
use mt_rewriter::laws::{decisions_keep_tables, passages_lead};
use mt_wiring::laws::ranks;

/// Each header on a device on which frames of an accepted chain arrive has a tree, whether or not some frame has it.
pub fn headers_have_trees()
    ensures { HeadersHaveTrees }
{
    devices_have_entries();
    outputs_are_counted();
    ranks();
}

/// The tree of a frame's header means what an accepted chain does with the frame, element by element, rewriters among
/// them, where the flows of its tables are in their ranges.
pub fn trees_mean_runs()
    ensures { TreesMeanRuns }
{
    decisions_keep_tables();
    passages_lead();
    outputs_are_counted();
}

/// Runs keep the flows of tables in their ranges, from the first tables on, which have none.
pub fn runs_stay_in_range()
    ensures { RunsStayInRange }
{
    headers_have_trees();
    decisions_keep_tables();
    passages_lead();
    outputs_are_counted();
}

/// What serving a packet by the tree of its frame's header asks for holds along the way that the tree's meaning takes: the
/// terms that are worked out speak of passages that lie behind, the flow at a passage fits its types, and the rewrite at
/// the leaf can be made.
pub fn trees_can_be_served()
    ensures { TreesCanBeServed }
{
    decisions_keep_tables();
    passages_lead();
    outputs_are_counted();
}

/// A rewrite writes each field once at most, by ascending field, and none with its own value.
pub fn rewrites_are_ordered()
    ensures { RewritesAreOrdered }
{}
