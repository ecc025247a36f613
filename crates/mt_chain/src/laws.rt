//! What crates above need of runs beside `run_one`. The contract of each function is the law; there is nothing
//! to run.
ghost use Rattle.std.specs.Prelude.{ℕ, ◌<◌, ◌≤◌};
ghost use Rattle.mt_elements.specs.ChainState.{ChainState, entry_of};
ghost use Rattle.mt_elements.specs.Numbered.{IsNumbered};
ghost use Rattle.mt_chain.specs.Known.{FatesComeFrom, RunsAreThere, RunsKeepTables};
ghost use Rattle.mt_chain.specs.Run.{IsThere};
ghost use Rattle.mt_chain.specs.Sequence.{OneBehind};

use mt_kinds::laws::outputs_are_counted;
use mt_rewriter::laws::{decisions_keep_tables, mappings_stay, passages_lead};
use mt_wiring::laws::ranks;

/// A chain has an element by which the packets of each device enter on which frames arrive.
pub fn devices_have_entries()
    ensures { (chain : ChainState) (device : ℕ) → IsNumbered chain → 0 < device → device ≤ chain.entries → IsThere (entry_of chain device) }
{}

/// A packet behind others runs with what those leave.
pub fn one_packet_behind_others()
    ensures { OneBehind }
{}

/// A packet that arrives on a device of an accepted chain always has a run, or a pick that is missing or not free.
pub fn runs_are_there()
    ensures { RunsAreThere }
{
    devices_have_entries();
    ranks();
    outputs_are_counted();
    decisions_keep_tables();
    passages_lead();
}

/// What a run leaves is tables of its chain.
pub fn runs_keep_tables()
    ensures { RunsKeepTables }
{
    decisions_keep_tables();
    mappings_stay();
}

/// What a run sends has its packet's time, device and number of arrival, and has no more bytes.
pub fn fates_come_from_packets()
    ensures { FatesComeFrom }
{
    decisions_keep_tables();
    mappings_stay();
}
