//! How many mappings each lane has.
ghost use Rattle.std.specs.Prelude.{◌≡◌, ◌+◌, ◌-◌, true, is_some, OnErr, OnOk};
ghost use Rattle.std.specs.BTreeMap as tree;
ghost use Rattle.mt_flow.specs.Keys.{key_cmp};
ghost use Rattle.mt_flow.specs.Counts.{count_of, IsCounted};

use crate::keys::LaneKey;
use std::alloc::AllocError;
use std::collections::BTreeMap;

/// How many mappings a lane has.
pub fn count_of(counts: &BTreeMap<LaneKey, u64>, lane: LaneKey) -> u64
    ensures { result ≡ count_of counts.now lane }
{
    counts.get(&lane).copied().unwrap_or(0)
}

/// One mapping more in a lane.
pub fn count_in(counts: &mut BTreeMap<LaneKey, u64>, lane: LaneKey) -> Result<(), AllocError>
    ensures ok { OnOk result (IsCounted counts.old counts.new lane (count_of counts.old lane + 1)) }
    ensures err { OnErr result (counts.new.entries ≡ counts.old.entries) }
{
    let count = count_of(counts, lane);
    if count == u64::MAX {
        return Err(AllocError);
    }
    counts.insert(lane, count + 1)?;
    Ok(())
}

/// One mapping fewer in a lane.
pub fn count_out(counts: &mut BTreeMap<LaneKey, u64>, lane: LaneKey)
    ensures { IsCounted counts.old counts.new lane (count_of counts.old lane - 1) }
{
    if counts.contains_key(&lane) {
        let count = count_of(counts, lane);
        replace(counts, lane, count.saturating_sub(1));
    }
}

/// Another count of a lane that is counted.
fn replace(counts: &mut BTreeMap<LaneKey, u64>, lane: LaneKey, count: u64)
    requires { is_some (tree.get key_cmp counts.old lane) ≡ true }
    ensures { IsCounted counts.old counts.new lane count }
{
    let _ = counts.insert(lane, count);
}
