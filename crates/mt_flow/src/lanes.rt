//! The oldest mapping of some lanes.
ghost use Rattle.std.specs.Prelude.{◌≡◌, ◌<◌, ◌^◌};
ghost use Rattle.std.specs.BTreeMap as tree;
ghost use Rattle.mt_flow.specs.Keys.{lane_cmp};
ghost use Rattle.mt_flow.specs.Lanes.{has_bucket, older, IsFirstOf, IsFound};

use crate::keys::{ForwardKey, LaneAge};
use std::collections::BTreeMap;

/// An age, and the forward key of the mapping that has it.
pub type Aged = (u64, ForwardKey);

/// Whether a bucket is one of those that the bits mean.
pub fn has_bucket(buckets: u64, bucket: u32) -> bool
    ensures { result ≡ has_bucket buckets bucket }
{
    bucket < 64 && (buckets >> bucket) % 2 == 1
}

/// The oldest of one lane.
fn first_of(by_lane: &BTreeMap<LaneAge, ForwardKey>, group: u32, bucket: u32) -> Option<Aged>
    ensures { IsFirstOf (tree.get lane_cmp by_lane.now) group bucket result }
{
    let start = LaneAge {
        group,
        bucket,
        age: 0,
    };
    let (place, key) = by_lane.range(start..).next()?;
    if place.group != group {
        return None;
    }
    if place.bucket != bucket {
        return None;
    }
    Some((place.age, *key))
}

/// The older of the oldest of some lanes and the oldest of another.
fn older(best: Option<Aged>, found: Option<Aged>) -> Option<Aged>
    ensures { result ≡ older best found }
{
    match (best, found) {
        (Some(a), Some(b)) => { if a.0 <= b.0 { Some(a) } else { Some(b) } }
        (Some(a), None) => Some(a),
        (None, other) => other,
    }
}

/// The oldest of the lanes of a group whose buckets the bits mean.
pub fn oldest(by_lane: &BTreeMap<LaneAge, ForwardKey>, group: u32, buckets: u64) -> Option<Aged>
    ensures { IsFound (tree.get lane_cmp by_lane.now) group buckets 64 result }
{
    let mut best = None;
    for bucket in 0..64u32 {
        if has_bucket(buckets, bucket) {
            best = older(best, first_of(by_lane, group, bucket));
        }
    }
    best
}
