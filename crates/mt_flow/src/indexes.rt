//! The orders and keys beside the map by forward key.
ghost use Rattle.std.specs.Prelude.{◌≡◌, [], None, OnOk, OnErr};
ghost use Rattle.std.specs.BTreeMap as tree;
ghost use Rattle.mt_flow.specs.Indexes.{IsAsBefore, IsEntered, IsLeft};
ghost use Rattle.mt_flow.specs.Keys.{lane_cmp, reply_cmp};
ghost use Rattle.mt_flow.specs.Tied.{IsRising};

use crate::counts::{count_in, count_out};
use crate::keys::{ForwardKey, LaneAge, LaneKey, ReplyKey};
use std::alloc::{AllocError, Global};
use std::collections::BTreeMap;

/// The forward keys by reply key, by age, and by lane and age, and how many each lane has.
#[derive(Debug, Drop)]
pub struct Indexes {
    pub by_reply: BTreeMap<ReplyKey, ForwardKey>,
    pub by_age: BTreeMap<u64, ForwardKey>,
    pub by_lane: BTreeMap<LaneAge, ForwardKey>,
    pub counts: BTreeMap<LaneKey, u64>,
}

impl Indexes {
    pub fn new(alloc: Global) -> Indexes
        ensures reply { result.by_reply.entries ≡ [] }
        ensures age { result.by_age.entries ≡ [] }
        ensures lane { result.by_lane.entries ≡ [] }
        ensures counts { result.counts.entries ≡ [] }
    {
        Indexes {
            by_reply: BTreeMap::new(alloc),
            by_age: BTreeMap::new(alloc),
            by_lane: BTreeMap::new(alloc),
            counts: BTreeMap::new(alloc),
        }
    }

    /// Enters a forward key under its reply key, its lane and its age, which is above all others: under all
    /// three, or under none.
    pub fn enter(
        &mut self,
        answer: ReplyKey,
        place: LaneAge,
        key: ForwardKey,
    ) -> Result<(), AllocError>
        requires reply_absent { tree.get reply_cmp self.old.by_reply answer ≡ None }
        requires lane_absent { tree.get lane_cmp self.old.by_lane place ≡ None }
        requires last { IsRising 0 place.age self.old.by_age.entries }
        ensures ok { OnOk result (IsEntered self.old self.new answer place key) }
        ensures err { OnErr result (IsAsBefore self.old self.new) }
    {
        let lane = place.lane();
        count_in(&mut self.counts, lane)?;
        if let Err(refused) = self.by_reply.insert(answer, key) {
            count_out(&mut self.counts, lane);
            return Err(AllocError::from(refused));
        }
        if let Err(refused) = self.by_lane.insert(place, key) {
            self.by_reply.remove(&answer);
            count_out(&mut self.counts, lane);
            return Err(AllocError::from(refused));
        }
        if let Err(refused) = self.by_age.insert(place.age, key) {
            self.by_reply.remove(&answer);
            self.by_lane.remove(&place);
            count_out(&mut self.counts, lane);
            return Err(AllocError::from(refused));
        }
        Ok(())
    }

    /// Takes a forward key out.
    pub fn leave(&mut self, answer: ReplyKey, place: LaneAge)
        ensures { IsLeft self.old self.new answer place }
    {
        self.by_reply.remove(&answer);
        self.by_lane.remove(&place);
        self.by_age.remove(&place.age);
        count_out(&mut self.counts, place.lane());
    }
}
