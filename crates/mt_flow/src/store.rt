//! The store of a server.
ghost use Rattle.std.specs.Prelude.{◌≡◌, ◌≢◌, AllPairs, ◌∷◌, ◌++◌, ◌↔◌, [], Some, None, Ok, Err, Contains, filter, take, vec_len, vec_capacity, length, ◌+◌, ◌<◌, ◌≤◌, IfErr, IfOk, IfSome, IfNone, IsNone, MatchOption, OnErr, OnOk};
ghost use Rattle.std.specs.BTreeMap as tree;
ghost use Rattle.mt_flow.specs.Indexes.{IsLeft};
ghost use Rattle.mt_flow.specs.Keys.{forward_cmp, reply_cmp};
ghost use Rattle.mt_flow.specs.Mappings.{AreNew, IsTakenBack, clash_of, forward_key, met_forward, met_reply, refused_of, reply_key, StandsForward, StandsReply};
ghost use Rattle.mt_flow.specs.Tied.{lane_age};
ghost use Rattle.mt_flow.specs.Lanes.{is_of, without, IsTaken};

use crate::counts::count_of;
use crate::indexes::Indexes;
use crate::keys::{ForwardKey, LaneKey, ReplyKey};
use crate::lanes::{has_bucket, oldest};
use crate::mapping::{Mapping, Meeting, OpenFault, reversed};
use mt_packet::Flow;
use std::alloc::{AllocError, Global};
use std::collections::BTreeMap;
use std::marker::Model;

/// The mappings that a server keeps. A contract sees their list, in the order of opening and accepting.
#[derive(Debug, Drop)]
pub struct Store {
    by_forward: BTreeMap<ForwardKey, Mapping>,
    indexes: Indexes,
    next: u64,
    alloc: Global,
}

impl Model for Store {
    ghost use Rattle.std.specs.Prelude.{List};
    ghost use Rattle.std.specs.BTreeMap as tree;
    ghost use Rattle.mt_flow.specs.Keys.{forward_cmp, lane_cmp, reply_cmp};
    ghost use Rattle.mt_flow.specs.Counts.{AreCounted};
    ghost use Rattle.mt_flow.specs.Tied.{IsRising, IsTied, listed};
    ghost use Rattle.mt_flow.specs.declared.mapping.Mapping.{Mapping};

    ghost Value = { List Mapping };

    ghost view = { λ s. listed (tree.get forward_cmp s.by_forward) s.indexes.by_age.entries };

    ghost invariant = { λ s. IsTied s.indexes.by_age.entries (tree.get forward_cmp s.by_forward) (tree.get reply_cmp s.indexes.by_reply) (tree.get lane_cmp s.indexes.by_lane) × IsRising 0 s.next s.indexes.by_age.entries × AreCounted s.indexes.counts (listed (tree.get forward_cmp s.by_forward) s.indexes.by_age.entries) };
}

/// The mapping of a key, taken out of all maps.
fn take_out(
    by_forward: &mut BTreeMap<ForwardKey, Mapping>,
    indexes: &mut Indexes,
    age: u64,
    key: ForwardKey,
) -> Option<Mapping>
    ensures found { result ≡ tree.get forward_cmp by_forward.old key }
    ensures forward { IfSome result (λ _. tree.Updates forward_cmp by_forward.old by_forward.new key None) }
    ensures indexes { IfSome result (λ mapping. IsLeft indexes.old indexes.new (reply_key mapping) (lane_age mapping age)) }
{
    let mapping = by_forward.remove(&key)?;
    indexes.leave(mapping.reply_key(), mapping.lane_age(age));
    Some(mapping)
}

impl Store {
    /// A store without mappings.
    pub fn new(alloc: Global) -> Store
        ensures { result ≡ [] }
    {
        Store {
            by_forward: BTreeMap::new(alloc),
            indexes: Indexes::new(alloc),
            next: 0,
            alloc,
        }
    }

    /// What a packet of a flow becomes on a forward input, where a mapping has its key.
    pub fn meet_forward(&self, element: u32, input: u32, flow: &Flow) -> Option<Meeting>
        ensures { MatchOption result (StandsForward self.now (record { element = element; input = input; before = flow.now }) → ⊥)
            (λ meeting. (mapping : _) × (Contains self.now mapping × (forward_key mapping ≡ record { element = element; input = input; before = flow.now }) × (meeting ≡ met_forward mapping))) }
    {
        let key = ForwardKey {
            element,
            input,
            before: *flow,
        };
        let mapping = self.by_forward.get(&key)?;
        Some(Meeting {
            after: mapping.after,
            output: mapping.fout,
        })
    }

    /// What a packet of a flow becomes on a reply input, where a mapping has its key.
    pub fn meet_reply(&self, element: u32, flow: &Flow) -> Option<Meeting>
        ensures { MatchOption result (StandsReply self.now (record { element = element; flow = flow.now }) → ⊥)
            (λ meeting. (mapping : _) × (Contains self.now mapping × (reply_key mapping ≡ record { element = element; flow = flow.now }) × (meeting ≡ met_reply mapping))) }
    {
        let answer = ReplyKey {
            element,
            flow: *flow,
        };
        let key = self.indexes.by_reply.get(&answer)?;
        let mapping = self.by_forward.get(key)?;
        Some(Meeting {
            after: reversed(&mapping.before),
            output: mapping.rout,
        })
    }

    /// Opens a mapping behind all others.
    pub fn open(&mut self, mapping: Mapping) -> Result<(), OpenFault>
        requires { StandsForward self.old (forward_key mapping) → ⊥ }
        ensures opened { OnOk result (self.new ≡ self.old ++ mapping ∷ []) }
        ensures unchanged { OnErr result (self.new ≡ self.old) }
        ensures back { IfErr result (λ fault. refused_of fault ≡ mapping) }
        ensures clash { (result ≡ Err (clash_of mapping)) ↔ StandsReply self.old (reply_key mapping) }
    {
        let key = mapping.forward_key();
        let answer = mapping.reply_key();
        if self.indexes.by_reply.contains_key(&answer) {
            return Err(OpenFault::Clash(mapping));
        }
        if self.next == u64::MAX {
            return Err(OpenFault::NoMemory(mapping));
        }
        let place = mapping.lane_age(self.next);
        if let Err(_) = self.indexes.enter(answer, place, key) {
            return Err(OpenFault::NoMemory(mapping));
        }
        match self.by_forward.insert(key, mapping) {
            Ok(_) => {
                self.next += 1;
                Ok(())
            }
            Err(refused) => {
                self.indexes.leave(answer, place);
                Err(OpenFault::NoMemory(refused.value.1))
            }
        }
    }

    /// The mapping that was opened or accepted last, taken out.
    pub fn undo(&mut self) -> Option<Mapping>
        ensures empty { IsNone result ↔ (self.old ≡ []) }
        ensures unchanged { IfNone result (self.new ≡ self.old) }
        ensures last { IfSome result (λ mapping. self.old ≡ self.new ++ mapping ∷ []) }
    {
        let (age, key) = match self.indexes.by_age.last_key_value() {
            Some((age, key)) => (*age, *key),
            None => return None,
        };
        take_out(&mut self.by_forward, &mut self.indexes, age, key)
    }

    /// The oldest mapping of some lanes, taken out.
    fn take_oldest(&mut self, group: u32, buckets: u64) -> Option<Mapping>
        ensures { MatchOption result (filter (is_of group buckets) self.old ≡ [] × (self.new ≡ self.old))
            (λ mapping. IsTaken (is_of group buckets) self.old mapping self.new) }
    {
        let (age, key) = match oldest(&self.indexes.by_lane, group, buckets) {
            Some(found) => found,
            None => return None,
        };
        take_out(&mut self.by_forward, &mut self.indexes, age, key)
    }

    /// The oldest mappings of some lanes, taken out: as many as asked, or all where there are fewer. The
    /// lanes are those of a group whose buckets, from 0 to 63, the bits mean.
    pub fn take_lanes(
        &mut self,
        group: u32,
        buckets: u64,
        most: u32,
    ) -> Result<Vec<Mapping>, AllocError>
        ensures taken { IfOk result (λ taken. taken.items ≡ take most (filter (is_of group buckets) self.old)) }
        ensures left { OnOk result (self.new ≡ without most (is_of group buckets) self.old) }
        ensures err { OnErr result (self.new ≡ self.old) }
    {
        let room = self.indexes.by_age.len().min(most as usize);
        let mut taken = Vec::with_capacity(self.alloc, room)?;
        for count in 0..most {
            match self.take_oldest(group, buckets) {
                Some(mapping) => push_within(&mut taken, mapping),
                None => return Ok(taken),
            }
        }
        Ok(taken)
    }

    /// How many mappings some lanes have. The lanes are as for `take_lanes`.
    pub fn kept(&self, group: u32, buckets: u64) -> usize
        ensures { result ≡ length (filter (is_of group buckets) self.now) }
    {
        // A map has fewer than 2^63 entries, so the sum fits.
        let _all = self.indexes.by_age.len();
        let mut kept = 0usize;
        for bucket in 0..64u32 {
            if has_bucket(buckets, bucket) {
                kept += count_of(&self.indexes.counts, LaneKey { group, bucket }) as usize;
            }
        }
        kept
    }

    /// Takes mappings in behind all others, in their order: all of them, or none where memory is missing.
    pub fn accept(&mut self, mut mappings: Vec<Mapping>) -> Result<(), (AllocError, Vec<Mapping>)>
        requires { AreNew self.old mappings.items }
        ensures accepted { OnOk result (self.new ≡ self.old ++ mappings.items) }
        ensures err { OnErr result (self.new ≡ self.old) }
        ensures back { IfErr result (λ refused. refused.1.items ≡ mappings.items) }
    {
        mappings.reverse();
        let mut accepted = 0usize;
        while let Some(mapping) = mappings.pop() {
            if let Err(fault) = self.open(mapping) {
                push_within(&mut mappings, fault.into_mapping());
                self.take_back(accepted, &mut mappings);
                mappings.reverse();
                return Err((AllocError, mappings));
            }
            accepted += 1;
        }
        Ok(())
    }

    /// The last mappings, taken out, the last first.
    fn take_back(&mut self, count: usize, mappings: &mut Vec<Mapping>)
        requires many { count ≤ length self.old }
        requires room { vec_len mappings.old + count ≤ vec_capacity mappings.old }
        ensures { IsTakenBack self.old self.new mappings.old.items mappings.new.items count }
    {
        for back in 0..count {
            match self.undo() {
                Some(mapping) => push_within(mappings, mapping),
                None => return,
            }
        }
    }

    /// The mappings by their forward keys.
    pub fn by_forward(&self) -> &BTreeMap<ForwardKey, Mapping>
        ensures apart { AllPairs (λ x y. forward_key x ≢ forward_key y) self.now }
        ensures found { (key : _) (mapping : _) → (tree.get forward_cmp result.now key ≡ Some mapping) ↔ (Contains self.now mapping × (forward_key mapping ≡ key)) }
    {
        &self.by_forward
    }

    /// The forward keys of the mappings by their reply keys.
    pub fn by_reply(&self) -> &BTreeMap<ReplyKey, ForwardKey>
        ensures apart { AllPairs (λ x y. reply_key x ≢ reply_key y) self.now }
        ensures found { (answer : _) (key : _) → (tree.get reply_cmp result.now answer ≡ Some key) ↔ ((mapping : _) × (Contains self.now mapping × (reply_key mapping ≡ answer) × (forward_key mapping ≡ key))) }
    {
        &self.indexes.by_reply
    }
}

/// One more mapping, for which there is room.
fn push_within(mappings: &mut Vec<Mapping>, mapping: Mapping)
    requires { vec_len mappings.old < vec_capacity mappings.old }
    ensures items { mappings.new.items ≡ mappings.old.items ++ mapping ∷ [] }
    ensures capacity { vec_capacity mappings.old ≤ vec_capacity mappings.new }
{
    let _ = mappings.push(mapping);
}
