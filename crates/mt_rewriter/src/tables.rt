//! The tables of a chain: the mappings of all its rewriters, and the turns of its mappers.
ghost use Rattle.std.specs.Prelude.{◌≡◌, IfOk, OnOk, OnErr, slice_set};
ghost use Rattle.std.specs.BTreeMap.{insert_entry, is_at};
ghost use Rattle.std.specs.Map.{remove_entry};
ghost use Rattle.mt_flow.specs.Keys.{forward_cmp};
ghost use Rattle.mt_rewriter.specs.Kept.{AreTables};
ghost use Rattle.mt_rewriter.specs.Mappings.{first_tables, answers, meets_forward, meets_reply, is_port, is_free, turn_of};
ghost use Rattle.mt_rewriter.specs.Tries.{has_free};

use crate::translation::{HeldPort, Translation};
use mt_elements::Chain;
use mt_flow::{ForwardKey, Meeting};
use mt_kinds::Pool;
use mt_packet::Flow;
use std::alloc::{AllocError, Global};
use std::collections::BTreeMap;
use std::marker::Model;

/// What a chain remembers from one packet to the next. Mappings never leave it.
#[derive(Debug, Drop)]
pub struct Tables {
    mappings: BTreeMap<ForwardKey, Translation>,
    turns: Vec<u32>,
}

impl Model for Tables {
    ghost use Rattle.mt_rewriter.specs.Mappings.{TablesState};

    ghost Value = { TablesState };

    ghost view = { λ t. record { mappings = t.mappings.entries; turns = t.turns.items } };
}

impl Tables {
    /// What a chain remembers before its first packet: no mapping, and the turn of the first pattern at each mapper.
    pub fn new(alloc: Global, chain: &Chain) -> Result<Tables, AllocError>
        ensures first { IfOk result (λ t. t ≡ first_tables chain.now) }
        ensures kept { IfOk result (λ t. AreTables chain.now t) }
    {
        let mut turns = Vec::new(alloc);
        let mut rest = chain.templates();
        while let [_, after @ ..] = rest {
            turns.push(0)?;
            rest = after;
        }
        Ok(Tables {
            mappings: BTreeMap::new(alloc),
            turns,
        })
    }

    /// What a packet becomes at a forward input where a mapping has its key, and the output by which it leaves.
    pub fn meets_forward(&self, key: &ForwardKey) -> Option<Meeting>
        ensures { result ≡ meets_forward self.now.mappings key.now }
    {
        let translation = self.mappings.get(key)?;
        Some(Meeting {
            after: translation.after,
            output: translation.fout,
        })
    }

    /// What a packet becomes at a reply input where its flow is a reply to a mapping of the rewriter.
    pub fn meets_reply(&self, element: u32, flow: &Flow) -> Option<Meeting>
        ensures { result ≡ meets_reply self.now.mappings element flow.now }
    {
        for (key, translation) in &self.mappings {
            if answers(element, flow, key, translation) {
                return Some(Meeting {
                    after: mt_flow::reversed(&key.before),
                    output: translation.rout,
                });
            }
        }
        None
    }

    /// Whether no mapping got a port from a pool.
    pub fn is_free(&self, pool: u32, port: u16) -> bool
        ensures { result ≡ is_free self.now.mappings pool port }
    {
        for (_, translation) in &self.mappings {
            if is_port(pool, port, &translation.held) {
                return false;
            }
        }
        true
    }

    /// Whether some port of a pool is free.
    pub fn has_free(&self, number: u32, pool: &Pool) -> bool
        ensures { result ≡ has_free self.now.mappings number pool.now }
    {
        for port in u32::from(pool.lo)..u32::from(pool.hi) + 1 {
            if self.is_free(number, port as u16) {
                return true;
            }
        }
        false
    }

    /// The pattern of a mapper whose turn it is.
    pub fn turn(&self, mapper: u32) -> u32
        ensures { result ≡ turn_of self.now.turns mapper }
    {
        match self.turns.get(mapper as usize) {
            Some(turn) => *turn,
            None => 0,
        }
    }
}

impl Tables {
    /// Sets the turn of a mapper.
    pub(crate) fn set_turn(&mut self, mapper: u32, turn: u32)
        ensures { self.new ≡ record self.old { turns = slice_set self.old.turns mapper turn } }
    {
        if let Some(place) = self.turns.get_mut(mapper as usize) {
            *place = turn;
        }
    }

    /// Opens a mapping.
    pub(crate) fn open(
        &mut self,
        key: ForwardKey,
        translation: Translation,
    ) -> Result<(), AllocError>
        ensures opened { OnOk result (self.new ≡ record self.old { mappings = insert_entry forward_cmp self.old.mappings key translation }) }
        ensures unchanged { OnErr result (self.new ≡ self.old) }
    {
        self.mappings.insert(key, translation)?;
        Ok(())
    }

    /// Closes the mapping of a key.
    pub(crate) fn close(&mut self, key: &ForwardKey)
        ensures { self.new ≡ record self.old { mappings = remove_entry (is_at (forward_cmp key.now)) self.old.mappings } }
    {
        self.mappings.remove(key);
    }
}

/// Whether a flow is that of the replies to a mapping of a rewriter.
fn answers(element: u32, flow: &Flow, key: &ForwardKey, translation: &Translation) -> bool
    ensures { result ≡ answers element flow.now (key.now, translation.now) }
{
    key.element == element && mt_flow::reversed(&translation.after) == *flow
}

/// Whether a port of a pool is the one that is held.
fn is_port(pool: u32, port: u16, held: &Option<HeldPort>) -> bool
    ensures { result ≡ is_port pool port held.now }
{
    match held {
        Some(held) => held.pool == pool && held.port == port,
        None => false,
    }
}
