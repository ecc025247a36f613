//! A server.
ghost use Rattle.std.specs.Prelude.{◌≡◌, ◌+◌, ◌<◌, ◌≤◌, ◌^◌, ◌++◌, ◌∷◌, ◌↔◌, [], Ok, length, IfOk, OnErr};
ghost use Rattle.mt_ledger.specs.Pools.{ports_at, ranges, with_ports};
ghost use Rattle.mt_ledger.specs.Ports.{NoneTwice, placed_each};
ghost use Rattle.mt_elements.specs.ChainState.{ChainState};
ghost use Rattle.mt_pipeline.specs.Serving.{CanTurn, EndsTurn};
ghost use Rattle.mt_pipeline.specs.Standing.{AreGone};
ghost use Rattle.mt_pipeline.specs.Turns.{IsAsBefore};
ghost use Rattle.mt_pipeline.specs.declared.server.Turn.TheVariants as turn;

use crate::context::Context;
use crate::resources::Resources;
use crate::service::Service;
use crate::serving::turn_of;
use mt_flow::Store;
use mt_ledger::{Ledger, Shares};
use mt_packet::{Stamped, Writes};
use std::alloc::{AllocError, Global};
use std::collections::VecDeque;
use std::marker::Model;

/// How many frames a queue has room for.
pub const QUEUE: usize = 1024;

/// A frame in a queue, with the tag that it carries, 0 for none.
#[derive(Drop)]
pub struct Queued {
    pub tag: u32,
    pub stamped: Stamped,
}

/// How a turn ends.
#[derive(Drop)]
pub enum Turn {
    /// The queue is empty.
    Idle,
    /// The head of the queue was served.
    Served(Service),
    /// A try met the pool of this number, which is not gone, while share and stock were empty. The head waits.
    Starved(u32),
}

/// A server: a queue of frames, the mappings that it opened, and its share of each pool.
#[derive(Drop)]
pub struct Server {
    queue: VecDeque<Queued>,
    resources: Resources,
    alloc: Global,
}

impl Model for Server {
    ghost use Rattle.std.specs.Prelude.{◌≤◌, length};
    ghost use Rattle.std.specs.VecDeque.{deque_capacity};
    ghost use Rattle.mt_pipeline.specs.Turns.{ServerState};

    ghost Value = { ServerState };

    ghost view = { λ s. record { queue = s.queue.items; mappings = s.resources.store; shares = s.resources.shares } };

    ghost invariant = { λ s. (1024 ≤ deque_capacity s.queue) × (length s.queue.items ≤ 1024) };
}

impl Server {
    /// A server with an empty queue, no mappings and these shares. Room for all frames of the queue is taken here.
    pub fn new(alloc: Global, shares: Shares) -> Result<Server, AllocError>
        ensures { IfOk result (λ server. server ≡ record { queue = []; mappings = []; shares = shares }) }
    {
        let queue = VecDeque::with_capacity(alloc, QUEUE)?;
        let store = Store::new(alloc);
        let resources = Resources { store, shares };
        Ok(Server {
            queue,
            resources,
            alloc,
        })
    }

    /// Puts a frame behind all others of the queue. It takes no memory.
    pub fn enqueue(&mut self, queued: Queued)
        requires { length self.old.queue < QUEUE }
        ensures { self.new ≡ record self.old { queue = self.old.queue ++ queued ∷ [] } }
    {
        let _ = self.queue.push_back(queued);
    }

    /// How many frames are queued.
    pub fn queued(&self) -> u32
        ensures count { result ≡ length self.now.queue }
        ensures few { result ≤ QUEUE }
    {
        self.queue.len() as u32
    }

    /// How many ports of a pool its share has.
    pub fn ports(&self, pool: u32) -> u32
        requires { pool < length self.now.shares }
        ensures { result ≡ length (ports_at self.now.shares pool) }
    {
        self.resources.shares.count(pool)
    }

    /// All ports of its share of a pool go into the stock. How many there were.
    pub fn recall(&mut self, pool: u32, ledger: &mut Ledger) -> u32
        requires pool { pool < length ledger.old.stocks }
        requires pools { ranges self.old.shares ≡ ranges ledger.old.stocks }
        requires apart { NoneTwice (ports_at ledger.old.stocks pool ++ ports_at self.old.shares pool) }
        ensures stocks_pools { ranges ledger.new.stocks ≡ ranges ledger.old.stocks }
        ensures share_pools { ranges self.new.shares ≡ ranges self.old.shares }
        ensures count { result ≡ length (ports_at self.old.shares pool) }
        ensures share { self.new ≡ record self.old { shares = with_ports self.old.shares pool [] } }
        ensures stock { ledger.new ≡ record ledger.old { stocks = with_ports ledger.old.stocks pool (placed_each (ports_at self.old.shares pool) (ports_at ledger.old.stocks pool)) } }
    {
        ledger.recall(pool, &mut self.resources.shares)
    }

    /// Serves the head of the queue. It stays in the queue where a pool is met empty and where there is no memory; what
    /// was done for it is taken back then.
    pub fn turn(
        &mut self,
        context: &Context,
        ledger: &mut Ledger,
        gone: &[u32],
        writes: &mut Writes,
    ) -> Result<Turn, AllocError>
        requires can { (chain : ChainState) × CanTurn chain context.now.rewriters context.now.classes context.now.index self.old ledger.old }
        requires gone { AreGone gone.now ledger.old }
        requires room { writes.old < 2 ^ 62 }
        ensures idle { (result ≡ Ok turn.Idle) ↔ (self.old.queue ≡ []) }
        ensures ended { IfOk result (EndsTurn context.now.rewriters context.now.classes context.now.index self.old self.new ledger.old ledger.new gone.now writes.old writes.new) }
        ensures kept { (chain : ChainState) → CanTurn chain context.now.rewriters context.now.classes context.now.index self.old ledger.old
            → CanTurn chain context.now.rewriters context.now.classes context.now.index self.new ledger.new }
        ensures gone { AreGone gone.now ledger.new }
        ensures few { writes.new ≤ writes.old + 24 }
        ensures unchanged { OnErr result (IsAsBefore self.old self.new ledger.old ledger.new × (writes.new ≡ writes.old)) }
    {
        turn_of(
            self.alloc,
            &mut self.queue,
            &mut self.resources,
            context,
            ledger,
            gone,
            writes,
        )
    }
}
