//! One server that serves the frames of a chain, one after the other.
ghost use Rattle.std.specs.Prelude.{◌<◌, ◌≤◌, ◌+◌, ◌^◌, IfOk};
ghost use Rattle.mt_elements.specs.ChainState.{ChainState};
ghost use Rattle.mt_packet.specs.declared.frame.Stamped.{Stamped};
ghost use Rattle.mt_pipeline.specs.Contexts.{IsContextOf};
ghost use Rattle.mt_pipeline.specs.Serving.{CanTurn};
ghost use Rattle.mt_pipeline.specs.Standing.{AreGone};
ghost use Rattle.metron.specs.Standing.{HasServedFrame, HasTurned, IsAtRest, IsBegun, IsWaiting};

use mt_ledger::Ledger;
use mt_packet::{Stamped, Writes};
use mt_pipeline::{Context, Queued, Server, Service, Turn};
use std::alloc::{AllocError, Global};

/// A server with its ledger, and how many fields were written.
#[derive(Drop)]
pub(crate) struct Worker {
    pub server: Server,
    pub ledger: Ledger,
    pub writes: Writes,
}

impl Worker {
    /// A server that has served nothing yet.
    pub(crate) fn open(alloc: Global, context: &Context) -> Result<Worker, AllocError>
        requires { (chain : ChainState) × IsContextOf chain context.now.rewriters context.now.classes context.now.index }
        ensures { IfOk result (λ worker. (chain : ChainState) → IsContextOf chain context.now.rewriters context.now.classes context.now.index → IsBegun chain context.now.rewriters context.now.classes context.now.index worker) }
    {
        let (ledger, server) = context.open(alloc)?;
        Ok(Worker {
            server,
            ledger,
            writes: Writes::new(),
        })
    }

    /// One turn of a server that has one frame queued.
    fn turn(&mut self, context: &Context, gone: &[u32]) -> Result<Turn, AllocError>
        requires can { (chain : ChainState) × CanTurn chain context.now.rewriters context.now.classes context.now.index self.old.server self.old.ledger }
        requires waiting { (frame : Stamped) × IsWaiting self.old frame }
        requires gone { AreGone gone.now self.old.ledger }
        requires room { self.old.writes < 2 ^ 62 }
        ensures turned { IfOk result (λ ended. (chain : ChainState) → CanTurn chain context.now.rewriters context.now.classes context.now.index self.old.server self.old.ledger → HasTurned chain self.old self.new gone.now ended) }
        ensures can { (chain : ChainState) → CanTurn chain context.now.rewriters context.now.classes context.now.index self.old.server self.old.ledger → CanTurn chain context.now.rewriters context.now.classes context.now.index self.new.server self.new.ledger }
        ensures few { self.new.writes ≤ self.old.writes + 24 }
    {
        self.server
            .turn(context, &mut self.ledger, gone, &mut self.writes)
    }

    /// Serves the one frame that is queued. Turns are taken until it is served: a pool that a turn meets empty is gone for
    /// the next, since no other server has ports of it.
    fn serve_head(&mut self, alloc: Global, context: &Context) -> Result<Service, AllocError>
        requires can { (chain : ChainState) × CanTurn chain context.now.rewriters context.now.classes context.now.index self.old.server self.old.ledger }
        requires waiting { (frame : Stamped) × IsWaiting self.old frame }
        requires room { self.old.writes < 2 ^ 62 }
        ensures served { IfOk result (λ service. (chain : ChainState) (frame : Stamped) → CanTurn chain context.now.rewriters context.now.classes context.now.index self.old.server self.old.ledger → IsWaiting self.old frame
            → HasServedFrame chain self.old self.new frame service × IsAtRest chain context.now.rewriters context.now.classes context.now.index self.new) }
        ensures few { self.new.writes ≤ self.old.writes + 24 }
    {
        let mut gone = Vec::new(alloc);
        loop {
            match self.turn(context, &gone) {
                Ok(Turn::Served(service)) => return Ok(service),
                Ok(Turn::Starved(pool)) => gone.push(pool)?,
                Ok(Turn::Idle) => unreachable!(),
                Err(error) => return Err(error),
            }
        }
    }

    /// Serves a frame. A pool that has no free port in share and stock is exhausted: there is no other server.
    pub(crate) fn serve(
        &mut self,
        alloc: Global,
        context: &Context,
        frame: Stamped,
    ) -> Result<Service, AllocError>
        requires rest { (chain : ChainState) × IsAtRest chain context.now.rewriters context.now.classes context.now.index self.old × (frame.device ≤ chain.entries) }
        requires arrived { 0 < frame.device }
        requires room { self.old.writes < 2 ^ 62 }
        ensures served { IfOk result (λ service. (chain : ChainState) → IsAtRest chain context.now.rewriters context.now.classes context.now.index self.old → frame.device ≤ chain.entries
            → HasServedFrame chain self.old self.new frame service × IsAtRest chain context.now.rewriters context.now.classes context.now.index self.new) }
        ensures few { self.new.writes ≤ self.old.writes + 24 }
    {
        self.server.enqueue(Queued {
            tag: 0,
            stamped: frame,
        });
        self.serve_head(alloc, context)
    }
}
