//! The shares of one server: the ports of each pool that it may take.
ghost use Rattle.std.specs.Prelude.{◌≡◌, ◌∷◌, ◌<◌, ◌≤◌, ◌^◌, ◌↔◌, [], length, map, IfOk, IfSome, IfNone, IsNone, slice_get};
ghost use Rattle.std.specs.List.{remove};
ghost use Rattle.mt_ledger.specs.Pools.{none_of, ports_at, with_ports, ranges, IsPortOf};
ghost use Rattle.mt_ledger.specs.Ports.{placed, times, NoneTwice};

use crate::pool::{PortRange, PortToken};
use crate::portion::Portion;
use std::alloc::{AllocError, Global};
use std::marker::Model;

/// The ports that one server may take: a share for each pool, ascending.
#[derive(Debug, Drop)]
pub struct Shares {
    pub(crate) portions: Vec<Portion>,
}

impl Model for Shares {
    ghost use Rattle.std.specs.Prelude.{List, ◌^◌, ◌<◌, length};
    ghost use Rattle.mt_ledger.specs.Pools.{PoolPorts};

    ghost Value = { List PoolPorts };

    ghost view = { λ s. s.portions.items };
}

impl Shares {
    /// Empty shares of these pools.
    pub(crate) fn none(alloc: Global, pools: &[PortRange]) -> Result<Shares, AllocError>
        ensures { IfOk result (λ shares. shares ≡ map none_of pools.now) }
    {
        let mut portions = Vec::with_capacity(alloc, pools.len())?;
        for range in pools {
            portions.push(Portion::none(alloc, *range)?)?;
        }
        Ok(Shares { portions })
    }

    /// The length of a share.
    pub fn count(&self, pool: u32) -> u32
        requires { pool < length self.now }
        ensures { result ≡ length (ports_at self.now pool) }
    {
        self.portions[pool as usize].count()
    }

    /// The port at a place of a share, counted from its lowest port on.
    pub fn take(&mut self, pool: u32, place: u32) -> Option<PortToken>
        requires pool { pool < length self.old }
        requires place { 0 < length (ports_at self.old pool) → place < length (ports_at self.old pool) }
        ensures pools { ranges self.new ≡ ranges self.old }
        ensures empty { IsNone result ↔ (ports_at self.old pool ≡ []) }
        ensures unchanged { IfNone result (self.new ≡ self.old) }
        ensures port { IfSome result (λ token. (token.pool ≡ pool) × (slice_get (ports_at self.old pool) place ≡ Some token.port)) }
        ensures rest { IfSome result (λ _. self.new ≡ with_ports self.old pool (remove (ports_at self.old pool) place)) }
    {
        let portion = &mut self.portions[pool as usize];
        let port = portion.take(place as usize)?;
        Some(PortToken::new(pool, port))
    }

    /// The port of a token, put back into its place in the share.
    pub fn give_back(&mut self, token: PortToken)
        requires pool { IsPortOf self.old token.pool token.port }
        requires apart { NoneTwice (token.port ∷ ports_at self.old token.pool) }
        ensures pools { ranges self.new ≡ ranges self.old }
        ensures share { self.new ≡ with_ports self.old token.pool (placed token.port (ports_at self.old token.pool)) }
    {
        let portion = &mut self.portions[token.pool() as usize];
        portion.put(token.port());
    }
}
