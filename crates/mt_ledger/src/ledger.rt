//! The ledger: the stock of each pool, and the turn of each mapper.
ghost use Rattle.std.specs.Prelude.{◌≡◌, ◌+◌, ◌<◌, ◌≤◌, ◌^◌, ◌++◌, ◌∷◌, [], ℕ, length, min, take, drop, map, replicate, IfOk, slice_index, slice_set};
ghost use Rattle.std.specs.List.{All};
ghost use Rattle.mt_ledger.specs.Ledger.{opened, turn_after, turn_before};
ghost use Rattle.mt_ledger.specs.Pools.{all_of, none_of, ports_at, with_ports, ranges};
ghost use Rattle.mt_ledger.specs.Ports.{NoneTwice, placed_each};

use crate::pool::PortRange;
use crate::portion::{Portion, move_all, move_lowest};
use crate::shares::Shares;
use std::alloc::{AllocError, Global};
use std::marker::Model;

/// The ports that no server may take yet, and whose pattern a mapper tries next.
#[derive(Debug, Drop)]
pub struct Ledger {
    stocks: Vec<Portion>,
    patterns: Vec<u32>,
    turns: Vec<u32>,
}

impl Model for Ledger {
    ghost use Rattle.std.specs.Prelude.{◌≡◌, ◌<◌, length, ℕ, slice_index};
    ghost use Rattle.mt_ledger.specs.Ledger.{LedgerState, AreTurns};

    ghost Value = { LedgerState };

    ghost view = { λ l. record { stocks = l.stocks.items; patterns = l.patterns.items; turns = l.turns.items } };

    ghost invariant = { λ l. AreTurns l.patterns.items l.turns.items };
}

/// All ports of each pool.
fn whole_stocks(alloc: Global, pools: &[PortRange]) -> Result<Vec<Portion>, AllocError>
    ensures { IfOk result (λ stocks. stocks.items ≡ map all_of pools.now) }
{
    let mut stocks = Vec::with_capacity(alloc, pools.len())?;
    for range in pools {
        stocks.push(Portion::all(alloc, *range)?)?;
    }
    Ok(stocks)
}

impl Ledger {
    /// A ledger with all ports in the stock and each mapper at its first pattern, and as many empty shares
    /// as there are servers. `mappers` has the number of patterns of each mapper. Room for all that the
    /// ledger and the shares will ever hold is taken here.
    pub fn open(
        alloc: Global,
        pools: &[PortRange],
        servers: u32,
        mappers: &[u32],
    ) -> Result<(Ledger, Vec<Shares>), AllocError>
        requires pools { length pools.now < 2 ^ 32 }
        requires mappers { length mappers.now < 2 ^ 32 }
        requires patterns { All (λ patterns. 1 ≤ patterns) mappers.now }
        ensures ledger { IfOk result (λ made. made.0 ≡ opened pools.now mappers.now) }
        ensures shares { IfOk result (λ made. made.1.items ≡ replicate servers (map none_of pools.now)) }
    {
        let stocks = whole_stocks(alloc, pools)?;
        let patterns = mappers.to_vec(alloc)?;
        let turns = vec![in alloc; 0; mappers.len()]?;
        let mut shares = Vec::with_capacity(alloc, servers as usize)?;
        'servers: for _ in 0..servers {
            shares.push(Shares::none(alloc, pools)?)?;
        }
        Ok((
            Ledger {
                stocks,
                patterns,
                turns,
            },
            shares,
        ))
    }

    /// The lowest ports of the stock of a pool go into an empty share: 32, or all where there are fewer.
    /// How many there were.
    pub fn refill(&mut self, pool: u32, shares: &mut Shares) -> u32
        requires pool { pool < length self.old.stocks }
        requires pools { ranges shares.old ≡ ranges self.old.stocks }
        requires empty { ports_at shares.old pool ≡ [] }
        ensures stocks_pools { ranges self.new.stocks ≡ ranges self.old.stocks }
        ensures share_pools { ranges shares.new ≡ ranges shares.old }
        ensures count { result ≡ min 32 (length (ports_at self.old.stocks pool)) }
        ensures share { shares.new ≡ with_ports shares.old pool (take 32 (ports_at self.old.stocks pool)) }
        ensures stock { self.new ≡ record self.old { stocks = with_ports self.old.stocks pool (drop 32 (ports_at self.old.stocks pool)) } }
    {
        let stock = &mut self.stocks[pool as usize];
        let share = &mut shares.portions[pool as usize];
        move_lowest(stock, share)
    }

    /// All ports of a share go into the stock. How many there were.
    pub fn recall(&mut self, pool: u32, shares: &mut Shares) -> u32
        requires pool { pool < length self.old.stocks }
        requires pools { ranges shares.old ≡ ranges self.old.stocks }
        requires apart { NoneTwice (ports_at self.old.stocks pool ++ ports_at shares.old pool) }
        ensures stocks_pools { ranges self.new.stocks ≡ ranges self.old.stocks }
        ensures share_pools { ranges shares.new ≡ ranges shares.old }
        ensures count { result ≡ length (ports_at shares.old pool) }
        ensures share { shares.new ≡ with_ports shares.old pool [] }
        ensures stock { self.new ≡ record self.old { stocks = with_ports self.old.stocks pool (placed_each (ports_at shares.old pool) (ports_at self.old.stocks pool)) } }
    {
        let stock = &mut self.stocks[pool as usize];
        let share = &mut shares.portions[pool as usize];
        move_all(share, stock)
    }

    /// The pattern that a mapper tries next, counted from 0.
    pub fn turn(&self, mapper: u32) -> u32
        requires { mapper < length self.now.turns }
        ensures turn { result ≡ slice_index self.now.turns mapper }
        ensures below { result < slice_index self.now.patterns mapper }
    {
        self.turns[mapper as usize]
    }

    /// The turn of a mapper moves one on in the ring.
    pub fn advance(&mut self, mapper: u32)
        requires { mapper < length self.old.turns }
        ensures { self.new ≡ record self.old { turns = slice_set self.old.turns mapper (turn_after (slice_index self.old.patterns mapper) (slice_index self.old.turns mapper)) } }
    {
        let mapper = mapper as usize;
        let patterns = self.patterns[mapper];
        let turn = self.turns[mapper];
        self.turns[mapper] = if turn + 1 == patterns { 0 } else { turn + 1 };
    }

    /// The turn of a mapper moves one back in the ring.
    pub fn retreat(&mut self, mapper: u32)
        requires { mapper < length self.old.turns }
        ensures { self.new ≡ record self.old { turns = slice_set self.old.turns mapper (turn_before (slice_index self.old.patterns mapper) (slice_index self.old.turns mapper)) } }
    {
        let mapper = mapper as usize;
        let turn = self.turns[mapper];
        self.turns[mapper] = if turn == 0 {
            self.patterns[mapper] - 1
        } else {
            turn - 1
        };
    }
}
