//! A server of a chain as it is opened.
ghost use Rattle.std.specs.Prelude.{◌≡◌, ◌<◌, ◌≤◌, ◌^◌, ℕ, map, length, IfOk};
ghost use Rattle.std.specs.List.{All};
ghost use Rattle.mt_elements.specs.ChainState.{ChainState};
ghost use Rattle.mt_pipeline.specs.Contexts.{IsContextOf};
ghost use Rattle.mt_pipeline.specs.Opened.{IsOpened, range_in};

use crate::context::Context;
use crate::server::Server;
use mt_kinds::{Pool, Templates};
use mt_ledger::{Ledger, PortRange};
use std::alloc::{AllocError, Global};

/// The ranges of some pools.
fn ranges_of(alloc: Global, pools: &[Pool]) -> Result<Vec<PortRange>, AllocError>
    ensures { IfOk result (λ ranges. ranges.items ≡ map range_in pools.now) }
{
    let mut ranges = Vec::new(alloc);
    let mut rest = pools;
    while let [pool, after @ ..] = rest {
        ranges.push(PortRange {
            lo: pool.lo,
            hi: pool.hi,
        })?;
        rest = after;
    }
    Ok(ranges)
}

/// How many patterns each mapper has.
fn counts_of(alloc: Global, mappers: &[Templates]) -> Result<Vec<u32>, AllocError>
    ensures counts { IfOk result (λ counts. counts.items ≡ map length mappers.now) }
    ensures some { IfOk result (λ counts. All (λ count. 1 ≤ count) counts.items) }
{
    let mut counts = Vec::new(alloc);
    let mut rest = mappers;
    while let [patterns, after @ ..] = rest {
        counts.push(patterns.as_slice().len() as u32)?;
        rest = after;
    }
    Ok(counts)
}

impl Context {
    /// A ledger with all ports in the stock and each mapper at its first pattern, and a server with nothing in its queue,
    /// in its store and in its shares. More than 4294967295 pools or mappers count as want of memory.
    pub fn open(&self, alloc: Global) -> Result<(Ledger, Server), AllocError>
        requires { (chain : ChainState) × IsContextOf chain self.now.rewriters self.now.classes self.now.index }
        ensures { IfOk result (λ opened. (chain : ChainState) → IsContextOf chain self.now.rewriters self.now.classes self.now.index
            → IsOpened chain self.now.rewriters self.now.classes self.now.index opened.0 opened.1) }
    {
        let ranges = ranges_of(alloc, &self.rewriters.pools)?;
        let counts = counts_of(alloc, &self.rewriters.mappers)?;
        if ranges.len() > u32::MAX as usize || counts.len() > u32::MAX as usize {
            return Err(AllocError);
        }
        let (ledger, mut shares) = Ledger::open(alloc, &ranges, 1, &counts)?;
        let Some(share) = shares.pop() else {
            unreachable!();
        };
        let server = Server::new(alloc, share)?;
        Ok((ledger, server))
    }
}
