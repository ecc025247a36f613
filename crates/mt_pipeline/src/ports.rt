//! Ports of a pool: one is taken from the share, which is filled from the stock where it is empty, and given back.
ghost use Rattle.std.specs.Prelude.{◌≡◌, ◌∷◌, ◌++◌, ◌<◌, ◌≤◌, [], None, false, Contains, length, vec_len, vec_capacity};
ghost use Rattle.mt_ledger.specs.Pools.{ports_at, ranges};
ghost use Rattle.mt_kinds.specs.declared.rewriter.SourcePort.TheVariants as wanted;
ghost use Rattle.mt_pipeline.specs.Trying.{EndsSource, HasMoved, IsEmpty, IsGivable, IsGivenBack, token_in};

use crate::context::Given;
use mt_kinds::{Pool, SourcePort};
use mt_ledger::{Ledger, Policy, PortToken, Shares};
use std::alloc::AllocError;

/// How a source port is found.
pub(crate) enum Sourced {
    /// This one, and what holds it where it is one of a pool.
    Port(u16, Option<PortToken>),
    /// No port of the pool is free.
    Exhausted,
    /// The pool of this number is not gone, but its share and its stock are empty.
    Starved(u32),
}

/// Fills an empty share from the stock.
fn fill(shares: &mut Shares, ledger: &mut Ledger, pool: u32)
    requires pool { pool < length ledger.old.stocks }
    requires pools { ranges shares.old ≡ ranges ledger.old.stocks }
    ensures moved { HasMoved None ledger.old ledger.new shares.old shares.new }
    ensures ranges { ranges shares.new ≡ ranges shares.old }
    ensures filled { ports_at shares.new pool ≡ [] → ports_at ledger.new.stocks pool ≡ [] }
{
    if shares.count(pool) > 0 {
        return;
    }
    ledger.refill(pool, shares);
}

/// A place of a share of this length, where it is not empty.
fn place_in(policy: &Policy, hint: u16, count: u32) -> u32
    ensures { 0 < count → result < count }
{
    if count == 0 {
        return 0;
    }
    policy.pick(u32::from(hint), count)
}

/// Whether no other share has ports of a pool.
fn is_gone(gone: &[u32], pool: u32) -> bool
    ensures { result ≡ false → Contains gone.now pool → ⊥ }
{
    gone.contains(&pool)
}

/// One more pick, for which there is room.
fn push_within(picks: &mut Vec<u16>, port: u16)
    requires { vec_len picks.old < vec_capacity picks.old }
    ensures { picks.new.items ≡ picks.old.items ++ port ∷ [] }
{
    let _ = picks.push(port);
}

/// A port of the pool of that number, picked by the policy from the share.
fn take_port(
    given: &Given<'_>,
    shares: &mut Shares,
    ledger: &mut Ledger,
    picks: &mut Vec<u16>,
    pool: u32,
    hint: u16,
) -> Result<Sourced, AllocError>
    requires pool { pool < length ledger.old.stocks }
    requires known { pool < length given.now.rewriters.now.pools.items }
    requires pools { ranges shares.old ≡ ranges ledger.old.stocks }
    ensures moved { HasMoved (token_in result) ledger.old ledger.new shares.old shares.new }
    ensures ends { EndsSource given.now.rewriters.now.pools.items given.now.gone.now ledger.new shares.new hint (wanted.Pool pool) picks.old.items picks.new.items result }
{
    picks.try_reserve(1)?;
    fill(shares, ledger, pool);
    let place = place_in(given.policy, hint, shares.count(pool));
    match shares.take(pool, place) {
        Some(token) => {
            push_within(picks, token.port());
            Ok(Sourced::Port(token.port(), Some(token)))
        }
        None if is_gone(given.gone, pool) => Ok(Sourced::Exhausted),
        None => Ok(Sourced::Starved(pool)),
    }
}

/// The source port that a flow gets whose own is `own`.
pub(crate) fn source_of(
    given: &Given<'_>,
    shares: &mut Shares,
    ledger: &mut Ledger,
    picks: &mut Vec<u16>,
    own: u16,
    wanted: SourcePort,
) -> Result<Sourced, AllocError>
    requires stocks { length ledger.old.stocks ≡ length given.now.rewriters.now.pools.items }
    requires pools { ranges shares.old ≡ ranges ledger.old.stocks }
    ensures moved { HasMoved (token_in result) ledger.old ledger.new shares.old shares.new }
    ensures ends { EndsSource given.now.rewriters.now.pools.items given.now.gone.now ledger.new shares.new own wanted picks.old.items picks.new.items result }
{
    match wanted {
        SourcePort::Same => Ok(Sourced::Port(own, None)),
        SourcePort::One(port) => Ok(Sourced::Port(port, None)),
        SourcePort::Pool(number) if (number as usize) < given.rewriters.pools.len() => {
            take_port(given, shares, ledger, picks, number, own)
        }
        SourcePort::Pool(_) => Ok(Sourced::Exhausted),
    }
}

/// Gives a port back to its share.
pub(crate) fn give_back(pools: &[Pool], shares: &mut Shares, held: Option<PortToken>)
    requires { IsGivable pools.now shares.old held }
    ensures { IsGivenBack pools.now shares.old shares.new held }
{
    let Some(token) = held else {
        return;
    };
    if (token.pool() as usize) < pools.len() {
        shares.give_back(token);
    }
}
