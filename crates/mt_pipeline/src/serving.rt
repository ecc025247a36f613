//! A turn: the head of a queue is tried, and served where no pool is met empty.
ghost use Rattle.std.specs.Prelude.{◌≡◌, ◌+◌, ◌<◌, ◌≤◌, ◌^◌, ◌↔◌, ◌∷◌, [], false, None, Ok, length, IfOk, OnErr};
ghost use Rattle.std.specs.VecDeque.{deque_capacity, deque_len};
ghost use Rattle.mt_packet.specs.Header.{AreBytes};
ghost use Rattle.mt_elements.specs.ChainState.{ChainState};
ghost use Rattle.mt_chain.specs.Fates.{packet_of};
ghost use Rattle.mt_chain.specs.Run.{stamped_of};
ghost use Rattle.mt_chain.specs.declared.run.Fate.TheVariants as fate;
ghost use Rattle.mt_terms.specs.Trees.{rewrite_form, tree_form};
ghost use Rattle.mt_trees.specs.Meaning.{CanRewrite, rewritten};
ghost use Rattle.mt_pipeline.specs.Passing.{IsReady};
ghost use Rattle.mt_pipeline.specs.Serving.{CanTurn, EndsTry, EndsTurn, IsLeft, TurnLaws, server_of};
ghost use Rattle.mt_pipeline.specs.Standing.{AreGone};
ghost use Rattle.mt_pipeline.specs.Turns.{IsAsBefore};
ghost use Rattle.mt_pipeline.specs.Walking.{CanWalk, known, state_of};
ghost use Rattle.mt_pipeline.specs.declared.server.Turn.TheVariants as turn;

use crate::context::{Context, Given};
use crate::journal::Journal;
use crate::resources::Resources;
use crate::server::{Queued, Turn};
use crate::service::Service;
use crate::steps::End;
use crate::taking_back::take_back;
use crate::walk::walk;
use mt_chain::Fate;
use mt_chain::laws::{runs_are_there, runs_keep_tables};
use mt_ledger::Ledger;
use mt_packet::{Flow, Header, Packet, Stamped, Writes};
use mt_terms::{Rewrite, Tree};
use mt_trees::laws::{runs_stay_in_range, trees_can_be_served, trees_mean_runs};
use mt_trees::leaf::apply;
use std::alloc::{AllocError, Global};
use std::collections::VecDeque;

/// Bytes are numbers below 256: a fact for proofs, with nothing to run.
fn are_bytes(bytes: &[u8])
    ensures { AreBytes bytes.now }
{
    let _ = bytes;
}

/// What a turn needs of trees and of runs. There is nothing to run.
fn turn_laws()
    ensures { TurnLaws }
{
    trees_mean_runs();
    trees_can_be_served();
    runs_stay_in_range();
    runs_are_there();
    runs_keep_tables();
}

/// A frame as a leaf rewrites it.
fn sent(
    rewrite: &Rewrite,
    device: u32,
    header: &Header,
    passed: &[Flow],
    stamped: Stamped,
    writes: &mut Writes,
) -> Fate
    requires untagged { rewrite.now.untag ≡ false }
    requires tagless { rewrite.now.tag ≡ None }
    requires allowed { CanRewrite header.now passed.now (rewrite_form rewrite.now) (packet_of stamped) }
    requires room { writes.old < 2 ^ 62 }
    ensures fate { result ≡ fate.Sent device (stamped_of (rewritten header.now passed.now (rewrite_form rewrite.now) (packet_of stamped))) }
    ensures counted { writes.new ≡ writes.old + length rewrite.now.writes }
    ensures few { writes.new ≤ writes.old + 24 }
{
    let _list = rewrite.writes.list();
    let mut packet = Packet::new(stamped);
    apply(rewrite, header, passed, &mut packet, writes);
    Fate::Sent(device, packet.into_stamped())
}

/// Goes down a tree, and takes all back where a pool is met empty or memory is wanted.
fn try_tree<'a>(
    alloc: Global,
    given: &Given<'_>,
    resources: &mut Resources,
    ledger: &mut Ledger,
    header: &Header,
    passed: &mut Vec<Flow>,
    picks: &mut Vec<u16>,
    tree: &'a Tree,
) -> Result<End<'a>, AllocError>
    requires ready { IsReady given.now.rewriters.now given.now.gone.now resources.old ledger.old }
    requires fresh { passed.old.items ≡ [] }
    requires walks { CanWalk (state_of given.now.rewriters.now) [] header.now (tree_form tree.now) (known [] resources.old.store ledger.old []) }
    ensures ready { IsReady given.now.rewriters.now given.now.gone.now resources.new ledger.new }
    ensures tried { IfOk result (EndsTry given.now.rewriters.now given.now.gone.now picks.new.items header.now (tree_form tree.now) resources.old resources.new ledger.old ledger.new
        (known passed.new.items resources.new.store ledger.new picks.new.items)) }
    ensures left { OnErr result (IsLeft resources.old resources.new ledger.old ledger.new) }
{
    let mut journal = Journal {
        picks: Vec::new(alloc),
        opened: 0,
        moved: Vec::new(alloc),
    };
    match walk(given, resources, ledger, &mut journal, header, passed, tree) {
        Ok(End::Leaf(rewrite, device)) => {
            let Journal { picks: taken, .. } = journal;
            *picks = taken;
            Ok(End::Leaf(rewrite, device))
        }
        Ok(End::Drop(why)) => {
            let Journal { picks: taken, .. } = journal;
            *picks = taken;
            Ok(End::Drop(why))
        }
        Ok(End::Starved(pool)) => {
            take_back(given, resources, ledger, journal);
            Ok(End::Starved(pool))
        }
        Err(error) => {
            take_back(given, resources, ledger, journal);
            Err(error)
        }
    }
}

/// The head of a queue, taken out.
fn take_head(queue: &mut VecDeque<Queued>) -> Queued
    requires { 0 < deque_len queue.old }
    ensures taken { queue.old.items ≡ result ∷ queue.new.items }
    ensures capacity { deque_capacity queue.new ≡ deque_capacity queue.old }
{
    let Some(head) = queue.pop_front() else {
        unreachable!();
    };
    head
}

/// A turn over the parts of a server.
pub(crate) fn turn_of(
    alloc: Global,
    queue: &mut VecDeque<Queued>,
    resources: &mut Resources,
    context: &Context,
    ledger: &mut Ledger,
    gone: &[u32],
    writes: &mut Writes,
) -> Result<Turn, AllocError>
    requires can { (chain : ChainState) × CanTurn chain context.now.rewriters context.now.classes context.now.index (server_of queue.old.items resources.old) ledger.old }
    requires gone { AreGone gone.now ledger.old }
    requires room { writes.old < 2 ^ 62 }
    ensures idle { (result ≡ Ok turn.Idle) ↔ (queue.old.items ≡ []) }
    ensures ended { IfOk result (EndsTurn context.now.rewriters context.now.classes context.now.index (server_of queue.old.items resources.old) (server_of queue.new.items resources.new)
        ledger.old ledger.new gone.now writes.old writes.new) }
    ensures kept { (chain : ChainState) → CanTurn chain context.now.rewriters context.now.classes context.now.index (server_of queue.old.items resources.old) ledger.old
        → CanTurn chain context.now.rewriters context.now.classes context.now.index (server_of queue.new.items resources.new) ledger.new }
    ensures gone { AreGone gone.now ledger.new }
    ensures unchanged { OnErr result (IsAsBefore (server_of queue.old.items resources.old) (server_of queue.new.items resources.new) ledger.old ledger.new × (writes.new ≡ writes.old)) }
    ensures few { writes.new ≤ writes.old + 24 }
    ensures capacity { deque_capacity queue.new ≡ deque_capacity queue.old }
    ensures shorter { length queue.new.items ≤ length queue.old.items }
{
    let Some(head) = queue.front() else {
        return Ok(Turn::Idle);
    };
    turn_laws();
    are_bytes(head.stamped.frame.bytes());
    let header = Header::of(head.stamped.device, &head.stamped.frame);
    let tree = context.tree_of(&header);
    let given = Given {
        rewriters: &context.rewriters,
        policy: &context.policy,
        gone,
    };
    let mut passed = Vec::new(alloc);
    let mut picks = Vec::new(alloc);
    match try_tree(
        alloc,
        &given,
        resources,
        ledger,
        &header,
        &mut passed,
        &mut picks,
        tree,
    )? {
        End::Starved(pool) => Ok(Turn::Starved(pool)),
        End::Drop(why) => {
            let last = take_head(queue);
            Ok(Turn::Served(Service {
                number: last.stamped.number,
                fate: Fate::Dropped(why),
                picks,
            }))
        }
        End::Leaf(rewrite, device) => {
            let first = take_head(queue);
            let number = first.stamped.number;
            let fate = sent(rewrite, device, &header, &passed, first.stamped, writes);
            Ok(Turn::Served(Service {
                number,
                fate,
                picks,
            }))
        }
    }
}
