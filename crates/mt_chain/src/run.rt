//! The run of one packet along the wires of a chain.
ghost use Rattle.std.specs.Prelude.{◌≡◌, ◌≤◌, Some, Ok, length, IfOk, IfErr, OnErr};
ghost use Rattle.mt_packet.specs.declared.layer.Layer.TheVariants as layer;
ghost use Rattle.mt_chain.specs.Kept.{ComesFrom, Stays};
ghost use Rattle.mt_elements.specs.ChainState.{entry_of};
ghost use Rattle.mt_rewriter.specs.Kept.{AreTables};
ghost use Rattle.mt_chain.specs.Run.{Answer, Run, run_answer, run_packet, run_told, IsStateless, IsThere, RunCause};
ghost use Rattle.mt_chain.specs.Walking.{IsStop};
ghost use Rattle.mt_chain.specs.declared.walk.Stop.TheVariants as why;

use crate::Tables;
use crate::walk::{Stop, walk};
use mt_elements::Chain;
use mt_kinds::laws::outputs_are_counted;
use mt_packet::{Cause, Field, Packet, Stamped};
use mt_rewriter::laws::{decisions_keep_tables, mappings_stay, passages_lead};
use mt_rewriter::{Given, Log};
use mt_wiring::laws::ranks;
use std::alloc::Global;

/// What becomes of a packet.
#[derive(Drop)]
pub enum Fate {
    /// It is sent on a device, numbered from 1, as this frame.
    Sent(u32, Stamped),
    /// It is dropped.
    Dropped(Cause),
}

/// The fate of a packet, and how many of the picks its run took, from the first on.
#[derive(Drop)]
pub struct Ran {
    pub fate: Fate,
    pub used: usize,
}

/// Why there is no run.
#[derive(Clone, Copy, Debug, PartialEq, Eq)]
pub enum RunFault {
    /// The pick with that index is missing or is not free.
    BadPick(usize),
    /// There was no memory.
    NoMemory,
}

/// Runs a packet, as it arrives on a device of a chain, element by element to its fate. `picks` are the ports
/// to be picked, in their order: the run takes as many of the first as it needs, and each has to be a free port of
/// its pool. The tables are those that `Tables::new` made for this chain and that only runs of this chain have
/// changed; they are as before where there is a fault.
///
/// A reply, a port and a clash are looked for among all mappings.
#[tactic(auto, using(crate::proofs::Sound::at_frame), unfolding(crate::specs::Run::run_packet))]
pub fn run_one(
    alloc: Global,
    chain: &Chain,
    tables: &mut Tables,
    packet: Packet,
    picks: &[u16],
) -> Result<Ran, RunFault>
    requires arrived { packet.layer ≡ layer.Frame }
    requires known { IsThere (entry_of chain.now packet.device) }
    requires kept { AreTables chain.now tables.old }
    ensures run { IfOk result (λ ran. run_packet chain.now tables.old packet picks.now ≡ Some (run_told tables.new picks.now ran)) }
    ensures cause { IfErr result (RunCause (run_answer chain.now tables.old packet picks.now)) }
    // Such a packet always has a run, or a pick that is missing or not free.
    ensures always { IsThere (run_answer chain.now tables.old packet picks.now) }
    ensures left { (run : Run) → run_packet chain.now tables.old packet picks.now ≡ Some run → length run.picks ≤ length picks.now }
    // Where there is no rewriter no pick is needed.
    ensures stateless { IsStateless chain.now → IsThere (run_packet chain.now tables.old packet picks.now) }
    ensures sent { IfOk result (λ ran. ComesFrom packet ran.fate) }
    ensures used { IfOk result (λ ran. ran.used ≤ length picks.now) }
    ensures kept { AreTables chain.now tables.new }
    ensures stays { Stays tables.old tables.new }
    ensures unchanged { OnErr result (tables.new ≡ tables.old) }
{
    expected(chain, tables, &packet, picks);
    let Some(entry) = chain.entry(packet.field(Field::Device) as u32) else {
        unreachable!();
    };
    let given = Given {
        mappers: chain.templates(),
        pools: chain.pools(),
        picks,
    };
    let mut log = Log::new(alloc);
    match walk(chain, &given, tables, &mut log, packet, entry) {
        Ok(ran) => Ok(ran),
        Err(stop) => {
            tables.take_back(log);
            Err(fault_of(stop))
        }
    }
}

/// What is known of the run of a packet before it begins. There is nothing to run.
fn expected(chain: &Chain, _tables: &Tables, _packet: &Packet, _picks: &[u16])
    requires arrived { _packet.now.layer ≡ layer.Frame }
    requires known { IsThere (entry_of chain.now _packet.now.device) }
    requires kept { AreTables chain.now _tables.now }
    ensures always { IsThere (run_answer chain.now _tables.now _packet.now _picks.now) }
    ensures left { (run : Run) → run_packet chain.now _tables.now _packet.now _picks.now ≡ Some run → length run.picks ≤ length _picks.now }
    ensures stateless { IsStateless chain.now → IsThere (run_packet chain.now _tables.now _packet.now _picks.now) }
    ensures keeps { (run : Run) → run_answer chain.now _tables.now _packet.now _picks.now ≡ Some (Ok run) → ComesFrom _packet.now run.fate × AreTables chain.now run.tables × Stays _tables.now run.tables }
{
    chain.is_accepted();
    ranks();
    outputs_are_counted();
    decisions_keep_tables();
    mappings_stay();
    passages_lead();
}

/// Why there is no run, where the chain has a way for the packet.
fn fault_of(stop: Stop) -> RunFault
    requires way { stop ≡ why.NoWay → ⊥ }
    ensures { (answer : Answer Run) → IsStop answer stop → RunCause answer result }
{
    match stop {
        Stop::BadPick(place) => RunFault::BadPick(place),
        Stop::NoMemory => RunFault::NoMemory,
        Stop::NoWay => unreachable!(),
    }
}
