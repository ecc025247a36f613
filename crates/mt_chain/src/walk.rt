//! The walk of a packet along the wires of a chain, from an element to its end.
ghost use Rattle.std.specs.Prelude.{◌≡◌, ◌≤◌, suc, length, true, Some, Ok, IfOk, IfErr};
ghost use Rattle.mt_kinds.specs.Layers.{is_ip};
ghost use Rattle.mt_packet.specs.Ipv4.{has_ports};
ghost use Rattle.mt_packet.specs.Packet.{datagram_of};
ghost use Rattle.mt_rewriter.specs.Mappings.{taken_back};
ghost use Rattle.mt_rewriter.specs.Passages.{is_rewritten};
ghost use Rattle.mt_chain.specs.Rewriting.{passed};
ghost use Rattle.mt_chain.specs.Step.{IsSound, unwired_cause};
ghost use Rattle.mt_chain.specs.Run.{run_told, run_from, rewriter_step, element_step, fate_of, next_after};
ghost use Rattle.mt_chain.specs.Walking.{IsGiven, IsStop};

use crate::rewriting::{annotate, write_flow};
use crate::step::{Ending, Exit, pass, was_checked};
use crate::{Fate, Ran, Tables};
use mt_elements::Chain;
use mt_kinds::{Kind, Specs, takes};
use mt_packet::{Cause, Packet};
use mt_rewriter::{Given, Log, Passage, decide_for};
use std::alloc::AllocError;

/// Why a walk stops before its end.
#[derive(Clone, Copy)]
pub(crate) enum Stop {
    /// The chain has no way for the packet.
    NoWay,
    /// The pick with that index is missing or is not free.
    BadPick(usize),
    NoMemory,
}

impl From<AllocError> for Stop {
    ghost use Rattle.std.specs.Prelude.{◌≡◌};
    ghost use Rattle.mt_chain.specs.declared.walk.Stop.TheVariants.{NoMemory};

    ghost from_gives = { λ _ stop. stop ≡ NoMemory };

    fn from(_: AllocError) -> Stop {
        Stop::NoMemory
    }
}

/// Where a packet goes from an element.
#[derive(Clone, Copy)]
pub(crate) enum Next {
    /// To an element and an input of it.
    Goes(u32, u32),
    /// Its run ends.
    Ends(Ending),
}

/// The cause for which a packet is dropped at an output that leads nowhere. None where that output
/// always leads somewhere.
fn unwired_cause(kind: &Kind, out: u32) -> Option<Cause>
    ensures { result ≡ unwired_cause kind.now out }
{
    match kind {
        Kind::PaintSwitch => Some(Cause::NoPaint),
        Kind::CheckIPHeader if out == 1 => Some(Cause::BadIp),
        Kind::DecIPTTL if out == 1 => Some(Cause::Ttl),
        _ => None,
    }
}

/// Where a packet goes from an element. None where it leaves by an output that leads nowhere and has to lead
/// somewhere.
fn next_after(chain: &Chain, element: u32, kind: &Kind, exit: Exit) -> Option<Next>
    ensures { result ≡ next_after chain.now element kind.now exit }
{
    match exit {
        Exit::Leaves(out) => match chain.next(element, out) {
            Some((next, input)) => Some(Next::Goes(next, input)),
            None => Some(Next::Ends(Ending::Dropped(unwired_cause(kind, out)?))),
        },
        Exit::Stops(ending) => Some(Next::Ends(ending)),
    }
}

/// Does to a packet what was decided at a rewriter.
fn leave(packet: &mut Packet, passage: Passage) -> Exit
    requires taken { is_ip packet.old.layer ≡ true }
    requires sound { IsSound packet.old }
    requires ports { is_rewritten passage ≡ true → has_ports (datagram_of packet.old) ≡ true }
    ensures passed { (packet.new, result) ≡ passed passage packet.old }
    ensures sound { IsSound packet.new }
{
    was_checked(packet);
    match passage {
        Passage::Rewritten(meeting) => {
            write_flow(packet, &meeting.after);
            annotate(packet);
            Exit::Leaves(meeting.output)
        }
        Passage::Passed(out) => {
            annotate(packet);
            Exit::Leaves(out)
        }
        Passage::Dropped(cause) => Exit::Stops(Ending::Dropped(cause)),
    }
}

/// Takes a packet through a rewriter, behind so many picks: how it leaves, and the count of picks. What has been
/// logged takes back what was done to the tables.
#[tactic(auto, unfolding(crate::specs::Run::rewriter_step))]
fn rewrite(
    given: &Given<'_>,
    tables: &mut Tables,
    log: &mut Log,
    port: (u32, u32),
    specs: &Specs,
    packet: &mut Packet,
    used: usize,
) -> Result<(Exit, usize), Stop>
    requires taken { is_ip packet.old.layer ≡ true }
    requires sound { IsSound packet.old }
    ensures step { IfOk result (λ r. rewriter_step given.now.mappers.now given.now.pools.now given.now.picks.now port specs.now (record { packet = packet.old; tables = tables.old; used = used })
        ≡ Some (Ok (record { packet = packet.new; tables = tables.new; used = r.1 }, r.0))) }
    ensures stop { IfErr result (IsStop (rewriter_step given.now.mappers.now given.now.pools.now given.now.picks.now port specs.now (record { packet = packet.old; tables = tables.old; used = used }))) }
    ensures sound { IsSound packet.new }
    ensures back { taken_back log.new tables.new ≡ taken_back log.old tables.old }
    ensures within { used ≤ length given.now.picks.now → IfOk result (λ r. r.1 ≤ length given.now.picks.now) }
{
    let Some(spec) = specs.as_slice().get(port.1 as usize) else {
        return Err(Stop::NoWay);
    };
    let decision = match decide_for(given, tables, port, used, *spec, packet.flow()) {
        Ok(decision) => decision,
        Err(place) => return Err(Stop::BadPick(place)),
    };
    tables.remember(&decision, log)?;
    Ok((leave(packet, decision.passage), decision.used))
}

/// Takes a packet through an element by one of its inputs, behind so many picks.
fn step(
    given: &Given<'_>,
    tables: &mut Tables,
    log: &mut Log,
    port: (u32, u32),
    kind: &Kind,
    packet: &mut Packet,
    used: usize,
) -> Result<(Exit, usize), Stop>
    requires sound { IsSound packet.old }
    ensures step { IfOk result (λ r. element_step given.now.mappers.now given.now.pools.now given.now.picks.now port kind.now (record { packet = packet.old; tables = tables.old; used = used })
        ≡ Some (Ok (record { packet = packet.new; tables = tables.new; used = r.1 }, r.0))) }
    ensures stop { IfErr result (IsStop (element_step given.now.mappers.now given.now.pools.now given.now.picks.now port kind.now (record { packet = packet.old; tables = tables.old; used = used }))) }
    ensures sound { IsSound packet.new }
    ensures back { taken_back log.new tables.new ≡ taken_back log.old tables.old }
    ensures within { used ≤ length given.now.picks.now → IfOk result (λ r. r.1 ≤ length given.now.picks.now) }
{
    if let Kind::IPRewriter(specs) = kind {
        if !takes(kind, packet.layer()) {
            return Err(Stop::NoWay);
        }
        return rewrite(given, tables, log, port, specs, packet, used);
    }
    match pass(kind, packet) {
        Some(exit) => Ok((exit, used)),
        None => Err(Stop::NoWay),
    }
}

/// Runs a packet from an element on, an element at a time along the wires.
pub(crate) fn walk(
    chain: &Chain,
    given: &Given<'_>,
    tables: &mut Tables,
    log: &mut Log,
    packet: Packet,
    entry: u32,
) -> Result<Ran, Stop>
    requires sound { IsSound packet }
    requires given { IsGiven chain.now given.now.mappers.now given.now.pools.now }
    ensures run { IfOk result (λ ran. run_from (suc (length chain.now.wires)) chain.now given.now.picks.now (entry, 0) (record { packet = packet; tables = tables.old; used = 0 })
        ≡ Some (Ok (run_told tables.new given.now.picks.now ran))) }
    ensures stop { IfErr result (IsStop (run_from (suc (length chain.now.wires)) chain.now given.now.picks.now (entry, 0) (record { packet = packet; tables = tables.old; used = 0 }))) }
    ensures back { taken_back log.new tables.new ≡ taken_back log.old tables.old }
    ensures used { IfOk result (λ ran. ran.used ≤ length given.now.picks.now) }
{
    let mut packet = packet;
    let mut port = (entry, 0);
    let mut used = 0;
    for _ in 0..chain.wires() + 1 {
        if port.0 >= chain.elements() {
            return Err(Stop::NoWay);
        }
        let kind = chain.kind(port.0);
        let (exit, taken) = match step(given, tables, log, port, kind, &mut packet, used) {
            Ok(stepped) => stepped,
            Err(stop) => return Err(stop),
        };
        used = taken;
        match next_after(chain, port.0, kind, exit) {
            Some(Next::Goes(element, input)) => port = (element, input),
            Some(Next::Ends(ending)) => return Ok(ran_to(ending, packet, used)),
            None => return Err(Stop::NoWay),
        }
    }
    Err(Stop::NoWay)
}

/// The run of a packet to that end, which took so many picks.
fn ran_to(ending: Ending, packet: Packet, used: usize) -> Ran
    ensures fate { result.fate ≡ fate_of packet ending }
    ensures used { result.used ≡ used }
{
    let fate = match ending {
        Ending::Sent(device) => Fate::Sent(device, packet.into_stamped()),
        Ending::Dropped(cause) => Fate::Dropped(cause),
    };
    Ran { fate, used }
}
