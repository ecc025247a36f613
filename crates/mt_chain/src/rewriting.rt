//! The step of a rewriter on a packet.
ghost use Rattle.std.specs.Prelude.{◌≡◌};
ghost use Rattle.mt_packet.specs.Packet.{HasPorts, IsChecked};
ghost use Rattle.mt_chain.specs.Rewriting.{annotated, with_flow};
ghost use Rattle.mt_chain.specs.Step.{IsSound};

use crate::step::{set, was_checked};
use mt_packet::{Field, Flow, Packet};

/// Writes the two ends of a flow.
#[tactic(auto, using(crate::proofs::Sound::from_checked))]
pub(crate) fn write_flow(packet: &mut Packet, flow: &Flow)
    requires ports { HasPorts packet.old }
    ensures written { packet.new ≡ with_flow packet.old flow.now }
    ensures checked { IsChecked packet.new }
{
    set(packet, Field::Src, u64::from(flow.sa));
    set(packet, Field::Sport, u64::from(flow.sp));
    set(packet, Field::Dst, u64::from(flow.da));
    set(packet, Field::Dport, u64::from(flow.dp));
}

/// Sets the annotation to the destination.
#[tactic(auto, using(crate::proofs::Sound::from_checked))]
pub(crate) fn annotate(packet: &mut Packet)
    requires checked { IsChecked packet.old }
    ensures written { packet.new ≡ annotated packet.old }
    ensures sound { IsSound packet.new }
{
    let destination = packet.field(Field::Dst);
    set(packet, Field::Annotation, destination);
}
