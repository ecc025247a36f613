//! Elements and chains on given packets. Values come from the RFCs (791, 768, 9293, 1071, 826), worked out by
//! hand: the bytes, the checksums and the fates.
ghost use Rattle.std.specs.Prelude.{◌≡◌, IfSome};
ghost use Rattle.mt_packet.specs.declared.layer.Layer.TheVariants as layer;
ghost use Rattle.mt_chain.specs.Step.{IsSound};

use crate::step::{Exit, pass};
use mt_kinds::Kind;
use mt_packet::{Field, Frame, Layer, Packet, Stamped};
use mt_text::hexadecimal_of_length;
use std::alloc::{AllocError, Global};

mod elements;
mod filters;

/// A UDP packet from 10.0.0.5:5000 to 198.51.100.9:53 with time to live 64, behind an Ethernet header.
const UDP: &str = "020000000002 020000000001 0800
    45000020 00010000 4011468b 0a000005 c6336409 13880035 000cf310 61626364";

/// The same as the second fragment of a packet.
const FRAGMENT: &str = "020000000002 020000000001 0800
    45000020 00010001 4011468a 0a000005 c6336409 13880035 000cf310 61626364";

/// A TCP packet of 40 bytes, and 6 bytes of zero behind it.
const PADDED: &str = "020000000002 020000000001 0800
    45000028 00020000 4006468d 0a000005 c6336409
    13880050 00000001 00000000 50022000 12340000 000000000000";

/// An ARP request.
const ARP: &str = "ffffffffffff 020000000001 0806
    00010800 06040001 020000000001 0a000005 000000000000 0a000001";

/// The bytes of hexadecimal text, with white space between them.
fn bytes(alloc: Global, text: &str) -> Result<Vec<u8>, AllocError> {
    let mut bytes = Vec::new(alloc);
    for word in text.split_ascii_whitespace() {
        for pair in word.as_bytes().chunks(2) {
            if let Some(byte) = hexadecimal_of_length(2, pair) {
                bytes.push(byte as u8)?;
            }
        }
    }
    Ok(bytes)
}

fn packet(alloc: Global, text: &str) -> Option<Packet>
    ensures arrived { IfSome result (λ p. p.layer ≡ layer.Frame) }
    ensures device { IfSome result (λ p. p.device ≡ 1) }
{
    Some(Packet::new(Stamped {
        stamp: 7,
        device: 1,
        number: 3,
        frame: Frame::new(bytes(alloc, text).ok()?),
    }))
}

/// Brings a packet that has just arrived to a layer.
fn bring(packet: &mut Packet, to: Layer)
    requires { IsSound packet.old }
    ensures { IsSound packet.new }
{
    match to {
        Layer::Frame => {}
        Layer::Bare => {
            pass(&Kind::Strip, packet);
        }
        Layer::Ip => {
            pass(&Kind::Strip, packet);
            pass(&Kind::CheckIPHeader, packet);
        }
        Layer::Framed => {
            pass(&Kind::Strip, packet);
            pass(&Kind::CheckIPHeader, packet);
            pass(
                &Kind::EtherEncap(0x0800, 0x0200_0000_000a, 0x0200_0000_000b),
                packet,
            );
        }
    }
}

/// Whether a frame that was brought to a layer comes out of an element so, with these bytes.
#[tactic(auto, using(crate::proofs::Sound::at_frame))]
fn comes_out(
    alloc: Global,
    text: &str,
    to: Layer,
    kind: Kind,
    wanted: Option<Exit>,
    after: &str,
) -> bool {
    let Some(mut packet) = packet(alloc, text) else {
        return false;
    };
    let Ok(wanted_bytes) = bytes(alloc, after) else {
        return false;
    };
    bring(&mut packet, to);
    let exit = pass(&kind, &mut packet);
    let stamped = packet.into_stamped();
    exit == wanted && stamped.frame.bytes() == wanted_bytes.as_slice()
}

/// The annotation and the paint of a UDP packet behind an element at layer Ip.
#[tactic(auto, using(crate::proofs::Sound::at_frame))]
fn notes_behind(alloc: Global, kind: Kind) -> (u64, u64) {
    let Some(mut packet) = packet(alloc, UDP) else {
        return (0, 0);
    };
    bring(&mut packet, Layer::Ip);
    pass(&kind, &mut packet);
    (packet.field(Field::Annotation), packet.field(Field::Paint))
}
