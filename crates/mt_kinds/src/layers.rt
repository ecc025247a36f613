//! The layers at which elements take packets.
ghost use Rattle.std.specs.Prelude.{◌≡◌};
ghost use Rattle.mt_packet.specs.Packet.{has_ethernet};
ghost use Rattle.mt_kinds.specs.Layers.{is_frame, is_bare, is_ip, takes, without_header, layer_behind};

use crate::Kind;
use mt_packet::Layer;

fn is_frame(layer: Layer) -> bool
    ensures { result ≡ is_frame layer }
{
    matches!(layer, Layer::Frame)
}

fn has_ethernet(layer: Layer) -> bool
    ensures { result ≡ has_ethernet layer }
{
    matches!(layer, Layer::Frame | Layer::Framed)
}

fn is_bare(layer: Layer) -> bool
    ensures { result ≡ is_bare layer }
{
    matches!(layer, Layer::Bare | Layer::Ip)
}

fn is_ip(layer: Layer) -> bool
    ensures { result ≡ is_ip layer }
{
    matches!(layer, Layer::Ip)
}

/// Whether an element takes packets at a layer; the packets of a device enter its `FromDevice` as frames, and none
/// comes to a mapper.
pub fn takes(kind: &Kind, layer: Layer) -> bool
    ensures { result ≡ takes kind.now layer }
{
    match kind {
        Kind::FromDevice(_) => is_frame(layer),
        Kind::ToDevice(_) | Kind::Classifier(_) | Kind::EtherMirror | Kind::Strip => {
            has_ethernet(layer)
        }
        Kind::Discard
        | Kind::Null
        | Kind::Counter
        | Kind::Queue
        | Kind::Paint(_)
        | Kind::PaintSwitch => true,
        Kind::CheckIPHeader => is_bare(layer),
        Kind::EtherEncap(_, _, _)
        | Kind::DecIPTTL
        | Kind::SetIPDSCP(_)
        | Kind::StoreIPAddress(_, _)
        | Kind::GetIPAddress
        | Kind::IPMirror
        | Kind::IPFilter(_)
        | Kind::IPClassifier(_)
        | Kind::Route(_)
        | Kind::IPRewriter(_) => is_ip(layer),
        Kind::RoundRobinIPMapper(_) => false,
    }
}

/// The layer of a packet whose Ethernet header is taken away: what was checked stays so.
fn without_header(layer: Layer) -> Layer
    ensures { result ≡ without_header layer }
{
    match layer {
        Layer::Frame | Layer::Bare => Layer::Bare,
        Layer::Ip | Layer::Framed => Layer::Ip,
    }
}

/// The layer at which packets leave an element, that came to it at a layer, by one of its outputs.
pub fn layer_behind(kind: &Kind, layer: Layer, out: u32) -> Layer
    ensures { result ≡ layer_behind kind.now layer out }
{
    match kind {
        Kind::Strip => without_header(layer),
        Kind::CheckIPHeader => { if out == 0 { Layer::Ip } else { Layer::Bare } }
        Kind::EtherEncap(_, _, _) => Layer::Framed,
        _ => layer,
    }
}
