//! The step of an element on a packet: what each class does with it.
ghost use Rattle.std.specs.Prelude.{◌≡◌, true, option_map};
ghost use Rattle.mt_packet.specs.Packet.{with_field, datagram_of, CanWrite, IsChecked};
ghost use Rattle.mt_packet.specs.Ipv4.{has_ports};
ghost use Rattle.mt_packet.specs.declared.layer.Layer.TheVariants as layer;
ghost use Rattle.mt_kinds.specs.Layers.{is_ip, takes};
ghost use Rattle.mt_kinds.specs.declared.kind.Kind.TheVariants as kind;
ghost use Rattle.mt_chain.specs.Step.{class_step, stateless_step, IsSound};

use crate::classifier::{first_pattern, is_whole};
use crate::filter::{action, first_ip_pattern};
use crate::route::route;
use mt_kinds::{
    End, FilterAction, Hops, IPPatterns, Kind, Patterns, Rules, Specs, Templates, takes,
};
use mt_packet::{Cause, Field, Packet, Writes};

/// How the run of a packet ends.
#[derive(Clone, Copy, PartialEq, Eq)]
pub(crate) enum Ending {
    /// It is sent on a device, numbered from 1.
    Sent(u32),
    /// It is dropped.
    Dropped(Cause),
}

/// How a packet leaves an element.
#[derive(Clone, Copy, PartialEq, Eq)]
pub(crate) enum Exit {
    /// By the output of that number.
    Leaves(u32),
    /// Its run ends here.
    Stops(Ending),
}

/// Does the step of an element on a packet. None where the element does not take the packet's layer, or
/// is told a code point above 63.
#[tactic(auto, unfolding(crate::specs::Step::stateless_step))]
pub(crate) fn pass(kind: &Kind, packet: &mut Packet) -> Option<Exit>
    requires sound { IsSound packet.old }
    ensures step { option_map (λ exit. (packet.new, exit)) result ≡ stateless_step kind.now packet.old }
    ensures sound { IsSound packet.new }
{
    if takes(kind, packet.layer()) {
        act(kind, packet)
    } else {
        None
    }
}

/// What the element's class does with a packet at a layer that it takes.
fn act(kind: &Kind, packet: &mut Packet) -> Option<Exit>
    requires taken { takes kind.now packet.old.layer ≡ true }
    requires sound { IsSound packet.old }
    ensures step { option_map (λ exit. (packet.new, exit)) result ≡ class_step kind.now packet.old }
    ensures sound { IsSound packet.new }
{
    match kind {
        Kind::FromDevice(device) => enter(packet, *device),
        Kind::Null => null(packet),
        Kind::Counter => count(packet),
        Kind::Queue => queue(packet),
        Kind::ToDevice(device) => send(packet, *device),
        Kind::Discard => discard(packet),
        Kind::Paint(paint) => paint_with(packet, *paint),
        Kind::PaintSwitch => switch(packet),
        Kind::Classifier(patterns) => classify(packet, patterns),
        Kind::EtherMirror => mirror_ethernet(packet),
        Kind::Strip => strip(packet),
        Kind::CheckIPHeader => check_header(packet),
        Kind::EtherEncap(ether_type, src, dst) => encapsulate(packet, *ether_type, *src, *dst),
        Kind::DecIPTTL => decrement(packet),
        Kind::SetIPDSCP(point) => set_point(packet, *point),
        Kind::StoreIPAddress(address, end) => store(packet, *address, *end),
        Kind::GetIPAddress => get_address(packet),
        Kind::IPMirror => mirror_ip(packet),
        Kind::IPFilter(rules) => filter(packet, rules),
        Kind::IPClassifier(patterns) => classify_ip(packet, patterns),
        Kind::Route(hops) => follow(packet, hops),
        Kind::IPRewriter(specs) => rewrite(packet, specs),
        Kind::RoundRobinIPMapper(templates) => map(packet, templates),
    }
}

/// A packet at layer Ip was checked.
#[tactic(auto, using(crate::proofs::Sound::ip_layer))]
pub(crate) fn was_checked(_packet: &Packet)
    requires taken { is_ip _packet.now.layer ≡ true }
    requires sound { IsSound _packet.now }
    ensures layer { _packet.now.layer ≡ layer.Ip }
    ensures checked { IsChecked _packet.now }
{}

/// Sets a field and mends the checksums. How many writes a run makes is no part of its result, so their count
/// is let go.
pub(crate) fn set(packet: &mut Packet, field: Field, value: u64)
    requires { CanWrite packet.old field value }
    ensures set { packet.new ≡ with_field packet.old field value }
    ensures still_checked { IsChecked packet.old → IsChecked packet.new }
    ensures same_ports { has_ports (datagram_of packet.new) ≡ has_ports (datagram_of packet.old) }
{
    packet.write_field(field, value, &mut Writes::new());
}

#[tactic(auto, unfolding(crate::specs::Step::class_step))]
fn enter(_packet: &Packet, _device: u32) -> Option<Exit>
    ensures { option_map (λ exit. (_packet.now, exit)) result ≡ class_step (kind.FromDevice _device) _packet.now }
{
    Some(Exit::Leaves(0))
}

#[tactic(auto, unfolding(crate::specs::Step::class_step))]
fn null(_packet: &Packet) -> Option<Exit>
    ensures { option_map (λ exit. (_packet.now, exit)) result ≡ class_step kind.Null _packet.now }
{
    Some(Exit::Leaves(0))
}

#[tactic(auto, unfolding(crate::specs::Step::class_step))]
fn count(_packet: &Packet) -> Option<Exit>
    ensures { option_map (λ exit. (_packet.now, exit)) result ≡ class_step kind.Counter _packet.now }
{
    Some(Exit::Leaves(0))
}

#[tactic(auto, unfolding(crate::specs::Step::class_step))]
fn queue(_packet: &Packet) -> Option<Exit>
    ensures { option_map (λ exit. (_packet.now, exit)) result ≡ class_step kind.Queue _packet.now }
{
    Some(Exit::Leaves(0))
}

#[tactic(auto, unfolding(crate::specs::Step::class_step))]
fn discard(_packet: &Packet) -> Option<Exit>
    ensures { option_map (λ exit. (_packet.now, exit)) result ≡ class_step kind.Discard _packet.now }
{
    Some(Exit::Stops(Ending::Dropped(Cause::Discarded)))
}

/// Out by the output with the number of the paint, 0 to 255, whether or not it is wired.
#[tactic(auto, unfolding(crate::specs::Step::class_step))]
fn switch(packet: &Packet) -> Option<Exit>
    ensures { option_map (λ exit. (packet.now, exit)) result ≡ class_step kind.PaintSwitch packet.now }
{
    Some(Exit::Leaves(packet.field(Field::Paint) as u32))
}

/// Out on a device, at the layers with an Ethernet header.
#[tactic(auto, unfolding(crate::specs::Step::class_step))]
fn send(packet: &Packet, device: u32) -> Option<Exit>
    ensures { option_map (λ exit. (packet.now, exit)) result ≡ class_step (kind.ToDevice device) packet.now }
{
    Some(Exit::Stops(Ending::Sent(device)))
}

/// Out by the output of the first pattern that holds.
#[tactic(auto, unfolding(crate::specs::Step::class_step))]
fn classify(packet: &Packet, patterns: &Patterns) -> Option<Exit>
    ensures { option_map (λ exit. (packet.now, exit)) result ≡ class_step (kind.Classifier patterns.now) packet.now }
{
    match first_pattern(patterns, packet) {
        Some(number) => Some(Exit::Leaves(number)),
        None => Some(Exit::Stops(Ending::Dropped(Cause::Classified))),
    }
}

#[tactic(auto, using(crate::proofs::Sound::kept), unfolding(crate::specs::Step::class_step))]
fn paint_with(packet: &mut Packet, paint: u8) -> Option<Exit>
    requires sound { IsSound packet.old }
    ensures step { option_map (λ exit. (packet.new, exit)) result ≡ class_step (kind.Paint paint) packet.old }
    ensures sound { IsSound packet.new }
{
    set(packet, Field::Paint, u64::from(paint));
    Some(Exit::Leaves(0))
}

/// Swaps the Ethernet addresses; a frame below 14 bytes is dropped.
#[tactic(auto, using(crate::proofs::Sound::kept), unfolding(crate::specs::Step::class_step))]
fn mirror_ethernet(packet: &mut Packet) -> Option<Exit>
    requires sound { IsSound packet.old }
    ensures step { option_map (λ exit. (packet.new, exit)) result ≡ class_step kind.EtherMirror packet.old }
    ensures sound { IsSound packet.new }
{
    if !is_whole(packet) {
        return Some(Exit::Stops(Ending::Dropped(Cause::Short)));
    }
    let source = packet.field(Field::EthSrc);
    let destination = packet.field(Field::EthDst);
    set(packet, Field::EthDst, source);
    set(packet, Field::EthSrc, destination);
    Some(Exit::Leaves(0))
}

/// Takes 14 bytes away; a frame below 14 bytes is dropped.
#[tactic(auto, unfolding(crate::specs::Step::class_step))]
fn strip(packet: &mut Packet) -> Option<Exit>
    requires taken { takes kind.Strip packet.old.layer ≡ true }
    requires sound { IsSound packet.old }
    ensures step { option_map (λ exit. (packet.new, exit)) result ≡ class_step kind.Strip packet.old }
    ensures sound { IsSound packet.new }
{
    if packet.strip() {
        return Some(Exit::Leaves(0));
    }
    Some(Exit::Stops(Ending::Dropped(Cause::Short)))
}

/// Out by output 0 as layer Ip where the packet is valid IPv4, else by output 1 as layer Bare.
#[tactic(auto, using(crate::proofs::Sound::from_checked), unfolding(crate::specs::Step::class_step))]
fn check_header(packet: &mut Packet) -> Option<Exit>
    requires taken { takes kind.CheckIPHeader packet.old.layer ≡ true }
    requires sound { IsSound packet.old }
    ensures step { option_map (λ exit. (packet.new, exit)) result ≡ class_step kind.CheckIPHeader packet.old }
    ensures sound { IsSound packet.new }
{
    if packet.check_ip() {
        Some(Exit::Leaves(0))
    } else {
        Some(Exit::Leaves(1))
    }
}

#[tactic(auto, using(crate::proofs::Sound::same_data), unfolding(crate::specs::Step::class_step))]
fn encapsulate(packet: &mut Packet, ether_type: u16, src: u64, dst: u64) -> Option<Exit>
    requires taken { takes (kind.EtherEncap ether_type src dst) packet.old.layer ≡ true }
    requires sound { IsSound packet.old }
    ensures step { option_map (λ exit. (packet.new, exit)) result ≡ class_step (kind.EtherEncap ether_type src dst) packet.old }
    ensures sound { IsSound packet.new }
{
    was_checked(packet);
    packet.encap(ether_type, src, dst);
    Some(Exit::Leaves(0))
}

/// One hop on: out by output 0, or unchanged by output 1 where the time to live is 0 or 1.
#[tactic(auto, using(crate::proofs::Sound::from_checked), unfolding(crate::specs::Step::class_step))]
fn decrement(packet: &mut Packet) -> Option<Exit>
    requires taken { takes kind.DecIPTTL packet.old.layer ≡ true }
    requires sound { IsSound packet.old }
    ensures step { option_map (λ exit. (packet.new, exit)) result ≡ class_step kind.DecIPTTL packet.old }
    ensures sound { IsSound packet.new }
{
    was_checked(packet);
    let left = packet.field(Field::Ttl);
    if left <= 1 {
        return Some(Exit::Leaves(1));
    }
    set(packet, Field::Ttl, left - 1);
    Some(Exit::Leaves(0))
}

#[tactic(auto, using(crate::proofs::Sound::from_checked), unfolding(crate::specs::Step::class_step))]
fn set_point(packet: &mut Packet, point: u8) -> Option<Exit>
    requires taken { takes (kind.SetIPDSCP point) packet.old.layer ≡ true }
    requires sound { IsSound packet.old }
    ensures step { option_map (λ exit. (packet.new, exit)) result ≡ class_step (kind.SetIPDSCP point) packet.old }
    ensures sound { IsSound packet.new }
{
    if point > 63 {
        return None;
    }
    was_checked(packet);
    set(packet, Field::Dscp, u64::from(point));
    Some(Exit::Leaves(0))
}

#[tactic(auto, using(crate::proofs::Sound::from_checked), unfolding(crate::specs::Step::class_step))]
fn store(packet: &mut Packet, address: u32, end: End) -> Option<Exit>
    requires taken { takes (kind.StoreIPAddress address end) packet.old.layer ≡ true }
    requires sound { IsSound packet.old }
    ensures step { option_map (λ exit. (packet.new, exit)) result ≡ class_step (kind.StoreIPAddress address end) packet.old }
    ensures sound { IsSound packet.new }
{
    was_checked(packet);
    match end {
        End::Src => set(packet, Field::Src, u64::from(address)),
        End::Dst => set(packet, Field::Dst, u64::from(address)),
    }
    Some(Exit::Leaves(0))
}

#[tactic(auto, using(crate::proofs::Sound::from_checked), unfolding(crate::specs::Step::class_step))]
fn get_address(packet: &mut Packet) -> Option<Exit>
    requires taken { takes kind.GetIPAddress packet.old.layer ≡ true }
    requires sound { IsSound packet.old }
    ensures step { option_map (λ exit. (packet.new, exit)) result ≡ class_step kind.GetIPAddress packet.old }
    ensures sound { IsSound packet.new }
{
    was_checked(packet);
    let destination = packet.field(Field::Dst);
    set(packet, Field::Annotation, destination);
    Some(Exit::Leaves(0))
}

/// Swaps the addresses, and the ports where they are visible (not in a later fragment).
#[tactic(auto, using(crate::proofs::Sound::from_checked, crate::proofs::TestsAgree::flow_ports), unfolding(crate::specs::Step::class_step))]
fn mirror_ip(packet: &mut Packet) -> Option<Exit>
    requires taken { takes kind.IPMirror packet.old.layer ≡ true }
    requires sound { IsSound packet.old }
    ensures step { option_map (λ exit. (packet.new, exit)) result ≡ class_step kind.IPMirror packet.old }
    ensures sound { IsSound packet.new }
{
    was_checked(packet);
    let flow = packet.flow();
    let source = packet.field(Field::Src);
    let destination = packet.field(Field::Dst);
    set(packet, Field::Src, destination);
    set(packet, Field::Dst, source);
    if let Some(flow) = flow {
        set(packet, Field::Sport, u64::from(flow.dp));
        set(packet, Field::Dport, u64::from(flow.sp));
    }
    Some(Exit::Leaves(0))
}

/// Does what the first rule says whose pattern holds; without one the packet is dropped.
#[tactic(auto, unfolding(crate::specs::Step::class_step))]
fn filter(packet: &Packet, rules: &Rules) -> Option<Exit>
    ensures { option_map (λ exit. (packet.now, exit)) result ≡ class_step (kind.IPFilter rules.now) packet.now }
{
    match action(rules.as_slice(), &packet.header()) {
        FilterAction::Out(out) => Some(Exit::Leaves(out)),
        FilterAction::Deny => Some(Exit::Stops(Ending::Dropped(Cause::Filtered))),
    }
}

/// Out by the output of the first pattern that holds; without one the packet is dropped.
#[tactic(auto, unfolding(crate::specs::Step::class_step))]
fn classify_ip(packet: &Packet, patterns: &IPPatterns) -> Option<Exit>
    ensures { option_map (λ exit. (packet.now, exit)) result ≡ class_step (kind.IPClassifier patterns.now) packet.now }
{
    match first_ip_pattern(patterns.as_slice(), &packet.header()) {
        Some(number) => Some(Exit::Leaves(number as u32)),
        None => Some(Exit::Stops(Ending::Dropped(Cause::Filtered))),
    }
}

/// Out by the entry of the longest prefix that has the annotation, with its gateway as the new annotation.
#[tactic(auto, using(crate::proofs::Sound::from_checked), unfolding(crate::specs::Step::class_step))]
fn follow(packet: &mut Packet, hops: &Hops) -> Option<Exit>
    requires taken { takes (kind.Route hops.now) packet.old.layer ≡ true }
    requires sound { IsSound packet.old }
    ensures step { option_map (λ exit. (packet.new, exit)) result ≡ class_step (kind.Route hops.now) packet.old }
    ensures sound { IsSound packet.new }
{
    was_checked(packet);
    let Some(hop) = route(hops.as_slice(), packet.field(Field::Annotation)) else {
        return Some(Exit::Stops(Ending::Dropped(Cause::NoRoute)));
    };
    if let Some(gateway) = hop.gateway {
        set(packet, Field::Annotation, u64::from(gateway));
    }
    Some(Exit::Leaves(hop.out))
}

/// A rewriter has no step without mappings.
#[tactic(auto, unfolding(crate::specs::Step::class_step))]
fn rewrite(_packet: &Packet, _specs: &Specs) -> Option<Exit>
    ensures { option_map (λ exit. (_packet.now, exit)) result ≡ class_step (kind.IPRewriter _specs.now) _packet.now }
{
    None
}

/// No packet comes to a mapper.
#[tactic(auto, unfolding(crate::specs::Step::class_step))]
fn map(_packet: &Packet, _templates: &Templates) -> Option<Exit>
    ensures { option_map (λ exit. (_packet.now, exit)) result ≡ class_step (kind.RoundRobinIPMapper _templates.now) _packet.now }
{
    None
}
