//! The stateless classes, with the arguments that each takes.
ghost use Rattle.std.specs.Prelude.{◌≡◌, ◌<◌, ◌^◌, length, IfOk};
ghost use Rattle.std.specs.List.{list_all};
ghost use Rattle.mt_kinds.specs.Arguments.{is_keyword};
ghost use Rattle.mt_kinds.specs.Classes.{plain, counter_of, queue_of, paint_of, fixed, encap_of, point_of, store_of, plain_kind, frame_kind, datagram_kind, stateless_kind, is_lookup, kind_of};

use crate::Kind;
use crate::argument::{end, is_keyword, is_number};
use crate::classifier::patterns_of;
use crate::filter::{ip_patterns_of, rules_of};
use crate::lookup::hops_of;
use mt_text::{Text, ethernet_address, ipv4_address, number_up_to};
use std::alloc::{AllocError, Global};

/// The EtherType of ARP, which no header that is put in front may have.
const ARP: u64 = 0x0806;

/// An element that takes no arguments.
#[tactic(auto, unfolding(crate::specs::Classes::plain))]
fn plain(kind: Kind, arguments: &[Text]) -> Option<Kind>
    ensures { result ≡ plain kind arguments.now }
{
    match arguments {
        [] => Some(kind),
        _ => None,
    }
}

/// Whether each argument begins with an upper-case word.
pub(crate) fn are_keywords(arguments: &[Text]) -> bool
    ensures { result ≡ list_all is_keyword arguments.now }
{
    arguments
        .iter()
        .all(|argument| is_keyword(argument.bytes()))
}

/// Any number of arguments that begin with an upper-case word.
#[tactic(auto, unfolding(crate::specs::Classes::counter_of))]
fn counter(arguments: &[Text]) -> Option<Kind>
    ensures { result ≡ counter_of arguments.now }
{
    if are_keywords(arguments) {
        Some(Kind::Counter)
    } else {
        None
    }
}

/// No argument, or a number.
#[tactic(auto, unfolding(crate::specs::Classes::queue_of))]
fn queue(arguments: &[Text]) -> Option<Kind>
    ensures { result ≡ queue_of arguments.now }
{
    match arguments {
        [] => Some(Kind::Queue),
        [capacity] => {
            let _number = number_up_to(4_294_967_295, capacity.bytes())?;
            Some(Kind::Queue)
        }
        _ => None,
    }
}

/// A number up to 255.
#[tactic(auto, unfolding(crate::specs::Classes::paint_of))]
fn paint(arguments: &[Text]) -> Option<Kind>
    ensures { result ≡ paint_of arguments.now }
{
    match arguments {
        [argument] => {
            let paint = number_up_to(255, argument.bytes())?;
            Some(Kind::Paint(paint as u8))
        }
        _ => None,
    }
}

/// This one number.
#[tactic(auto, unfolding(crate::specs::Classes::fixed))]
fn fixed(number: u64, kind: Kind, arguments: &[Text]) -> Option<Kind>
    ensures { result ≡ fixed number kind arguments.now }
{
    match arguments {
        [argument] => {
            if is_number(number, argument.bytes()) {
                Some(kind)
            } else {
                None
            }
        }
        _ => None,
    }
}

/// An EtherType and two Ethernet addresses, the source first.
#[tactic(auto, unfolding(crate::specs::Classes::encap_of))]
fn encap(arguments: &[Text]) -> Option<Kind>
    ensures { result ≡ encap_of arguments.now }
{
    match arguments {
        [first, second, third] => {
            let ether_type = number_up_to(65_535, first.bytes())?;
            let src = ethernet_address(second.bytes())?;
            let dst = ethernet_address(third.bytes())?;
            if ether_type == ARP {
                None
            } else {
                Some(Kind::EtherEncap(ether_type as u16, src, dst))
            }
        }
        _ => None,
    }
}

/// A number up to 63.
#[tactic(auto, unfolding(crate::specs::Classes::point_of))]
fn point(arguments: &[Text]) -> Option<Kind>
    ensures { result ≡ point_of arguments.now }
{
    match arguments {
        [argument] => {
            let point = number_up_to(63, argument.bytes())?;
            Some(Kind::SetIPDSCP(point as u8))
        }
        _ => None,
    }
}

/// An address, and the end at which it is stored.
#[tactic(auto, unfolding(crate::specs::Classes::store_of))]
fn store(arguments: &[Text]) -> Option<Kind>
    ensures { result ≡ store_of arguments.now }
{
    match arguments {
        [first, second] => {
            let address = ipv4_address(first.bytes())?;
            let which = end(second.bytes())?;
            Some(Kind::StoreIPAddress(address as u32, which))
        }
        _ => None,
    }
}

/// The classes that look at no header.
#[tactic(auto, unfolding(crate::specs::Classes::plain_kind))]
fn plain_kind(class: &[u8], arguments: &[Text]) -> Option<Kind>
    ensures { result ≡ plain_kind class.now arguments.now }
{
    if class == b"Null".as_slice() {
        plain(Kind::Null, arguments)
    } else if class == b"Counter".as_slice() {
        counter(arguments)
    } else if class == b"Queue".as_slice() {
        queue(arguments)
    } else if class == b"Paint".as_slice() {
        paint(arguments)
    } else if class == b"PaintSwitch".as_slice() {
        plain(Kind::PaintSwitch, arguments)
    } else {
        None
    }
}

/// The classes that look at the Ethernet header alone, take it away or put it in front, or check what is
/// behind it.
#[tactic(auto, unfolding(crate::specs::Classes::frame_kind))]
fn frame_kind(class: &[u8], arguments: &[Text]) -> Option<Kind>
    ensures { result ≡ frame_kind class.now arguments.now }
{
    if class == b"EtherMirror".as_slice() {
        plain(Kind::EtherMirror, arguments)
    } else if class == b"Strip".as_slice() {
        fixed(14, Kind::Strip, arguments)
    } else if class == b"CheckIPHeader".as_slice() {
        plain(Kind::CheckIPHeader, arguments)
    } else if class == b"EtherEncap".as_slice() {
        encap(arguments)
    } else {
        None
    }
}

/// The classes that read and write the IPv4 header.
#[tactic(auto, unfolding(crate::specs::Classes::datagram_kind))]
fn datagram_kind(class: &[u8], arguments: &[Text]) -> Option<Kind>
    ensures { result ≡ datagram_kind class.now arguments.now }
{
    if class == b"DecIPTTL".as_slice() {
        plain(Kind::DecIPTTL, arguments)
    } else if class == b"SetIPDSCP".as_slice() {
        point(arguments)
    } else if class == b"StoreIPAddress".as_slice() {
        store(arguments)
    } else if class == b"GetIPAddress".as_slice() {
        fixed(16, Kind::GetIPAddress, arguments)
    } else if class == b"IPMirror".as_slice() {
        plain(Kind::IPMirror, arguments)
    } else {
        None
    }
}

/// What a stateless class other than `Classifier` stands for with these arguments. None where the class is
/// another one, or an argument has not its form, is missing or is one too many.
#[tactic(auto, unfolding(crate::specs::Classes::stateless_kind))]
pub fn stateless_kind(class: &[u8], arguments: &[Text]) -> Option<Kind>
    ensures { result ≡ stateless_kind class.now arguments.now }
{
    if let Some(kind) = plain_kind(class, arguments) {
        return Some(kind);
    }
    if let Some(kind) = frame_kind(class, arguments) {
        return Some(kind);
    }
    datagram_kind(class, arguments)
}

/// Whether a class is a route table.
#[tactic(auto, unfolding(crate::specs::Classes::is_lookup))]
fn is_lookup(class: &[u8]) -> bool
    ensures { result ≡ is_lookup class.now }
{
    class == b"LookupIPRoute".as_slice()
        || class == b"StaticIPLookup".as_slice()
        || class == b"LinearIPLookup".as_slice()
        || class == b"RadixIPLookup".as_slice()
}

/// What a stateless class stands for with these arguments. None where the class is another one, or an
/// argument has not its form, is missing or is one too many.
#[tactic(auto, unfolding(crate::specs::Classes::kind_of))]
pub fn kind_of(alloc: Global, class: &[u8], arguments: &[Text]) -> Result<Option<Kind>, AllocError>
    requires { length arguments.now < 2 ^ 32 }
    ensures { IfOk result (λ found. found ≡ kind_of class.now arguments.now) }
{
    if class == b"Classifier".as_slice() {
        Ok(patterns_of(alloc, arguments)?.map(Kind::Classifier))
    } else if class == b"IPFilter".as_slice() {
        Ok(rules_of(alloc, arguments)?.map(Kind::IPFilter))
    } else if class == b"IPClassifier".as_slice() {
        Ok(ip_patterns_of(alloc, arguments)?.map(Kind::IPClassifier))
    } else if is_lookup(class) {
        Ok(hops_of(alloc, arguments)?.map(Kind::Route))
    } else if class == b"Discard".as_slice() {
        Ok(plain(Kind::Discard, arguments))
    } else {
        Ok(stateless_kind(class, arguments))
    }
}
