//! A leaf on a frame. Values are from the standards, with sums by hand.

use crate::leaf::apply;
use mt_packet::{Field, Frame, Packet, Stamped, Writes};
use mt_terms::{Rewrite, Term, WriteList};
use std::alloc::{AllocError, Global};

/// UDP (RFC 768) from 10.0.0.5:5000 to 198.51.100.9:53 with a time to live of 2, and 4 bytes of padding.
const ARRIVED: [u8; 50] = [
    2, 0, 0, 0, 0, 2, 2, 0, 0, 0, 0, 1, 8, 0, 0x45, 0, 0, 0x20, 0, 1, 0, 0, 2, 0x11, 0x84, 0x8b,
    10, 0, 0, 5, 198, 51, 100, 9, 0x13, 0x88, 0, 53, 0, 12, 0xf3, 0x10, 0x61, 0x62, 0x63, 0x64, 0,
    0, 0, 0,
];

/// The same with a time to live of 1 and its header checksum, without the padding.
const LEFT: [u8; 46] = [
    2, 0, 0, 0, 0, 2, 2, 0, 0, 0, 0, 1, 8, 0, 0x45, 0, 0, 0x20, 0, 1, 0, 0, 1, 0x11, 0x85, 0x8b,
    10, 0, 0, 5, 198, 51, 100, 9, 0x13, 0x88, 0, 53, 0, 12, 0xf3, 0x10, 0x61, 0x62, 0x63, 0x64,
];

/// One hop more, where the packet is valid: how many writes that takes.
fn hop_on(alloc: Global, packet: &mut Packet) -> Result<Option<u64>, AllocError> {
    let header = packet.header();
    let mut list = WriteList::new(alloc);
    list.set(Field::Ttl, Term::less(alloc, Term::Entry(Field::Ttl), 1)?)?;
    let rewrite = Rewrite {
        trim: true,
        untag: false,
        tag: None,
        writes: list,
    };
    if !packet.check_ip() {
        return Ok(None);
    }
    let mut writes = Writes::new();
    apply(&rewrite, &header, &[], packet, &mut writes);
    Ok(Some(writes.count()))
}

#[test]
fn a_leaf_checks_and_writes(rt: HostRuntime) -> Result<(), AllocError> {
    let alloc = rt.alloc();
    let mut packet = Packet::new(Stamped {
        stamp: 7,
        device: 1,
        number: 0,
        frame: Frame::new(Vec::from_slice(alloc, &ARRIVED)?),
    });
    assert_eq!(rt; hop_on(alloc, &mut packet)?, Some(1));
    assert_eq!(rt; packet.into_stamped().frame.bytes(), LEFT.as_slice());
    Ok(())
}
