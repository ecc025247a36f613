use crate::building::{Part, cut_of_classes};
use mt_boxes::{HeaderBox, Region};
use mt_packet::{Cause, FIELDS, Field, Frame, HEADER_FIELDS, Header, Span};
use mt_terms::Tree;
use std::alloc::{AllocError, Global};

/// The headers on two devices of so many EtherTypes and ARP operations: least and last EtherType, least and last
/// operation.
fn box_of((from, upto, least, last): (u64, u64, u64, u64)) -> HeaderBox {
    let mut spans = [Span { lo: 0, hi: 0 }; HEADER_FIELDS];
    for (at, field) in FIELDS.iter().enumerate() {
        spans[at].hi = field.greatest();
    }
    spans[Field::Device.number()] = Span { lo: 1, hi: 2 };
    spans[Field::EthType.number()] = Span { lo: from, hi: upto };
    spans[Field::ArpOp.number()] = Span {
        lo: least,
        hi: last,
    };
    HeaderBox { spans }
}

/// A class of the boxes that are formed and apart from those before.
fn class_of(alloc: Global, boxes: &[(u64, u64, u64, u64)]) -> Result<(Region, Tree), AllocError> {
    let mut region = Region::new(alloc);
    for numbers in boxes {
        let of = box_of(*numbers);
        if !of.is_formed() {
            continue;
        }
        if region.is_apart_from(&of) {
            region.add(of)?;
        }
    }
    Ok((region, Tree::Drop(Cause::Discarded)))
}

/// The tree of classes, and the values of an IPv4 packet and of an ARP request.
fn shown(alloc: Global, list: &[(Region, Tree)]) -> Result<String, AllocError> {
    let Ok(none) = u32::try_from(list.len()) else {
        return Err(AllocError);
    };
    let cut = cut_of_classes(alloc, 2, none, 0, &Part { classes: list })?;
    let mut bytes = vec![in alloc; 0; 22]?;
    bytes[12] = 8;
    let packet = Frame::new(bytes);
    let mut bytes = vec![in alloc; 0; 22]?;
    bytes[12] = 8;
    bytes[13] = 6;
    bytes[21] = 1;
    let request = Frame::new(bytes);
    let first = cut.value_at(&Header::of(1, &packet));
    let second = cut.value_at(&Header::of(2, &request));
    format!(in alloc; "{cut:?} {first} {second}")
}

/// The classes of a chain that tells IPv4 and ARP requests from other frames.
fn types(alloc: Global) -> Result<String, AllocError> {
    let mut list = Vec::new(alloc);
    list.push(class_of(
        alloc,
        &[
            (0, 2047, 0, 65536),
            (2049, 2053, 0, 65536),
            (2054, 2054, 0, 0),
            (2054, 2054, 2, 65536),
            (2055, 65536, 0, 65536),
        ],
    )?)?;
    list.push(class_of(alloc, &[(2048, 2048, 0, 65536)])?)?;
    list.push(class_of(alloc, &[(2054, 2054, 1, 1)])?)?;
    shown(alloc, &list)
}

/// The tree is the same however the regions are cut into boxes.
#[test]
fn boxes_are_merged_into_one_tree(rt: HostRuntime) {
    let got = types(rt.alloc()).expect(&rt, "memory");
    assert_eq!(rt;
        got.as_str(),
        "Cuts { field: EthType, ends: [2047, 2048, 2053, 2054, 65536], next: [Class(0), Class(1), Class(0), Cuts { field: ArpOp, ends: [0, 1, 65536], next: [Class(0), Class(2), Class(0)] }, Class(0)] } 1 2"
    );
}
