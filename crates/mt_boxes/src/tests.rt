use crate::{
    HeaderBox, Region, VisibleBox, VisibleRegion, holds, least_header, meet, minus, project, refine,
};
use mt_packet::{FIELDS, Field, Frame, HEADER_FIELDS, Header, Span, VISIBLE_FIELDS};
use std::alloc::{AllocError, Global};

/// The headers of so many protocols and times to live: least and last protocol, least and last time to live.
fn box_of((from, upto, least, last): (u64, u64, u64, u64)) -> HeaderBox {
    let mut spans = [Span { lo: 0, hi: 0 }; HEADER_FIELDS];
    for (at, field) in FIELDS.iter().enumerate() {
        spans[at].hi = field.greatest();
    }
    spans[Field::Proto.number()] = Span { lo: from, hi: upto };
    spans[Field::Ttl.number()] = Span {
        lo: least,
        hi: last,
    };
    HeaderBox { spans }
}

/// The region of the boxes that are formed and apart from those before.
fn region_of(alloc: Global, boxes: &[(u64, u64, u64, u64)]) -> Result<Region, AllocError> {
    let mut region = Region::new(alloc);
    for numbers in boxes {
        let of = box_of(*numbers);
        if !of.is_formed() {
            continue;
        }
        if region.is_apart_from(&of) {
            region.add(of)?;
        }
    }
    Ok(region)
}

/// The protocols and times to live of boxes.
fn shown(alloc: Global, region: &Region) -> Result<String, AllocError> {
    let mut text = String::new(alloc);
    for of in region.boxes() {
        let proto = of.spans[Field::Proto.number()];
        let ttl = of.spans[Field::Ttl.number()];
        let piece = format!(in alloc; "[{}-{} {}-{}]", proto.lo, proto.hi, ttl.lo, ttl.hi)?;
        text.push_str(&piece)?;
    }
    Ok(text)
}

/// What two boxes have in common, and what the second leaves of the first.
fn compared(
    alloc: Global,
    first: (u64, u64, u64, u64),
    second: (u64, u64, u64, u64),
) -> Result<String, AllocError> {
    let mut both = Region::new(alloc);
    if let Some(of) = meet(&box_of(first), &box_of(second)) {
        if both.is_apart_from(&of) {
            both.add(of)?;
        }
    }
    let left = minus(
        alloc,
        &region_of(alloc, &[first])?,
        &region_of(alloc, &[second])?,
    )?;
    let both = shown(alloc, &both)?;
    let left = shown(alloc, &left)?;
    format!(in alloc; "{both} {left}")
}

/// Spans of one value, full spans, both ends, spans that touch, corners, and spans without a value or past
/// the range of their field.
#[test]
fn boxes_meet_and_are_cut(rt: HostRuntime) {
    let cases = [
        ((0, 255, 0, 255), (0, 255, 0, 255), "[0-255 0-255] "),
        (
            (0, 255, 0, 255),
            (10, 20, 30, 40),
            "[10-20 30-40] [0-9 0-255][21-255 0-255][10-20 0-29][10-20 41-255]",
        ),
        ((10, 20, 30, 40), (0, 255, 0, 255), "[10-20 30-40] "),
        ((0, 9, 0, 255), (10, 20, 0, 255), " [0-9 0-255]"),
        (
            (0, 10, 0, 10),
            (10, 20, 10, 20),
            "[10-10 10-10] [0-9 0-10][10-10 0-9]",
        ),
        (
            (0, 255, 0, 255),
            (0, 0, 255, 255),
            "[0-0 255-255] [1-255 0-255][0-0 0-254]",
        ),
        ((255, 255, 0, 0), (255, 255, 0, 0), "[255-255 0-0] "),
        (
            (6, 6, 0, 255),
            (6, 6, 64, 64),
            "[6-6 64-64] [6-6 0-63][6-6 65-255]",
        ),
        ((6, 6, 0, 255), (17, 17, 0, 255), " [6-6 0-255]"),
        ((9, 8, 0, 255), (0, 255, 0, 255), " "),
        ((0, 300, 0, 255), (250, 400, 0, 255), "[250-255 0-255] "),
        ((256, 300, 0, 255), (256, 300, 0, 255), " "),
    ];
    for (first, second, want) in cases {
        let got = compared(rt.alloc(), first, second).expect(&rt, "memory");
        assert_eq!(rt; got.as_str(), want);
    }
}

/// The boxes of regions one after the other.
fn all_shown(alloc: Global, regions: &[Region]) -> Result<String, AllocError> {
    let mut text = String::new(alloc);
    for region in regions {
        text.push_str(&shown(alloc, region)?)?;
        text.push_str(";")?;
    }
    Ok(text)
}

/// The meets of two lists of three regions, of which one has no header.
fn refined(alloc: Global) -> Result<String, AllocError> {
    let mut first = Vec::new(alloc);
    first.push(region_of(alloc, &[(0, 10, 0, 255)])?)?;
    first.push(region_of(alloc, &[])?)?;
    first.push(region_of(alloc, &[(11, 20, 0, 9), (11, 20, 20, 29)])?)?;
    let mut second = Vec::new(alloc);
    second.push(region_of(alloc, &[(5, 15, 0, 255)])?)?;
    second.push(region_of(alloc, &[(16, 30, 5, 25), (0, 4, 0, 255)])?)?;
    second.push(region_of(alloc, &[(40, 50, 0, 255)])?)?;
    all_shown(alloc, &refine(alloc, &first, &second)?)
}

/// The protocols of the visible headers of boxes.
fn projected(alloc: Global, boxes: &[(u64, u64, u64, u64)]) -> Result<String, AllocError> {
    let seen = project(alloc, &region_of(alloc, boxes)?)?;
    let mut text = String::new(alloc);
    for of in seen.boxes() {
        let proto = of.spans[Field::Proto.number()];
        let piece = format!(in alloc; "[{}-{}]", proto.lo, proto.hi)?;
        text.push_str(&piece)?;
    }
    Ok(text)
}

/// The least header of boxes, by its device, protocol and time to live, and whether they have it and the
/// header of an empty frame.
fn least_of(alloc: Global, boxes: &[(u64, u64, u64, u64)]) -> Result<String, AllocError> {
    let region = region_of(alloc, boxes)?;
    let empty = Header::of(1, &Frame::new(Vec::new(alloc)));
    let has_empty = holds(&region, &empty);
    match least_header(&region) {
        None => format!(in alloc; "none {has_empty}"),
        Some(least) => {
            let device = least.get(Field::Device);
            let proto = least.get(Field::Proto);
            let ttl = least.get(Field::Ttl);
            let has = holds(&region, &least);
            format!(in alloc; "{device} {proto} {ttl} {has} {has_empty}")
        }
    }
}

/// A visible region takes a box once.
fn visible_twice(alloc: Global) -> Result<usize, AllocError> {
    let mut region = VisibleRegion::new(alloc);
    for _ in 0..2 {
        let of = VisibleBox {
            spans: [Span { lo: 0, hi: 1 }; VISIBLE_FIELDS],
        };
        if !of.is_formed() {
            continue;
        }
        if region.is_apart_from(&of) {
            region.add(of)?;
        }
    }
    Ok(region.boxes().len())
}

/// Regions of no box, of one and of several.
#[test]
fn regions_are_sets_of_headers(rt: HostRuntime) {
    let alloc = rt.alloc();
    let got = refined(alloc).expect(&rt, "memory");
    assert_eq!(rt;
        got.as_str(),
        "[5-10 0-255];[0-4 0-255];[11-15 0-9][11-15 20-29];[16-20 5-9][16-20 20-25];"
    );
    let cases = [
        (
            (0, 10, 0, 9),
            (5, 20, 10, 20),
            "[0-10][11-20]",
            "0 0 0 true true",
        ),
        (
            (5, 20, 10, 20),
            (0, 10, 0, 9),
            "[5-20][0-4]",
            "0 0 0 true true",
        ),
        ((6, 6, 64, 64), (6, 6, 0, 63), "[6-6]", "0 6 0 true false"),
        ((7, 9, 5, 5), (7, 7, 4, 4), "[7-9]", "0 7 4 true false"),
        ((9, 8, 0, 0), (9, 8, 0, 0), "", "none false"),
    ];
    for (first, second, seen, least) in cases {
        let got = projected(alloc, &[first, second]).expect(&rt, "memory");
        assert_eq!(rt; got.as_str(), seen);
        let got = least_of(alloc, &[first, second]).expect(&rt, "memory");
        assert_eq!(rt; got.as_str(), least);
    }
    assert_eq!(rt; visible_twice(alloc).expect(&rt, "memory"), 1);
}
