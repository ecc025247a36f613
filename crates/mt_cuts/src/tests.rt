ghost use Rattle.mt_cuts.specs.View.{tree_of};
ghost use Rattle.mt_cuts.specs.Canonical.{IsCanonical};

use crate::{Combine, Cut, is_same_function, merge, product, select, split};
use mt_packet::{Field, Frame, Header, Span};
use std::alloc::{AllocError, Global};

/// The greater of two values.
struct Greater;

impl Combine for Greater {
    ghost use Rattle.std.specs.Prelude.{if◌then◌else◌, nat_lt};

    ghost combined = { λ it x y. if nat_lt x y then y else x };

    fn combine(&self, x: u32, y: u32) -> u32 {
        if x < y { y } else { x }
    }
}

/// 1 within a span of a field and 0 elsewhere, where frames arrive on four devices.
fn within(alloc: Global, field: Field, lo: u64, hi: u64) -> Result<String, AllocError> {
    let cut = split(
        alloc,
        4,
        field,
        Span { lo, hi },
        &Cut::leaf(1),
        &Cut::leaf(0),
    )?;
    format!(in alloc; "{cut:?}")
}

/// Spans at both ends of a range, of one value, full, empty and past the range.
#[test]
fn spans_are_cut_where_they_begin_and_end(rt: HostRuntime) {
    let alloc = rt.alloc();
    let cases = [
        (Field::Ttl, 0, 255, "Class(1)"),
        (Field::Ttl, 0, 400, "Class(1)"),
        (Field::Ttl, 256, 400, "Class(0)"),
        (Field::Ttl, 7, 6, "Class(0)"),
        (
            Field::Ttl,
            0,
            9,
            "Cuts { field: Ttl, ends: [9, 255], next: [Class(1), Class(0)] }",
        ),
        (
            Field::Ttl,
            10,
            255,
            "Cuts { field: Ttl, ends: [9, 255], next: [Class(0), Class(1)] }",
        ),
        (
            Field::Ttl,
            10,
            10,
            "Cuts { field: Ttl, ends: [9, 10, 255], next: [Class(0), Class(1), Class(0)] }",
        ),
        (Field::Device, 0, 4, "Class(1)"),
        (
            Field::Device,
            0,
            1,
            "Cuts { field: Device, ends: [1, 4], next: [Class(1), Class(0)] }",
        ),
        (
            Field::Device,
            4,
            9,
            "Cuts { field: Device, ends: [3, 4], next: [Class(0), Class(1)] }",
        ),
    ];
    for (field, lo, hi, want) in cases {
        let got = within(alloc, field, lo, hi).expect(&rt, "memory");
        assert_eq!(rt; got.as_str(), want);
    }
}

/// The classes of a chain that tells IPv4 and ARP requests from other frames: their tree, and the values of
/// two frames.
fn types(alloc: Global) -> Result<String, AllocError> {
    let requests = split(
        alloc,
        2,
        Field::ArpOp,
        Span { lo: 1, hi: 1 },
        &Cut::leaf(2),
        &Cut::leaf(0),
    )?;
    let internet = split(
        alloc,
        2,
        Field::EthType,
        Span { lo: 2048, hi: 2048 },
        &Cut::leaf(1),
        &Cut::leaf(0),
    )?;
    let cut = split(
        alloc,
        2,
        Field::EthType,
        Span { lo: 2054, hi: 2054 },
        &requests,
        &internet,
    )?;
    let empty = Frame::new(vec![in alloc; 0; 14]?);
    let mut bytes = vec![in alloc; 0; 14]?;
    bytes[12] = 8;
    let packet = Frame::new(bytes);
    let none = cut.value_at(&Header::of(1, &empty));
    let other = cut.value_at(&Header::of(2, &packet));
    let short = internet.value_at(&Header::of(1, &packet));
    format!(in alloc; "{cut:?} {none} {other} {short}")
}

/// The spans of a field in the leaves of a tree for one device, with their values.
fn spans_of(alloc: Global, cut: &Cut, field: Field) -> Result<String, AllocError>
    requires { IsCanonical 1 (tree_of cut.now) }
{
    let mut shown = String::new(alloc);
    for leaf in &cut.leaves(alloc, 1)? {
        let span = leaf.spans[field.number()];
        let piece = format!(in alloc; " {}-{}:{}", span.lo, span.hi, leaf.value)?;
        shown.push_str(&piece)?;
    }
    Ok(shown)
}

/// The parts of two trees that touch, and what is left where they are one function.
fn joined(alloc: Global) -> Result<String, AllocError> {
    let low = split(
        alloc,
        1,
        Field::Ttl,
        Span { lo: 0, hi: 9 },
        &Cut::leaf(1),
        &Cut::leaf(0),
    )?;
    let high = split(
        alloc,
        1,
        Field::Ttl,
        Span { lo: 10, hi: 20 },
        &Cut::leaf(1),
        &Cut::leaf(0),
    )?;
    let both = merge(alloc, 1, &low, &high, &Greater)?;
    let whole = split(alloc, 1, Field::Ttl, Span { lo: 5, hi: 6 }, &both, &both)?;
    let again = split(alloc, 1, Field::Src, Span { lo: 5, hi: 6 }, &low, &low)?;
    let one = split(alloc, 1, Field::Device, Span { lo: 1, hi: 1 }, &high, &low)?;
    let same = is_same_function(1, &both, &whole);
    let other = is_same_function(1, &low, &high);
    let spans = spans_of(alloc, &high, Field::Ttl)?;
    format!(in alloc; "{both:?} {whole:?} {again:?} {one:?} {same} {other}{spans}")
}

/// A rule in front of a list of several levels. Parts of the list go on behind the rule's ends, or are cut at
/// later fields alone.
fn ruled(alloc: Global) -> Result<String, AllocError> {
    let low = split(
        alloc,
        1,
        Field::Dst,
        Span { lo: 5, hi: 6 },
        &Cut::leaf(2),
        &Cut::leaf(3),
    )?;
    let list = split(
        alloc,
        1,
        Field::Src,
        Span { lo: 0, hi: 9 },
        &low,
        &Cut::leaf(4),
    )?;
    let port = split(
        alloc,
        1,
        Field::Dport,
        Span { lo: 80, hi: 80 },
        &Cut::leaf(1),
        &Cut::leaf(0),
    )?;
    let rule = split(
        alloc,
        1,
        Field::Src,
        Span { lo: 8, hi: 12 },
        &port,
        &Cut::leaf(0),
    )?;
    let ruled = select(alloc, 1, &rule, &Cut::leaf(7), list)?;
    format!(in alloc; "{ruled:?}")
}

/// Trees written out by hand.
#[test]
fn trees_are_merged_and_neighbours_join(rt: HostRuntime) {
    let alloc = rt.alloc();
    let got = types(alloc).expect(&rt, "memory");
    assert_eq!(rt;
        got.as_str(),
        "Cuts { field: EthType, ends: [2047, 2048, 2053, 2054, 65536], next: [Class(0), Class(1), Class(0), Cuts { field: ArpOp, ends: [0, 1, 65536], next: [Class(0), Class(2), Class(0)] }, Class(0)] } 0 1 1"
    );
    let got = joined(alloc).expect(&rt, "memory");
    assert_eq!(rt;
        got.as_str(),
        "Cuts { field: Ttl, ends: [20, 255], next: [Class(1), Class(0)] } Cuts { field: Ttl, ends: [20, 255], next: [Class(1), Class(0)] } Cuts { field: Ttl, ends: [9, 255], next: [Class(1), Class(0)] } Cuts { field: Ttl, ends: [9, 20, 255], next: [Class(0), Class(1), Class(0)] } true false 0-9:0 10-20:1 21-255:0"
    );
    let got = ruled(alloc).expect(&rt, "memory");
    assert_eq!(rt;
        got.as_str(),
        "Cuts { field: Src, ends: [7, 9, 12, 4294967295], next: [Cuts { field: Dst, ends: [4, 6, 4294967295], next: [Class(3), Class(2), Class(3)] }, Cuts { field: Dst, ends: [4, 6, 4294967295], next: [Cuts { field: Dport, ends: [79, 80, 65536], next: [Class(3), Class(7), Class(3)] }, Cuts { field: Dport, ends: [79, 80, 65536], next: [Class(2), Class(7), Class(2)] }, Cuts { field: Dport, ends: [79, 80, 65536], next: [Class(3), Class(7), Class(3)] }] }, Cuts { field: Dport, ends: [79, 80, 65536], next: [Class(4), Class(7), Class(4)] }, Class(4)] }"
    );
}

/// The product of two trees that overlap, that of a tree with itself, and one of two trees where a third is 1.
fn paired(alloc: Global) -> Result<String, AllocError> {
    let low = split(
        alloc,
        1,
        Field::Ttl,
        Span { lo: 0, hi: 9 },
        &Cut::leaf(3),
        &Cut::leaf(0),
    )?;
    let high = split(
        alloc,
        1,
        Field::Ttl,
        Span { lo: 5, hi: 20 },
        &Cut::leaf(1),
        &Cut::leaf(0),
    )?;
    let (both, pairs) = product(alloc, 1, &low, &high)?;
    let (same, met) = product(alloc, 1, &high, &high)?;
    let one = select(alloc, 1, &high, &low, Cut::leaf(7))?;
    format!(in alloc; "{both:?} {pairs:?} {same:?} {met:?} {one:?}")
}

/// A pair that is met again keeps its number.
#[test]
fn pairs_are_numbered_as_they_are_met(rt: HostRuntime) {
    let alloc = rt.alloc();
    let got = paired(alloc).expect(&rt, "memory");
    assert_eq!(rt;
        got.as_str(),
        "Cuts { field: Ttl, ends: [4, 9, 20, 255], next: [Class(0), Class(1), Class(2), Class(3)] } [(3, 0), (3, 1), (0, 1), (0, 0)] Cuts { field: Ttl, ends: [4, 20, 255], next: [Class(0), Class(1), Class(0)] } [(0, 0), (1, 1)] Cuts { field: Ttl, ends: [4, 9, 20, 255], next: [Class(7), Class(3), Class(0), Class(7)] }"
    );
}
