//! Mappings opened, met, undone, accepted and taken by lanes, in a small store and in one of 10,000.
use crate::mapping::{Mapping, Meeting, OpenFault};
use crate::store::Store;
use mt_packet::Flow;
use std::alloc::{AllocError, Global};

/// A flow from a port of one host to port 80 of another.
fn flow(port: u16) -> Flow {
    Flow {
        proto: 6,
        sa: 167_772_161,
        sp: port,
        da: 3_232_235_777,
        dp: 80,
    }
}

/// A mapping that gives the flow from a port another source port.
fn mapping(port: u16, given: u16, bucket: u32) -> Mapping {
    let before = flow(port);
    Mapping {
        element: 3,
        input: 0,
        before,
        after: Flow {
            sp: given,
            ..before
        },
        fout: 1,
        rout: 2,
        group: 1,
        bucket,
        port: None,
    }
}

/// Opens a mapping where its forward key does not stand.
fn open(store: &mut Store, mapping: Mapping) -> Option<Result<(), OpenFault>> {
    match store.meet_forward(mapping.element, mapping.input, &mapping.before) {
        None => Some(store.open(mapping)),
        Some(_) => None,
    }
}

/// Accepts one mapping where neither key stands.
fn accept(alloc: Global, store: &mut Store, mapping: Mapping) -> Result<bool, AllocError> {
    let answer = mapping.reply_key();
    if store
        .meet_forward(mapping.element, mapping.input, &mapping.before)
        .is_some()
    {
        return Ok(false);
    }
    if store.meet_reply(answer.element, &answer.flow).is_some() {
        return Ok(false);
    }
    Ok(store.accept(vec![in alloc; mapping]?).is_ok())
}

/// The ports of the flows before.
fn ports(alloc: Global, mappings: &[Mapping]) -> Result<Vec<u16>, AllocError> {
    mappings
        .iter()
        .map(|mapping| mapping.before.sp)
        .collect(alloc)
}

#[test]
fn few_mappings(rt: HostRuntime) -> Result<(), AllocError> {
    let alloc = rt.alloc();
    let mut store = Store::new(alloc);
    assert!(rt; store.undo().is_none());
    for (port, given, bucket) in [(1000, 5000, 4), (1001, 5001, 9), (1002, 5002, 4)] {
        assert!(rt; matches!(open(&mut store, mapping(port, given, bucket)), Some(Ok(()))));
    }
    let met = Meeting {
        after: Flow {
            sp: 5001,
            ..flow(1001)
        },
        output: 1,
    };
    assert_eq!(rt; store.meet_forward(3, 0, &flow(1001)), Some(met));
    assert_eq!(rt; store.meet_forward(3, 1, &flow(1001)), None);
    assert_eq!(rt; store.meet_forward(2, 0, &flow(1001)), None);
    let clash = open(&mut store, mapping(1003, 5001, 9));
    assert!(rt; matches!(clash, Some(Err(OpenFault::Clash(_)))));
    assert!(rt; accept(alloc, &mut store, mapping(1003, 5003, 4))?);
    assert_eq!(rt; store.by_forward().len(), 4);
    assert_eq!(rt; store.by_reply().len(), 4);
    let taken = store.take_lanes(1, 16, 2)?;
    assert_eq!(rt; ports(alloc, &taken)?, vec![in alloc; 1000, 1002]?);
    let taken = store.take_lanes(1, 528, 9)?;
    assert_eq!(rt; ports(alloc, &taken)?, vec![in alloc; 1001, 1003]?);
    assert!(rt; store.undo().is_none());
    assert_eq!(rt; store.meet_forward(3, 0, &flow(1001)), None);
    Ok(())
}

#[test]
fn ten_thousand_mappings(rt: HostRuntime) -> Result<(), AllocError> {
    let alloc = rt.alloc();
    let mut store = Store::new(alloc);
    for port in 0..10_000u16 {
        let opened = open(
            &mut store,
            mapping(port, 20_000 + port, u32::from(port % 64)),
        );
        assert!(rt; matches!(opened, Some(Ok(()))));
    }
    for port in 0..100u16 {
        let last = store.undo().map(|mapping| mapping.before.sp);
        assert_eq!(rt; last, Some(9_999 - port));
    }
    assert_eq!(rt; store.kept(1, 1), 155);
    assert_eq!(rt; store.kept(1, u64::MAX), 9_900);
    assert_eq!(rt; store.kept(2, u64::MAX), 0);
    let taken = store.take_lanes(1, 6, 5)?;
    assert_eq!(rt; ports(alloc, &taken)?, vec![in alloc; 1, 2, 65, 66, 129]?);
    let taken = store.take_lanes(1, u64::MAX, 4)?;
    assert_eq!(rt; ports(alloc, &taken)?, vec![in alloc; 0, 3, 4, 5]?);
    let taken = store.take_lanes(2, u64::MAX, 100)?;
    assert_eq!(rt; taken.len(), 0);
    let taken = store.take_lanes(1, 1, 1000)?;
    assert_eq!(rt; taken.len(), 154);
    assert_eq!(rt; store.kept(1, 1), 0);
    assert_eq!(rt; store.kept(1, 6), 305);
    assert_eq!(rt; store.by_forward().len(), 9_737);
    Ok(())
}
