//! Values of terms, the places of writes, and copies and the order of a handful of trees.

use crate::term::{Part, Term};
use crate::tree::{OpCode, Rewrite, Tree};
use crate::writes::WriteList;
use mt_packet::{Cause, Field, Flow, Frame, Header, Span};
use std::alloc::{AllocError, Global};

/// The value of each term that needs no more passages than there are.
fn values(
    alloc: Global,
    terms: &[Term],
    header: &Header,
    passed: &[Flow],
) -> Result<Vec<Option<u64>>, AllocError> {
    let mut values = Vec::new(alloc);
    for term in terms {
        let value = if term.passages() <= passed.len() as u64 {
            Some(term.value(header, passed))
        } else {
            None
        };
        values.push(value)?;
    }
    Ok(values)
}

/// The four parts of the flow after a passage.
fn parts(alloc: Global, passage: u32) -> Result<Vec<Term>, AllocError> {
    Ok(vec![in alloc;
        Term::Flow(passage, Part::Sa),
        Term::Flow(passage, Part::Sp),
        Term::Flow(passage, Part::Da),
        Term::Flow(passage, Part::Dp),
    ]?)
}

#[test]
fn values_of_terms(rt: HostRuntime) -> Result<(), AllocError> {
    let alloc = rt.alloc();
    let header = Header::of(7, &Frame::new(Vec::new(alloc)));
    let passed = [
        Flow {
            proto: 6,
            sa: 1,
            sp: 1000,
            da: 2,
            dp: 80,
        },
        Flow {
            proto: 6,
            sa: 3,
            sp: 2000,
            da: 4,
            dp: 443,
        },
    ];
    let device = || Term::Entry(Field::Device);
    let twice = Term::less(alloc, Term::less(alloc, device(), 3)?, 2)?;
    assert_eq!(rt; twice, Term::Less(Box::new(alloc, device())?, 5));
    let beyond = Term::less(alloc, Term::less(alloc, device(), u64::MAX)?, 5)?;
    let terms = vec![in alloc;
        Term::Const(5),
        device(),
        Term::Entry(Field::EthType),
        Term::less(alloc, device(), 3)?,
        Term::less(alloc, device(), 7)?,
        Term::less(alloc, device(), 8)?,
        twice,
        beyond,
        Term::less(alloc, Term::Flow(1, Part::Dp), 43)?,
        Term::Flow(2, Part::Sa),
    ]?;
    let want = [
        Some(5),
        Some(7),
        Some(65_536),
        Some(4),
        Some(0),
        Some(0),
        Some(2),
        Some(0),
        Some(400),
        None,
    ];
    assert_eq!(rt;
        values(alloc, &terms, &header, &passed)?.as_slice(),
        want.as_slice()
    );
    let first = [Some(1), Some(1000), Some(2), Some(80)];
    assert_eq!(rt;
        values(alloc, &parts(alloc, 0)?, &header, &passed)?.as_slice(),
        first.as_slice()
    );
    let second = [Some(3), Some(2000), Some(4), Some(443)];
    assert_eq!(rt;
        values(alloc, &parts(alloc, 1)?, &header, &passed)?.as_slice(),
        second.as_slice()
    );
    Ok(())
}

/// Writes of fields with numbers, in the order in which they are given.
fn written(alloc: Global, writes: &[(Field, u64)]) -> Result<WriteList, AllocError> {
    let mut list = WriteList::new(alloc);
    for (field, value) in writes {
        list.set(*field, Term::Const(*value))?;
    }
    Ok(list)
}

#[test]
fn writes_stand_by_field(rt: HostRuntime) -> Result<(), AllocError> {
    let alloc = rt.alloc();
    let given = [
        (Field::Ttl, 1),
        (Field::EthType, 2),
        (Field::Src, 3),
        (Field::EthType, 4),
        (Field::Device, 5),
        (Field::Dport, 6),
        (Field::Sport, 7),
    ];
    let list = written(alloc, &given)?;
    let want = [
        (Field::Device, 5),
        (Field::EthType, 4),
        (Field::Src, 3),
        (Field::Sport, 7),
        (Field::Dport, 6),
        (Field::Ttl, 1),
    ];
    assert_eq!(rt; list.list().len(), 6);
    for (write, (field, value)) in list.list().iter().zip(want.iter()) {
        assert_eq!(rt; write.field, *field);
        assert_eq!(rt; write.term, Term::Const(*value));
    }
    assert!(rt; list.copy(alloc)? == list);
    assert!(rt; written(alloc, &want)? == list);
    Ok(())
}

/// A tree that sends what it rewrites to device 1.
fn leaf(trim: bool, untag: bool, tag: Option<u16>, writes: WriteList) -> Tree {
    let rewrite = Rewrite {
        trim,
        untag,
        tag,
        writes,
    };
    Tree::Leaf(rewrite, 1)
}

/// Branches that drop for these causes, by output.
fn branches(alloc: Global, causes: &[(u32, Cause)]) -> Result<Vec<(u32, Tree)>, AllocError> {
    let mut made = Vec::new(alloc);
    for (output, cause) in causes {
        made.push((*output, Tree::Drop(*cause)))?;
    }
    Ok(made)
}

/// A test whose trees drop for these causes.
fn test(alloc: Global, inside: Cause, outside: Cause) -> Result<Tree, AllocError> {
    Ok(Tree::Test(
        Term::Flow(0, Part::Sp),
        Span { lo: 0, hi: 1023 },
        Box::new(alloc, Tree::Drop(inside))?,
        Box::new(alloc, Tree::Drop(outside))?,
    ))
}

/// A passage whose branches drop for these causes.
fn passage(alloc: Global, causes: &[(u32, Cause)]) -> Result<Tree, AllocError> {
    let code = OpCode {
        element: 3,
        input: 0,
        sa: Term::Entry(Field::Src),
        sp: Term::Entry(Field::Sport),
        da: Term::Entry(Field::Dst),
        dp: Term::Entry(Field::Dport),
    };
    Ok(Tree::Op(code, branches(alloc, causes)?))
}

/// Whether each tree is less than those behind it and equal to its copy alone.
fn are_ascending(alloc: Global, trees: &[Tree]) -> Result<bool, AllocError> {
    for (place, tree) in trees.iter().enumerate() {
        let copy = tree.copy(alloc)?;
        for (other_place, other) in trees.iter().enumerate() {
            let as_places = copy.cmp(other) == place.cmp(&other_place);
            if !as_places || (copy == *other) != (place == other_place) {
                return Ok(false);
            }
        }
    }
    Ok(true)
}

/// Whether of the leaves among these trees the one in front, and no other, has an empty rewrite.
fn first_alone_is_empty(trees: &[Tree]) -> bool {
    for (place, tree) in trees.iter().enumerate() {
        if let Tree::Leaf(rewrite, _) = tree {
            if rewrite.is_empty() != (place == 0) {
                return false;
            }
        }
    }
    true
}

#[test]
fn trees_are_copied_and_ordered(rt: HostRuntime) -> Result<(), AllocError> {
    let alloc = rt.alloc();
    let none = || WriteList::new(alloc);
    let lower = written(alloc, &[(Field::Ttl, 63)])?;
    let device_2 = Tree::Leaf(
        Rewrite {
            trim: true,
            untag: true,
            tag: Some(1),
            writes: none(),
        },
        2,
    );
    let trees = vec![in alloc;
        leaf(false, false, None, none()),
        leaf(false, false, None, lower),
        leaf(false, false, Some(0), none()),
        leaf(false, false, Some(1), none()),
        leaf(false, true, None, none()),
        leaf(false, true, Some(0), none()),
        leaf(true, false, None, none()),
        leaf(true, false, Some(4094), none()),
        leaf(true, true, Some(1), none()),
        device_2,
        Tree::Drop(Cause::Discarded),
        Tree::Drop(Cause::Ttl),
        test(alloc, Cause::Discarded, Cause::Ttl)?,
        test(alloc, Cause::Ttl, Cause::Discarded)?,
        passage(alloc, &[(0, Cause::Discarded)])?,
        passage(alloc, &[(0, Cause::Discarded), (1, Cause::Ttl)])?,
        passage(alloc, &[(0, Cause::Ttl)])?,
    ]?;
    assert!(rt; are_ascending(alloc, &trees)?);
    assert!(rt; first_alone_is_empty(&trees));
    Ok(())
}
