//! Classes of trees that are built by hand.
ghost use Rattle.std.specs.Prelude.{◌≡◌, ◌<◌, ℕ, Some, IfOk, length, slice_get};
ghost use Rattle.mt_packet.specs.declared.field.Field.{Field};
ghost use Rattle.mt_cuts.specs.Tree.{value_of};
ghost use Rattle.mt_cuts.specs.View.{tree_of};
ghost use Rattle.mt_cuts.specs.Canonical.{IsCanonical, InDomain};
ghost use Rattle.mt_terms.specs.declared.tree.Tree.{Tree};
ghost use Rattle.mt_terms.specs.Trees.{tree_form};

use crate::collecting::classes_of;
use crate::fault::SynthFault;
use mt_cuts::{Cut, split};
use mt_packet::{Cause, Field, Span};
use mt_terms::{Classes, Tree};
use std::alloc::{AllocError, Global};

/// Three trees.
fn three_trees(alloc: Global) -> Result<Vec<Tree>, AllocError>
    ensures three { IfOk result (λ trees. length trees.items ≡ 3) }
    ensures apart { IfOk result (λ trees. (i j : ℕ) (t u : Tree) → slice_get trees.items i ≡ Some t → slice_get trees.items j ≡ Some u
        → tree_form t ≡ tree_form u → i ≡ j) }
{
    Ok(vec![in alloc;
        Tree::Drop(Cause::Discarded),
        Tree::Drop(Cause::NoPaint),
        Tree::Drop(Cause::Classified),
    ]?)
}

/// One value in a span of the time to live, and elsewhere one of two by the protocol.
fn cut_of(
    alloc: Global,
    ttl: (u64, u64),
    proto: (u64, u64),
    values: (u32, u32, u32),
) -> Result<Cut, AllocError>
    requires first { values.0 < 3 }
    requires second { values.1 < 3 }
    requires third { values.2 < 3 }
    ensures canonical { IfOk result (λ cut. IsCanonical 4 (tree_of cut)) }
    ensures named { IfOk result (λ cut. (header : Field → ℕ) → InDomain 4 header → value_of (tree_of cut) header < 3) }
{
    let (first, second, third) = values;
    let within = Cut::leaf(first);
    let outside = split(
        alloc,
        4,
        Field::Proto,
        Span {
            lo: proto.0,
            hi: proto.1,
        },
        &Cut::leaf(second),
        &Cut::leaf(third),
    )?;
    let cut = split(
        alloc,
        4,
        Field::Ttl,
        Span {
            lo: ttl.0,
            hi: ttl.1,
        },
        &within,
        &outside,
    )?;
    Ok(cut)
}

/// The protocols and times to live of the boxes of each class, and its tree.
fn shown(alloc: Global, classes: &Classes) -> Result<String, AllocError> {
    let mut text = String::new(alloc);
    for (region, tree) in classes.list() {
        for of in region.boxes() {
            let proto = of.spans[Field::Proto.number()];
            let ttl = of.spans[Field::Ttl.number()];
            let piece = format!(in alloc; "[{}-{} {}-{}]", proto.lo, proto.hi, ttl.lo, ttl.hi)?;
            text.push_str(&piece)?;
        }
        let tree = format!(in alloc; "{tree:?} ")?;
        text.push_str(&tree)?;
    }
    Ok(text)
}

/// The classes of such a tree.
fn classes_by(
    alloc: Global,
    ttl: (u64, u64),
    proto: (u64, u64),
    values: (u32, u32, u32),
) -> Result<String, SynthFault>
    requires first { values.0 < 3 }
    requires second { values.1 < 3 }
    requires third { values.2 < 3 }
{
    let trees = three_trees(alloc)?;
    let cut = cut_of(alloc, ttl, proto, values)?;
    let classes = classes_of(alloc, 4, &cut, &trees)?;
    Ok(shown(alloc, &classes)?)
}

/// Three classes by their least headers, two of which have several boxes; two; and one.
#[test]
fn classes_are_numbered_by_their_least_headers(rt: HostRuntime) {
    let alloc = rt.alloc();
    let cases = [
        (
            (0, 9),
            (6, 6),
            (2, 0, 1),
            "[0-5 0-9][6-6 0-9][7-255 0-9]Drop(Classified) [0-5 10-255][7-255 10-255]Drop(NoPaint) [6-6 10-255]Drop(Discarded) ",
        ),
        (
            (64, 255),
            (0, 5),
            (0, 2, 1),
            "[0-5 0-63]Drop(Classified) [0-5 64-255][6-255 64-255]Drop(Discarded) [6-255 0-63]Drop(NoPaint) ",
        ),
        (
            (1, 1),
            (17, 17),
            (1, 1, 0),
            "[0-16 0-0][0-16 2-255][18-255 0-0][18-255 2-255]Drop(Discarded) [0-16 1-1][17-17 0-255][18-255 1-1]Drop(NoPaint) ",
        ),
        ((1, 1), (2, 3), (1, 1, 1), "[0-255 0-255]Drop(NoPaint) "),
    ];
    for (ttl, proto, (first, second, third), want) in cases {
        if first < 3 && second < 3 && third < 3 {
            let got = classes_by(alloc, ttl, proto, (first, second, third)).expect(&rt, "classes");
            assert_eq!(rt; got.as_str(), want);
        }
    }
}
