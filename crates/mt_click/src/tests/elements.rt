//! Texts with the elements that they make, at most 512.
use crate::tests::{described, graph_of};
use std::alloc::{AllocError, Global};
use std::test::Fail;

#[test]
fn texts_become_their_elements(rt: HostRuntime) -> Result<(), Fail> {
    let rows: [(&str, &str); 31] = [
        ("", ""),
        ("; ;; // nothing", ""),
        ("A", "A()@1"),
        ("a :: A -> b :: B", "A()a@1 B()b@1"),
        ("x -> y; y :: B; x :: C", "B()y@1 C()x@1"),
        ("\n\na ::\n A; B\n(1)", "A()a@3 B(1)@4"),
        ("a, b :: A(1); b -> a", "A(1)a@1 A(1)b@1"),
        ("n :: A; n(1)", "A()n@1 n(1)@1"),
        ("input -> output", "input()@1 output()@1"),
        ("A(1/* , */2, // x )\n 3)", "A(12|3)@1"),
        ("A( \t\n )", "A()@1"),
        ("A(,)", "A(|)@1"),
        ("A((1, 2),  x \r\n y )", "A((1, 2)|x y)@1"),
        ("elementclass E { $p | A($p, x$p.y) } E(1)", "A(1|x1.y)0/@1"),
        ("elementclass E { $p, $q | A($p) } E(,)", "A()0/@1"),
        ("elementclass E { $p | A($p) } E((1, 2))", "A((1, 2))0/@1"),
        ("elementclass E { $p, $p | A($p) } E(1, 2)", "A(1)0/@1"),
        (
            "elementclass E { $p | A($p) } elementclass F { $q | E(x $q) } F(7)",
            "A(x 7)0/0/@1",
        ),
        (
            "elementclass I { $x | A($x) }\nelementclass O { $y | I($y);\n B }\nC; O(7)",
            "C()@4 A(7)1/1/@1 B()1/@3",
        ),
        (
            "elementclass E { a :: A } x :: B; E; a :: C",
            "B()x@1 A()1/a@1 C()a@1",
        ),
        (
            "elementclass E { A; B } p, q :: E",
            "A()0/@1 B()0/@1 A()2/@1 B()2/@1",
        ),
        (
            "x -> E; elementclass E { input -> A -> output } x -> E; x :: B",
            "E()@1 A()1/@1 B()x@1",
        ),
        (
            "elementclass A { B } elementclass B { A } A; B",
            "B()0/@1 B()1/1/@1",
        ),
        ("elementclass E { input; output; } E; E -> E", "NoPort 1 38"),
        (
            "elementclass E { input -> output } E -> E; A -> E -> A",
            "A()@1 A()@1",
        ),
        ("elementclass A { ; } elementclass B { A } B", ""),
        ("elementclass E { A($q) } B", "B()@1"),
        (
            "elementclass E { input -> [1] output; input [2] -> A } B -> [2] e :: E [1] -> B; e [1] -> B",
            "B()@1 A()1/@1 B()@1 B()@1",
        ),
        (
            "elementclass E { A } a, b :: E; c :: E",
            "A()0/@1 A()1/@1 A()2/@1",
        ),
        (
            "elementclass E{B}elementclass F{E}F;elementclass G{F;B}G",
            "B()0/0/@1 B()1/1/1/@1 B()1/@1",
        ),
        ("a :: A($1, $) // \u{e9}\n", "A($1|$)a@1"),
    ];
    for row in rows {
        let text = described(rt.alloc(), row.0.as_bytes(), b' ')?;
        assert_eq!(rt; text.as_slice(), row.1.as_bytes(), "{}", row.0);
    }
    Ok(())
}

// A front, a piece so many times, and a back.
fn repeated(
    alloc: Global,
    front: &str,
    piece: &str,
    times: usize,
    back: &str,
) -> Result<Vec<u8>, AllocError> {
    let mut text = Vec::from_slice(alloc, front.as_bytes())?;
    for _ in 0..times {
        text.extend_from_slice(piece.as_bytes())?;
    }
    text.extend_from_slice(back.as_bytes())?;
    Ok(text)
}

#[test]
fn there_are_at_most_512_elements(rt: HostRuntime) -> Result<(), Fail> {
    let rows: [(&str, &str, usize, &str, &str); 8] = [
        ("", "A;", 513, "", "TooManyElements 1 1025"),
        ("", "A;", 512, "x :: B", "TooManyElements 1 1030"),
        (
            "elementclass E { A }\n",
            "E;",
            513,
            "",
            "TooManyElements 1 18",
        ),
        (
            "elementclass E { A; B }\n",
            "E;",
            257,
            "",
            "TooManyElements 1 18",
        ),
        ("a", ", a", 512, " :: A", "Redeclared 1 4"),
        ("", "A;", 512, "B($x)", "TooManyElements 1 1025"),
        // The names before one `::` have room together.
        ("", "A;", 511, "a, b :: N($x)", "TooManyElements 1 1031"),
        ("", "A;", 510, "a, b :: N($x)", "UnknownName 1 1031"),
    ];
    for row in rows {
        let text = repeated(rt.alloc(), row.0, row.1, row.2, row.3)?;
        let text = described(rt.alloc(), &text, b' ')?;
        assert_eq!(rt; text.as_slice(), row.4.as_bytes(), "{}", row.4);
    }
    let full = repeated(rt.alloc(), "elementclass E { A; B }\n", "E;", 256, "")?;
    let graph = graph_of(rt.alloc(), &full).ok().expect(&rt, "512 elements");
    assert_eq!(rt; graph.elements.len(), 512);
    assert_eq!(rt; graph.elements[511].name.bytes(), b"510/".as_slice());
    Ok(())
}
