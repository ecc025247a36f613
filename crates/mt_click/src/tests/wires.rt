//! Texts with the number of their elements and their wires.
use crate::tests::wired;
use std::test::Fail;

#[test]
fn connections_become_wires(rt: HostRuntime) -> Result<(), Fail> {
    let rows: [(&str, &str); 26] = [
        ("", "0"),
        ("A", "1"),
        ("A -> B", "2 0.0>1.0@1"),
        ("A [3] ->\n[2] B -> C", "3 0.3>1.2@1 1.0>2.0@2"),
        // A name before its declaration, and a wire from an element to itself.
        ("a -> b; b, a :: A; a [1] -> [1] a", "2 1.0>0.0@1 1.1>1.1@1"),
        // Two arrows, two wires; one arrow in a body used twice, by from.
        ("x :: A -> y :: B; x -> y", "2 0.0>1.0@1 0.0>1.0@1"),
        ("elementclass E { A ->\nB } E; E", "4 0.0>1.0@1 2.0>3.0@1"),
        // Through a class: the wire has the line of the arrow at which it leaves the element.
        (
            "elementclass E { input -> N -> output }\nA\n-> E\n-> B",
            "3 1.0>2.0@1 0.0>1.0@3",
        ),
        // Straight through, and through two.
        (
            "elementclass T { input -> output }\nA -> T -> B",
            "2 0.0>1.0@2",
        ),
        (
            "elementclass T { input -> output } elementclass U { input -> T -> output } A -> U ->\nT -> B",
            "2 0.0>1.0@1",
        ),
        // Ports of a use.
        (
            "elementclass S { input [2] -> [1] output; input -> [3] output } s :: S; A -> [2] s; B -> s; s [1] -> C; s [3] -> D",
            "4 0.0>2.0@1 1.0>3.0@1",
        ),
        // A path that forks and joins is one wire, and a fork without a join is two.
        (
            "elementclass F { input -> [1] output; input -> output } f :: F; b :: B; A -> f -> b; f [1] -> b",
            "2 1.0>0.0@1",
        ),
        (
            "elementclass F { input -> output; input -> [1] output } f :: F; A -> f -> B; f [1] -> [2] C",
            "3 0.0>1.0@1 0.0>2.2@1",
        ),
        // Two arrows out of one output by a fork each.
        (
            "elementclass F { input -> B; input -> C } f :: F; a :: A -> f; a -> f",
            "3 2.0>0.0@1 2.0>1.0@1 2.0>0.0@1 2.0>1.0@1",
        ),
        // Paths without a real end, and paths in a ring.
        ("elementclass T { input -> output } T -> A; B -> T", "2"),
        (
            "elementclass T { input -> output } t :: T; t -> t; A -> t -> B",
            "2 0.0>1.0@1",
        ),
        (
            "elementclass T { input -> output } t, u :: T; t -> u -> t",
            "0",
        ),
        // `input` as an end and `output` as a beginning join nothing.
        ("elementclass E { A -> input; output -> B; C } E", "3"),
        ("input -> output", "2 0.0>1.0@1"),
        // By the text's order of arrows, though the body is walked later.
        (
            "elementclass E { A -> B } X -> Y; E; Z -> X",
            "6 2.0>3.0@1 0.0>1.0@1 4.0>5.0@1",
        ),
        // The arrow decides before the numbers.
        (
            "elementclass E { a :: A; a [1] -> output; a -> output } E -> B; E -> C",
            "4 0.1>1.0@1 2.1>3.0@1 0.0>1.0@1 2.0>3.0@1",
        ),
        // At one arrow by from, out, to and into.
        (
            "elementclass E { a :: A [1] -> output } elementclass G { input -> [2] output; input -> [1] output; input -> output } e :: E; g :: G; y :: Y; z :: Z; e -> g; g [2] -> y; g [1] -> [4] z; g -> [3] z",
            "3 0.1>1.0@1 0.1>2.3@1 0.1>2.4@1",
        ),
        ("A -> B -> C; E ->", "Syntax 1 18"),
        (
            "elementclass E { input -> A } x :: X -> y :: E -> z :: Z",
            "NoPort 1 41",
        ),
        (
            "elementclass E { input -> A } x :: X -> [1] E",
            "NoPort 1 41",
        ),
        ("a :: A; a -> b :: B; b -> a :: C", "Redeclared 1 27"),
    ];
    for row in rows {
        let text = wired(rt.alloc(), row.0.as_bytes())?;
        assert_eq!(rt; text.as_slice(), row.1.as_bytes(), "{}", row.0);
    }
    Ok(())
}
