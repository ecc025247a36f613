//! Texts with their first faults: those that the walk meets, and samples of every kind.
use crate::tests::{described, wired};
use std::test::Fail;

#[test]
fn faults_of_the_walk_stand_at_their_places(rt: HostRuntime) -> Result<(), Fail> {
    let rows: [(&str, &str); 34] = [
        ("a :: A; a :: B", "Redeclared 1 9"),
        ("a, a :: A", "Redeclared 1 4"),
        (
            "a :: A; elementclass E { a :: A;\n a :: B }",
            "Redeclared 2 2",
        ),
        ("elementclass E { } elementclass E { }", "Redeclared 1 33"),
        ("elementclass E { input :: A }", "Redeclared 1 18"),
        ("elementclass E { x, output :: A }", "Redeclared 1 21"),
        ("a :: A($x); a :: B", "UnknownName 1 8"),
        ("a, b, a :: A($x)", "Redeclared 1 7"),
        ("elementclass E { E }", "Recursive 1 18"),
        ("elementclass E { x :: E }", "Recursive 1 23"),
        ("elementclass E { A -> E(1) }", "Recursive 1 23"),
        ("elementclass E { a, b :: E; a :: B }", "Recursive 1 26"),
        ("elementclass E { $p | } E", "Arity 1 25"),
        ("elementclass E { } E(1)", "Arity 1 20"),
        ("elementclass E { $p | } x :: E(1, 2)", "Arity 1 30"),
        (
            "elementclass E { $p | } elementclass F { E } F",
            "Arity 1 42",
        ),
        (
            "elementclass E { $p, $q | A } elementclass F { $p | E($p) } F(1)",
            "Arity 1 53",
        ),
        ("elementclass E { $p | } A -> E", "Arity 1 30"),
        ("elementclass E { $p | } A -> x :: E", "NoPort 1 30"),
        ("A($x)", "UnknownName 1 3"),
        ("A(1, $y, 2)", "UnknownName 1 6"),
        ("A(/* $x */ $y)", "UnknownName 1 12"),
        ("elementclass E { $p | A($p $q) } E(1)", "UnknownName 1 28"),
        ("elementclass E { $p | A } E($p)", "UnknownName 1 29"),
        (
            "elementclass E { input -> A -> output } B -> [1] E",
            "NoPort 1 46",
        ),
        ("elementclass E { } B -> E", "NoPort 1 25"),
        ("elementclass E { input -> A } E -> B", "NoPort 1 31"),
        ("elementclass E { input -> A } E [2] -> B", "NoPort 1 33"),
        (
            "e -> A; elementclass E { input -> [1] output } e :: E",
            "NoPort 1 1",
        ),
        (
            "a :: A; elementclass E { } B -> [0] b :: E; a :: C",
            "NoPort 1 33",
        ),
        (
            "elementclass E { A -> input; output -> A } B -> E",
            "NoPort 1 49",
        ),
        (
            "elementclass E { } elementclass F { A -> E } F",
            "NoPort 1 42",
        ),
        ("a :: A; a :: B; ?", "Lex 1 17"),
        ("a :: A; a :: B ->", "Syntax 1 18"),
    ];
    for row in rows {
        let text = described(rt.alloc(), row.0.as_bytes(), b' ')?;
        assert_eq!(rt; text.as_slice(), row.1.as_bytes(), "{}", row.0);
    }
    Ok(())
}

#[test]
fn samples_have_their_faults(rt: HostRuntime) -> Result<(), Fail> {
    let rows: [(&str, &str); 28] = [
        (
            "_a@1 :: Null -> z\u{7f} :: A;
",
            "Lex 1 18",
        ),
        ("elementclass F { $p | x :: IPFilter(allow ", "Lex 1 36"),
        ("elementclass F { $p | x :: IPFilter(allow $p", "Lex 1 36"),
        (
            "B(1) -> B(1); C;
H, Foo($v) Queue(5) -> [1] B(1)",
            "Lex 2 7",
        ),
        ("elementclass ", "Syntax 1 14"),
        ("elementclass G {", "Syntax 1 17"),
        ("elementclass -> Foo( ) -> B(1, 2)", "Syntax 1 14"),
        (
            "elementclass -> ToDevice(b() :: Foo(a(b, c), d) -> D;
",
            "Syntax 1 14",
        ),
        (
            "elementclass A { input -> Null -> output; }; z :: A -> D; z :: A; _a@1 :: Null -> Queue(5);",
            "Redeclared 1 59",
        ),
        (
            "elementclass C { input -> A -> output };
y :: Null -> [1] E;
_a@1 :: Null -> [1] D;
y :: Null;",
            "Redeclared 4 1",
        ),
        (
            "elementclass F { $p | x :: IPFilter(allow $p, deny all); input -> x -> output };
_a@1 :: Null;
_a@1 :: Null;",
            "Redeclared 3 1",
        ),
        (
            "elementclass C { input -> A -> output };elementclass A { input -> Null -> output; };y :: Null -> y :: Null;A;",
            "Redeclared 1 98",
        ),
        (
            "C -> Foo(a(b, c), d) ->B(1, 2);elementclass G { input -> G -> output }",
            "Recursive 1 58",
        ),
        (
            "elementclass G { input -> G -> output }
B(1, 2) -> z :: A /* x */ -> x;",
            "Recursive 1 27",
        ),
        (
            "elementclass G { input -> G -> output }
elementclass A { input -> Discard };

D -> x;
",
            "Recursive 1 27",
        ),
        (
            "elementclass G { input -> G -> output };

Null -> z :: A -> B(1) -> Null [0] -> Foo($v);",
            "Recursive 1 27",
        ),
        (
            "elementclass B { $x, $y | input -> Paint($x) -> [1] output; input [1] -> EtherEncap($y, $x) -> output }; z :: A; Null -> [1] B(1);",
            "Arity 1 126",
        ),
        (
            "elementclass B { $x, $y | input -> Paint($x) -> [1] output; input [1] -> EtherEncap($y, $x) -> output };
B(1) -> A;
E -> [1] B(1) -> [1] D;",
            "Arity 2 1",
        ),
        (
            "elementclass B { $x, $y | input -> Paint($x) -> [1] output; input [1] -> EtherEncap($y, $x) -> output };_a@1 :: Null -> C;H[1] -> z :: A;H -> B(1);",
            "Arity 1 143",
        ),
        (
            "elementclass B { $x, $y | input -> Paint($x) -> [1] output; input [1] -> EtherEncap($y, $x) -> output };
input[1] -> B(1)[1] -> Foo(a(b, c), d);
H;
y :: Null -> y :: Null;",
            "Arity 2 13",
        ),
        (
            "Foo($v) -> output->Null -> B(1);
",
            "UnknownName 1 5",
        ),
        (
            "_a@1 :: Null -> Foo($v) -> Foo( ) -> output;
B(1, 2) -> Foo",
            "UnknownName 1 21",
        ),
        (
            "E;
_a@1 :: Null -> z :: A;
FromDevice(a) -> iput -> y :: Null -> E -> Foo($v);",
            "UnknownName 3 48",
        ),
        (
            "H; H;Foo(a(b, c), d) -> F(src host 10.0.0.1); Foo($v) -> Foo(a(b, c), d) -> output;
B(1, 2) -> D;",
            "UnknownName 1 51",
        ),
        (
            "elementclass A { input -> Null -> output; }; z :: A -> [1] z :: A;",
            "NoPort 1 56",
        ),
        (
            "elementclass C { input -> A -> output }; z :: A; D -> F(src host 10.0.0.1); y :: Null -> [1] ToDevice(b) -> [1] C;",
            "NoPort 1 109",
        ),
        (
            "elementclass D { input -> output; input [2] -> [1] output; }; elementclass A { input -> Null -> output; }; E -> [1] Foo( ) -> [1] A;",
            "NoPort 1 127",
        ),
        (
            "elementclass A { input -> Null -> output; };
Null;
z :: A[1] -> w :: B(0x0800, q  r)[1] -> output;
y :: Null -> Null -> w :: B(0x0800, q  r);",
            "NoPort 3 7",
        ),
    ];
    for row in rows {
        let fault = wired(rt.alloc(), row.0.as_bytes())?;
        assert_eq!(rt; fault.as_slice(), row.1.as_bytes(), "{}", row.0);
    }
    Ok(())
}
