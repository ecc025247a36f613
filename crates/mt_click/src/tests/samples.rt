//! Texts with compound classes, with their whole graphs.
use crate::tests::{described, wired};
use std::test::Fail;

#[test]
fn samples_become_their_graphs(rt: HostRuntime) -> Result<(), Fail> {
    let rows: [(&str, &str, &str); 12] = [
        (
            "elementclass D { input -> output; input [2] -> [1] output; };
Null;
Foo( );",
            "Null()@2
Foo()@3",
            "2",
        ),
        (
            "elementclass C { input -> A -> output };
FromDevice(a);
ToDevice(b)[1] -> x;",
            "FromDevice(a)@2
ToDevice(b)@3
x()@3",
            "3 1.1>2.0@3",
        ),
        (
            "elementclass D { input -> output; input [2] -> [1] output; };A -> D;C -> [1] E;",
            "A()@1
C()@1
E()@1",
            "3 1.0>2.1@1",
        ),
        (
            "elementclass C { input -> A -> output }; w :: B(0x0800, q  r) -> [1] z :: A -> [1] Foo(a(b, c), d); FromDevice(a);",
            "B(0x0800|q r)w@1
A()z@1
Foo(a(b, c)|d)@1
FromDevice(a)@1",
            "4 0.0>1.1@1 1.0>2.1@1",
        ),
        (
            "elementclass B { $x, $y | input -> Paint($x) -> [1] output; input [1] -> EtherEncap($y, $x) -> output };
y :: Null;",
            "Null()y@2",
            "1",
        ),
        (
            "elementclass B { $x, $y | input -> Paint($x) -> [1] output; input [1] -> EtherEncap($y, $x) -> output };

A -> A; output;",
            "A()@3
A()@3
output()@3",
            "3 0.0>1.0@3",
        ),
        (
            "elementclass D { input -> output; input [2] -> [1] output; };
Foo(a(b, c), d);
B(1, 2);
_a@1 :: Null -> Queue(5) -> Null;",
            "Foo(a(b, c)|d)@2
B(1|2)@3
Null()_a@1@4
Queue(5)@4
Null()@4",
            "5 2.0>3.0@4 3.0>4.0@4",
        ),
        (
            "elementclass E { a, b :: Null; input -> a -> b -> output; a2 :: A; input[1] -> a2 -> Discard };B(1, 2) -> Foo(a(b, c), d);",
            "B(1|2)@1
Foo(a(b, c)|d)@1",
            "2 0.0>1.0@1",
        ),
        ("el", "el()@1", "1"),
        ("elementcl", "elementcl()@1", "1"),
        (
            "C->_a@1 :: Null",
            "C()@1
Null()_a@1@1",
            "2 0.0>1.0@1",
        ),
        (
            "D -> C;
Null -> D -> output;",
            "D()@1
C()@1
Null()@2
D()@2
output()@2",
            "5 0.0>1.0@1 2.0>3.0@2 3.0>4.0@2",
        ),
    ];
    for row in rows {
        let elements = described(rt.alloc(), row.0.as_bytes(), b'\n')?;
        assert_eq!(rt; elements.as_slice(), row.1.as_bytes(), "{}", row.0);
        let wires = wired(rt.alloc(), row.0.as_bytes())?;
        assert_eq!(rt; wires.as_slice(), row.2.as_bytes(), "{}", row.0);
    }
    Ok(())
}
