//! Argument texts with their arguments, and with their parameters replaced.
use crate::{Binding, arguments_of, first_unknown, replaced, shown_of};
use mt_text::Text;
use std::test::Fail;

#[test]
fn argument_texts_are_separated(rt: HostRuntime) -> Result<(), Fail> {
    let rows: [(&str, &str, usize); 8] = [
        ("", "", 0),
        (" \t\n", "", 0),
        (",", "|", 2),
        ("a(b, c), d", "a(b, c)|d", 2),
        (
            " deny  dst\tport 22 ,allow all",
            "deny dst port 22|allow all",
            2,
        ),
        ("1/* , */2", "12", 1),
        ("x // y, )\n z", "x z", 1),
        ("( ( , ) ) , x", "( ( , ) )|x", 2),
    ];
    for row in rows {
        let shown = shown_of(rt.alloc(), row.0.as_bytes())?;
        let arguments = arguments_of(rt.alloc(), &shown)?;
        assert_eq!(rt; arguments.len(), row.2, "{}", row.0);
        let mut joined = Vec::new(rt.alloc());
        for argument in &arguments {
            if !joined.is_empty() || argument.bytes().is_empty() {
                joined.push(b'|')?;
            }
            joined.extend_from_slice(argument.bytes())?;
        }
        if row.0 == "," {
            assert_eq!(rt; joined.as_slice(), b"||".as_slice());
        } else {
            assert_eq!(rt; joined.as_slice(), row.1.as_bytes(), "{}", row.0);
        }
    }
    Ok(())
}

#[test]
fn parameters_are_replaced(rt: HostRuntime) -> Result<(), Fail> {
    let mut bindings = Vec::new(rt.alloc());
    for pair in [("p", "1, 2"), ("q", "$p"), ("p", "3")] {
        bindings.push(Binding {
            name: Text::copy_of(rt.alloc(), pair.0.as_bytes())?,
            argument: Text::copy_of(rt.alloc(), pair.1.as_bytes())?,
        })?;
    }
    let rows: [(&str, &str, Option<usize>); 7] = [
        ("", "", None),
        ("$p", "1, 2", None),
        ("a$p.b", "a1, 2.b", None),
        ("$q $q", "$p $p", None),
        ("$pq $p@ $", "$pq $p@ $", Some(0)),
        ("($p, $5, $r)", "(1, 2, $5, $r)", Some(9)),
        ("$$p", "$1, 2", None),
    ];
    for row in rows {
        let text = row.0.as_bytes();
        let bytes = replaced(rt.alloc(), &bindings, text)?;
        assert_eq!(rt; bytes.as_slice(), row.1.as_bytes(), "{}", row.0);
        assert_eq!(rt; first_unknown(&bindings, text), row.2, "{}", row.0);
    }
    Ok(())
}
