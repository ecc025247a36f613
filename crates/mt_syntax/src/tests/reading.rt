//! Texts with the faults of reading that they have, and with what is read of them.
use crate::{ClickWhy, TokenKind, phrases_of, statements, tokens_of};
use std::test::Fail;

#[test]
fn faults_of_reading_stand_at_their_places(rt: HostRuntime) -> Result<(), Fail> {
    let rows: [(&str, ClickWhy, u32, u32); 24] = [
        ("A -> ? B;", ClickWhy::Lex, 1, 6),
        ("A -> B; /* open", ClickWhy::Lex, 1, 9),
        ("A -> B(1, (2);", ClickWhy::Lex, 1, 7),
        ("A;\n  B(1 /* ) */ ;", ClickWhy::Lex, 2, 4),
        ("A -> B (1) (2);", ClickWhy::Lex, 1, 12),
        ("a, b (1) :: A;", ClickWhy::Lex, 1, 6),
        ("(1);", ClickWhy::Lex, 1, 1),
        ("A : B;", ClickWhy::Lex, 1, 3),
        ("A - B;", ClickWhy::Lex, 1, 3),
        ("elementclass E { $ | Null }", ClickWhy::Lex, 1, 18),
        ("A\u{7f};", ClickWhy::Lex, 1, 2),
        ("A(\u{7f});", ClickWhy::Lex, 1, 3),
        ("A(/* \u{7f} */ \u{7f});", ClickWhy::Lex, 1, 11),
        ("[0] A -> B;", ClickWhy::Syntax, 1, 1),
        ("A -> B [0];", ClickWhy::Syntax, 1, 11),
        ("A [0x1] -> B;", ClickWhy::Syntax, 1, 5),
        ("A [1234567890] -> B;", ClickWhy::Syntax, 1, 13),
        ("A B;", ClickWhy::Syntax, 1, 3),
        ("a, b;", ClickWhy::Syntax, 1, 5),
        ("A ->", ClickWhy::Syntax, 1, 5),
        ("A -> elementclass;", ClickWhy::Syntax, 1, 6),
        (
            "elementclass A { elementclass B { } }",
            ClickWhy::Syntax,
            1,
            18,
        ),
        ("elementclass A { $a $b | }\n", ClickWhy::Syntax, 1, 21),
        ("elementclass A { Null ->\n\n}", ClickWhy::Syntax, 3, 1),
    ];
    for row in rows {
        let fault = statements(rt.alloc(), row.0.as_bytes()).expect_err(&rt, row.0);
        assert_eq!(rt; fault.why, row.1, "{}", row.0);
        assert_eq!(rt; fault.line, row.2, "{}", row.0);
        assert_eq!(rt; fault.column, row.3, "{}", row.0);
    }
    Ok(())
}

#[test]
fn texts_are_read_phrase_by_phrase(rt: HostRuntime) -> Result<(), Fail> {
    let rows: [(&str, usize); 8] = [
        ("", 0),
        (";;;", 0),
        ("// all of it\n/* is a comment \u{e9} */", 0),
        ("A -> B [1] -> [2] C :: D(1, 2); E", 4),
        ("a, b, c :: Null(1)", 4),
        (
            "elementclass A { $x, $y | input -> output; } A(1, 2) -> B",
            8,
        ),
        ("elementclass A { } elementclass B { ; } B", 5),
        ("A /* c */ (1) // d\n -> B", 2),
    ];
    for row in rows {
        let phrases = statements(rt.alloc(), row.0.as_bytes())
            .ok()
            .expect(&rt, row.0);
        assert_eq!(rt; phrases.len(), row.1, "{}", row.0);
        let tokens = tokens_of(rt.alloc(), row.0.as_bytes())?;
        let again = phrases_of(rt.alloc(), &tokens).ok().expect(&rt, row.0);
        assert_eq!(rt; again.len(), row.1, "{}", row.0);
    }
    let tokens = tokens_of(rt.alloc(), b"a->[12]b@1(x)")?;
    assert_eq!(rt; tokens.len(), 8);
    assert_eq!(rt; tokens[3].kind, TokenKind::Number(12));
    assert_eq!(rt; tokens[5].from, 7);
    assert_eq!(rt; tokens[6].kind, TokenKind::Arguments);
    assert_eq!(rt; tokens[6].to, 13);
    Ok(())
}
