//! Texts of a mebibyte that nest as deep as they are long.

use crate::{Pattern, PatternFault, holds};
use mt_packet::{Frame, Header};
use std::alloc::{AllocError, Global};

/// A text that is opened and closed so many times around another.
fn nested(
    alloc: Global,
    opening: &str,
    inner: &str,
    closing: &str,
    times: usize,
) -> Result<String, AllocError> {
    let mut text = String::new(alloc);
    for _ in 0..times {
        text.push_str(opening)?;
    }
    text.push_str(inner)?;
    for _ in 0..times {
        text.push_str(closing)?;
    }
    Ok(text)
}

/// Whether the pattern of a text that nests so holds for the empty frame.
fn met_nested(
    alloc: Global,
    opening: &str,
    inner: &str,
    closing: &str,
    times: usize,
) -> Option<bool> {
    let text = nested(alloc, opening, inner, closing, times).ok()?;
    let pattern = Pattern::parse(alloc, text.as_bytes()).ok()?;
    Some(holds(&pattern, &Header::of(1, &Frame::new(Vec::new(alloc)))))
}

#[test]
fn texts_that_nest_as_deep_as_they_are_long(rt: HostRuntime) {
    let alloc = rt.alloc();
    let rows = [
        ("!", "-", "", 1_048_575, false),
        ("-&&", "-", "", 349_525, true),
        ("(", "-", ")", 524_287, true),
        ("(", "-", "&&-)", 209_715, true),
        ("!-||(", "-", ")", 174_762, true),
        ("tcp port 80 or (", "-", ")", 61_680, true),
        ("!(!", "-", ")", 262_143, true),
    ];
    for (opening, inner, closing, times, wanted) in &rows {
        assert!(rt; met_nested(alloc, opening, inner, closing, *times) == Some(*wanted));
    }
    let side = nested(alloc, "!", "-||(", "", 255).unwrap_or(String::new(alloc));
    assert!(rt; met_nested(alloc, side.as_str(), "-", ")", 4_032) == Some(true));
    let open = nested(alloc, "(", "", "", 1_048_576).unwrap_or(String::new(alloc));
    assert!(rt;
        matches!(
            Pattern::parse(alloc, open.as_bytes()),
            Err(PatternFault::Bad(1_048_576))
        )
    );
}
