//! What no contract says: what given arguments stand for. Values come from the Click manual, in this project's
//! profile, worked out by hand.

use mt_text::Text;
use std::alloc::{AllocError, Global};

mod arguments;
mod rewriters;

/// The arguments in a text, separated by `, `.
fn texts(alloc: Global, inner: &str) -> Result<Vec<Text>, AllocError> {
    let mut arguments = Vec::new(alloc);
    if !inner.is_empty() {
        for argument in inner.split(", ") {
            arguments.push(Text::copy_of(alloc, argument.as_bytes())?)?;
        }
    }
    Ok(arguments)
}
