//! Patterns on headers.

use crate::order::owned_in_order;
use mt_packet::{Field, Span};
use sqlite_items::Boxed;

/// A pattern: what a text of the pattern language stands for. Nothing in it is simplified, so its shape
/// is that of the text.
pub enum Pattern {
    /// Holds for every header.
    True,
    /// The field's value is in the span. Where the span has no number, as `lo` above `hi`, it never holds.
    Within(Field, Span),
    /// The pattern does not hold.
    Not(Boxed<Pattern>),
    /// Both hold.
    And(Boxed<Pattern>, Boxed<Pattern>),
    /// At least one of both holds.
    Or(Boxed<Pattern>, Boxed<Pattern>),
}

/// A chain of `Not`, and one side of each `And` and `Or`, are let go in turn and not in a call each, since
/// a text can make them as long as itself.
impl Drop for Pattern {
    fn drop(mut self) {
        loop {
            match self {
                Pattern::True => return,
                Pattern::Within(_, _) => return,
                Pattern::Not(inner) => self = inner.into_inner(),
                Pattern::And(left, right) => {
                    let (first, last) = owned_in_order(left, right);
                    drop(first);
                    self = last.into_inner();
                }
                Pattern::Or(left, right) => {
                    let (first, last) = owned_in_order(left, right);
                    drop(first);
                    self = last.into_inner();
                }
            }
        }
    }
}
