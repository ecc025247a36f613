//! Whether a header meets a pattern.
ghost use Rattle.std.specs.Prelude.{◌≡◌};
ghost use Rattle.mt_packet.specs.Header.{field_of};
ghost use Rattle.mt_pattern.specs.Meaning.{meaning_of, contains_number};

use crate::order::in_order;
use crate::pattern::Pattern;
use mt_packet::{Header, Span};

/// Whether the pattern holds for the header. Takes no memory. A chain of `Not`, and one side of each `And`
/// and `Or`, are walked in turn; the other side, a small one where there is one, costs a call.
pub fn holds(pattern: &Pattern, values: &Header) -> bool
    ensures { result ≡ meaning_of pattern.now (λ field. field_of values.now field) }
{
    let mut rest = pattern;
    let mut negated = false;
    loop {
        match rest {
            Pattern::True => return !negated,
            Pattern::Within(field, span) => return is_within(values.get(*field), span) != negated,
            Pattern::Not(inner) => {
                negated = !negated;
                rest = inner.get();
            }
            Pattern::And(left, right) => {
                let (first, last) = in_order(left.get(), right.get());
                if !holds(first, values) {
                    return negated;
                }
                rest = last;
            }
            Pattern::Or(left, right) => {
                let (first, last) = in_order(left.get(), right.get());
                if holds(first, values) {
                    return !negated;
                }
                rest = last;
            }
        }
    }
}

/// Whether a number lies in a span.
fn is_within(value: u64, span: &Span) -> bool
    ensures { result ≡ contains_number span.now value }
{
    span.lo <= value && value <= span.hi
}
