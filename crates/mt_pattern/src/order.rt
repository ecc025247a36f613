//! In which order the two sides of a pattern are walked. One side takes a call of its own, and the other
//! is walked on without one, so the calls that are open at once are few where that side is small.
ghost use Rattle.std.specs.Prelude.{◌≡◌, ◌⊎◌, ◌≤◌, ◌<◌, ◌-◌, IsTrue, IsFalse, nat_lt};
ghost use Rattle.mt_pattern.specs.Meaning.{size_of};

use crate::pattern::Pattern;
use sqlite_items::Boxed;

/// A side with fewer parts is taken before any other is looked at further.
const FEW: u32 = 8;

/// A side with fewer parts is taken where there is one. Where neither side has fewer, the call passes at
/// least as many parts by. A part is a byte of text or more, so a text of a million bytes opens some four
/// thousand calls at most.
const MANY: u32 = 256;

/// What is left of `room` once each part of the pattern has taken one, 0 where it does not suffice. No
/// more calls than `room` are open at once.
fn room_left(pattern: &Pattern, room: u32) -> u32
    ensures { result ≡ room - size_of pattern.now }
{
    if room == 0 {
        return 0;
    }
    match pattern {
        Pattern::True => room - 1,
        Pattern::Within(_, _) => room - 1,
        Pattern::Not(inner) => room_left(inner.get(), room - 1),
        Pattern::And(left, right) => room_left(right.get(), room_left(left.get(), room - 1)),
        Pattern::Or(left, right) => room_left(right.get(), room_left(left.get(), room - 1)),
    }
}

/// Whether the pattern has fewer parts than that.
fn has_fewer(pattern: &Pattern, parts: u32) -> bool
    ensures { result ≡ nat_lt (size_of pattern.now) parts }
{
    room_left(pattern, parts) > 0
}

/// Whether the right side is the one that takes a call.
pub(crate) fn right_first(left: &Pattern, right: &Pattern) -> bool
    ensures right { IsTrue result → MANY ≤ size_of right.now → MANY ≤ size_of left.now }
    ensures left { IsFalse result → size_of left.now < MANY }
{
    if has_fewer(right, FEW) {
        return true;
    }
    if has_fewer(left, FEW) {
        return false;
    }
    has_fewer(right, MANY) || !has_fewer(left, MANY)
}

/// The two sides, first the one that takes a call. It has fewer than `MANY` parts where either has.
pub(crate) fn in_order<'a>(left: &'a Pattern, right: &'a Pattern) -> (&'a Pattern, &'a Pattern)
    ensures sides { ((result.0.now ≡ left.now) × (result.1.now ≡ right.now)) ⊎ ((result.0.now ≡ right.now) × (result.1.now ≡ left.now)) }
    ensures fewer { MANY ≤ size_of result.0.now → MANY ≤ size_of result.1.now }
{
    if right_first(left, right) {
        (right, left)
    } else {
        (left, right)
    }
}

/// The same, of two sides that are owned.
pub(crate) fn owned_in_order(
    left: Boxed<Pattern>,
    right: Boxed<Pattern>,
) -> (Boxed<Pattern>, Boxed<Pattern>)
    ensures sides { ((result.0 ≡ left) × (result.1 ≡ right)) ⊎ ((result.0 ≡ right) × (result.1 ≡ left)) }
    ensures fewer { MANY ≤ size_of result.0 → MANY ≤ size_of result.1 }
{
    if right_first(left.get(), right.get()) {
        (right, left)
    } else {
        (left, right)
    }
}
