//! The pattern that a test stands for.
ghost use Rattle.std.specs.Prelude.{◌≡◌, IfOk};
ghost use Rattle.mt_pattern.specs.Shape.{within, sides_pattern, with_transport, fragment_pattern, pattern_of};
ghost use Rattle.mt_pattern.specs.declared.pattern.Pattern.TheVariants as pattern;

use crate::pattern::Pattern;
use crate::test::{Sides, Test, Transport};
use mt_packet::{Field, Span};
use sqlite_items::Boxed;
use std::alloc::{AllocError, Global};

/// The pattern that holds where another does not.
pub(crate) fn negation(alloc: Global, inner: Pattern) -> Result<Pattern, AllocError>
    ensures { IfOk result (λ p. p ≡ pattern.Not inner) }
{
    Ok(Pattern::Not(Boxed::new(alloc, inner)?))
}

/// The pattern that holds where both do.
pub(crate) fn both(alloc: Global, left: Pattern, right: Pattern) -> Result<Pattern, AllocError>
    ensures { IfOk result (λ p. p ≡ pattern.And left right) }
{
    let left = Boxed::new(alloc, left)?;
    Ok(Pattern::And(left, Boxed::new(alloc, right)?))
}

/// The pattern that holds where one of both does.
pub(crate) fn either(alloc: Global, left: Pattern, right: Pattern) -> Result<Pattern, AllocError>
    ensures { IfOk result (λ p. p ≡ pattern.Or left right) }
{
    let left = Boxed::new(alloc, left)?;
    Ok(Pattern::Or(left, Boxed::new(alloc, right)?))
}

fn within(field: Field, lo: u64, hi: u64) -> Pattern
    ensures { result ≡ within field lo hi }
{
    Pattern::Within(field, Span { lo, hi })
}

/// The field of one side is in the span, or that of either, the source first.
fn sides_pattern(
    alloc: Global,
    sides: Sides,
    source: Field,
    destination: Field,
    span: Span,
) -> Result<Pattern, AllocError>
    ensures { IfOk result (λ p. p ≡ sides_pattern sides source destination span) }
{
    match sides {
        Sides::Source => Ok(Pattern::Within(source, span)),
        Sides::Destination => Ok(Pattern::Within(destination, span)),
        Sides::Either => either(
            alloc,
            Pattern::Within(source, span),
            Pattern::Within(destination, span),
        ),
    }
}

/// The protocol, if one is named, and then the ports.
fn with_transport(
    alloc: Global,
    transport: Transport,
    ports: Pattern,
) -> Result<Pattern, AllocError>
    ensures { IfOk result (λ p. p ≡ with_transport transport ports) }
{
    match transport {
        Transport::Unnamed => Ok(ports),
        Transport::Tcp => both(alloc, within(Field::Proto, 6, 6), ports),
        Transport::Udp => both(alloc, within(Field::Proto, 17, 17), ports),
    }
}

/// More fragments come, or the offset is not 0.
fn fragment_pattern(alloc: Global) -> Result<Pattern, AllocError>
    ensures { IfOk result (λ p. p ≡ fragment_pattern) }
{
    either(
        alloc,
        within(Field::Mf, 1, 1),
        within(Field::FragOff, 1, 8_191),
    )
}

/// The pattern that a test stands for.
pub(crate) fn pattern_of(alloc: Global, test: Test) -> Result<Pattern, AllocError>
    ensures { IfOk result (λ p. p ≡ pattern_of test) }
{
    match test {
        Test::Always => Ok(Pattern::True),
        Test::Never => negation(alloc, Pattern::True),
        Test::Value(field, span) => Ok(Pattern::Within(field, span)),
        Test::Address(sides, span) => sides_pattern(alloc, sides, Field::Src, Field::Dst, span),
        Test::Ports(sides, transport, span) => {
            let ports = sides_pattern(alloc, sides, Field::Sport, Field::Dport, span)?;
            with_transport(alloc, transport, ports)
        }
        Test::Fragment => fragment_pattern(alloc),
        Test::Unfragmented => {
            let fragment = fragment_pattern(alloc)?;
            negation(alloc, fragment)
        }
    }
}
