//! The advances of reading: each takes a phrase of a statement, or a sign between phrases.
ghost use Rattle.std.specs.Prelude.{◌≡◌, ◌<◌, length, IfOk};
ghost use Rattle.std.specs.Option.{option_map};
ghost use Rattle.mt_syntax.specs.Reading.{Advances, IsShorter, seen, has_port, is_comma, read_done, read_first, read_next, read_names, read_name_more, read_made, read_after_name, read_class, read_begin, read_after_endpoint, read_parameter, read_after_parameter, read_head, read_advance};

use crate::fault::Fault;
use crate::phrase::Phrase;
use crate::reading::{
    behind_left, endpoint_of, fault_of, first_fault, name_of, use_of, whole_endpoint_of, word_of,
};
use crate::token::{Token, TokenKind};

/// What may stand next in a configuration.
#[derive(Clone, Copy, Debug, PartialEq, Eq)]
pub enum Stage {
    /// A statement.
    Begin,
    /// The endpoint of a statement.
    Done,
    /// A `->`, or the endpoint of the statement where the last endpoint has no output port.
    Ended(bool),
    /// Behind a name of a declaration: a further name, or the use.
    Names,
    /// Behind the `{` of a class: its parameters, or a statement.
    Head,
    /// Behind a parameter: a further one, or `|`.
    Parameters,
}

/// What was read: a phrase or a sign between phrases, and what may stand behind it. `inside` says
/// whether that is in the body of a class.
#[derive(Clone, Copy, Debug, PartialEq, Eq)]
pub struct Advance {
    pub phrase: Option<Phrase>,
    pub stage: Stage,
    pub inside: bool,
}

// The end of a statement: `;`, in a body `}`, outside the end of the text.
#[tactic(auto, unfolding(crate::specs::Reading::read_done))]
fn done(inside: bool, tokens: &[Token]) -> Result<Option<(Advance, &[Token])>, Fault>
    ensures reads { Advances result (read_done inside tokens.now) }
    ensures shorter { IfOk result (λ o. IsShorter tokens.now (seen o)) }
{
    match tokens {
        [token, rest @ ..] => match token.kind {
            TokenKind::Semicolon => Ok(Some((
                Advance {
                    phrase: None,
                    stage: Stage::Begin,
                    inside,
                },
                rest,
            ))),
            TokenKind::RightBrace => {
                if !inside {
                    return Err(fault_of(token));
                }
                Ok(Some((
                    Advance {
                        phrase: Some(Phrase::Close),
                        stage: Stage::Begin,
                        inside: false,
                    },
                    rest,
                )))
            }
            TokenKind::Finish => {
                if inside {
                    return Err(fault_of(token));
                }
                Ok(None)
            }
            _ => Err(fault_of(token)),
        },
        [] => Err(first_fault(tokens)),
    }
}

// The first endpoint of a connection, which has no input port.
#[tactic(auto, unfolding(crate::specs::Reading::read_first))]
fn first_endpoint(inside: bool, tokens: &[Token]) -> Result<Option<(Advance, &[Token])>, Fault>
    ensures reads { Advances result (read_first inside tokens.now) }
    ensures shorter { IfOk result (λ o. IsShorter tokens.now (seen o)) }
{
    let (endpoint, rest) = endpoint_of(None, tokens)?;
    let stage = Stage::Ended(endpoint.output.is_some());
    Ok(Some((
        Advance {
            phrase: Some(Phrase::First(endpoint)),
            stage,
            inside,
        },
        rest,
    )))
}

// The endpoint behind a `->`, of which the byte is given.
#[tactic(auto, unfolding(crate::specs::Reading::read_next))]
fn next_endpoint(
    arrow: usize,
    inside: bool,
    tokens: &[Token],
) -> Result<Option<(Advance, &[Token])>, Fault>
    ensures reads { Advances result (read_next arrow inside tokens.now) }
    ensures shorter { IfOk result (λ o. IsShorter tokens.now (seen o)) }
{
    let (endpoint, rest) = whole_endpoint_of(tokens)?;
    let stage = Stage::Ended(endpoint.output.is_some());
    Ok(Some((
        Advance {
            phrase: Some(Phrase::Next(arrow, endpoint)),
            stage,
            inside,
        },
        rest,
    )))
}

// Whether a comma stands first.
fn is_at_comma(tokens: &[Token]) -> bool
    ensures { result ≡ is_comma tokens.now }
{
    match tokens {
        [token, ..] => match token.kind {
            TokenKind::Comma => true,
            _ => false,
        },
        [] => false,
    }
}

// A statement that begins with a name: the first of a declaration where a comma follows, or else of a connection.
#[tactic(auto, unfolding(crate::specs::Reading::read_names))]
fn names(inside: bool, tokens: &[Token]) -> Result<Option<(Advance, &[Token])>, Fault>
    ensures reads { Advances result (read_names inside tokens.now) }
    ensures shorter { IfOk result (λ o. IsShorter tokens.now (seen o)) }
{
    let (name, rest) = name_of(tokens)?;
    if is_at_comma(rest) {
        Ok(Some((
            Advance {
                phrase: Some(Phrase::Declared(name)),
                stage: Stage::Names,
                inside,
            },
            rest,
        )))
    } else {
        first_endpoint(inside, tokens)
    }
}

// A name behind the comma of a declaration.
#[tactic(auto, unfolding(crate::specs::Reading::read_name_more))]
fn further_name(inside: bool, tokens: &[Token]) -> Result<Option<(Advance, &[Token])>, Fault>
    ensures reads { Advances result (read_name_more inside tokens.now) }
    ensures shorter { IfOk result (λ o. IsShorter tokens.now (seen o)) }
{
    let (name, rest) = name_of(tokens)?;
    Ok(Some((
        Advance {
            phrase: Some(Phrase::Declared(name)),
            stage: Stage::Names,
            inside,
        },
        rest,
    )))
}

// The use behind the `::` of a declaration.
#[tactic(auto, unfolding(crate::specs::Reading::read_made))]
fn made(inside: bool, tokens: &[Token]) -> Result<Option<(Advance, &[Token])>, Fault>
    ensures reads { Advances result (read_made inside tokens.now) }
    ensures shorter { IfOk result (λ o. IsShorter tokens.now (seen o)) }
{
    let (made, rest) = use_of(tokens)?;
    Ok(Some((
        Advance {
            phrase: Some(Phrase::Made(made)),
            stage: Stage::Done,
            inside,
        },
        rest,
    )))
}

// Behind a name of a declaration: `,` and a further name, or `::` and the use.
#[tactic(auto, unfolding(crate::specs::Reading::read_after_name))]
fn after_name(inside: bool, tokens: &[Token]) -> Result<Option<(Advance, &[Token])>, Fault>
    ensures reads { Advances result (read_after_name inside tokens.now) }
    ensures shorter { IfOk result (λ o. IsShorter tokens.now (seen o)) }
{
    match tokens {
        [token, rest @ ..] => match token.kind {
            TokenKind::Comma => further_name(inside, rest),
            TokenKind::Colons => made(inside, rest),
            _ => Err(fault_of(token)),
        },
        [] => Err(first_fault(tokens)),
    }
}

// Behind `elementclass`: the name of the compound class and its `{`.
#[tactic(auto, unfolding(crate::specs::Reading::read_class))]
fn class(tokens: &[Token]) -> Result<Option<(Advance, &[Token])>, Fault>
    ensures reads { Advances result (read_class tokens.now) }
    ensures shorter { IfOk result (λ o. IsShorter tokens.now (seen o)) }
{
    let (name, rest) = name_of(tokens)?;
    let rest = behind_left(rest)?;
    Ok(Some((
        Advance {
            phrase: Some(Phrase::Class(name)),
            stage: Stage::Head,
            inside: true,
        },
        rest,
    )))
}

// A statement, which may be empty. A compound class may be declared only outside the bodies of others.
#[tactic(auto, unfolding(crate::specs::Reading::read_begin))]
fn begin(inside: bool, tokens: &[Token]) -> Result<Option<(Advance, &[Token])>, Fault>
    ensures reads { Advances result (read_begin inside tokens.now) }
    ensures shorter { IfOk result (λ o. IsShorter tokens.now (seen o)) }
{
    match tokens {
        [token, rest @ ..] => match token.kind {
            TokenKind::Name => names(inside, tokens),
            TokenKind::Keyword => {
                if inside {
                    return Err(fault_of(token));
                }
                class(rest)
            }
            _ => done(inside, tokens),
        },
        [] => Err(first_fault(tokens)),
    }
}

// Behind an endpoint: a `->`, or the end of the statement unless an output port (`port`) is written out.
#[tactic(auto, unfolding(crate::specs::Reading::read_after_endpoint))]
fn after_endpoint(
    port: bool,
    inside: bool,
    tokens: &[Token],
) -> Result<Option<(Advance, &[Token])>, Fault>
    ensures reads { Advances result (read_after_endpoint port inside tokens.now) }
    ensures shorter { IfOk result (λ o. IsShorter tokens.now (seen o)) }
{
    match tokens {
        [token, rest @ ..] => match token.kind {
            TokenKind::Arrow => next_endpoint(token.from, inside, rest),
            _ => {
                if port {
                    return Err(fault_of(token));
                }
                done(inside, tokens)
            }
        },
        [] => Err(first_fault(tokens)),
    }
}

// A parameter of a compound class.
#[tactic(auto, unfolding(crate::specs::Reading::read_parameter))]
fn parameter(tokens: &[Token]) -> Result<Option<(Advance, &[Token])>, Fault>
    ensures reads { Advances result (read_parameter tokens.now) }
    ensures shorter { IfOk result (λ o. IsShorter tokens.now (seen o)) }
{
    match tokens {
        [token, rest @ ..] => match token.kind {
            TokenKind::Parameter => {
                let name = word_of(token);
                Ok(Some((
                    Advance {
                        phrase: Some(Phrase::Parameter(name)),
                        stage: Stage::Parameters,
                        inside: true,
                    },
                    rest,
                )))
            }
            _ => Err(fault_of(token)),
        },
        [] => Err(first_fault(tokens)),
    }
}

// Behind a parameter: `,` and a further one, or `|`.
#[tactic(auto, unfolding(crate::specs::Reading::read_after_parameter))]
fn after_parameter(tokens: &[Token]) -> Result<Option<(Advance, &[Token])>, Fault>
    ensures reads { Advances result (read_after_parameter tokens.now) }
    ensures shorter { IfOk result (λ o. IsShorter tokens.now (seen o)) }
{
    match tokens {
        [token, rest @ ..] => match token.kind {
            TokenKind::Comma => parameter(rest),
            TokenKind::Bar => Ok(Some((
                Advance {
                    phrase: None,
                    stage: Stage::Begin,
                    inside: true,
                },
                rest,
            ))),
            _ => Err(fault_of(token)),
        },
        [] => Err(first_fault(tokens)),
    }
}

// Behind the `{` of a compound class: its first parameter, or a statement.
#[tactic(auto, unfolding(crate::specs::Reading::read_head))]
fn head(tokens: &[Token]) -> Result<Option<(Advance, &[Token])>, Fault>
    ensures reads { Advances result (read_head tokens.now) }
    ensures shorter { IfOk result (λ o. IsShorter tokens.now (seen o)) }
{
    match tokens {
        [token, rest @ ..] => match token.kind {
            TokenKind::Parameter => parameter(tokens),
            _ => begin(true, tokens),
        },
        [] => Err(first_fault(tokens)),
    }
}

/// What stands next.
#[tactic(auto, unfolding(crate::specs::Reading::read_advance))]
pub fn advance_of(
    stage: Stage,
    inside: bool,
    tokens: &[Token],
) -> Result<Option<(Advance, &[Token])>, Fault>
    ensures reads { Advances result (read_advance stage inside tokens.now) }
    ensures shorter { IfOk result (λ o. IsShorter tokens.now (seen o)) }
{
    match stage {
        Stage::Begin => begin(inside, tokens),
        Stage::Done => done(inside, tokens),
        Stage::Ended(port) => after_endpoint(port, inside, tokens),
        Stage::Names => after_name(inside, tokens),
        Stage::Head => head(tokens),
        Stage::Parameters => after_parameter(tokens),
    }
}
