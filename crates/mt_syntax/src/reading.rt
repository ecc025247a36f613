//! Names, uses, ports and endpoints, read from the front of a list of tokens. Each reader answers what it
//! read and the tokens behind it, or the fault of the first token that may not stand there.
ghost use Rattle.std.specs.Prelude.{◌≡◌, ◌<◌, ◌≤◌, length, IfOk, is_some};
ghost use Rattle.std.specs.Option.{option_map};
ghost use Rattle.mt_syntax.specs.Reading.{Reads, no_token, fault_at, word, read_name, read_arguments, read_use, read_number, read_right, read_inner, read_port, read_declared, read_behind, read_item, read_endpoint, read_whole_endpoint, read_left};

use crate::fault::{ClickWhy, Fault};
use crate::phrase::{Endpoint, Item, PortNumber, Use};
use crate::token::{Token, TokenKind};
use crate::word::Word;

/// Where a token stands.
pub fn word_of(token: &Token) -> Word
    ensures { result ≡ word token.now }
{
    Word {
        from: token.from,
        to: token.to,
    }
}

// The fault of a token that may not stand where it stands. An argument text out of place is a fault of tokens.
pub fn fault_of(token: &Token) -> Fault
    ensures { result ≡ fault_at token.now }
{
    let why = match token.kind {
        TokenKind::Broken | TokenKind::Arguments => ClickWhy::Lex,
        _ => ClickWhy::Syntax,
    };
    Fault {
        why,
        at: token.from,
    }
}

// The fault of the first token.
pub fn first_fault(tokens: &[Token]) -> Fault
    ensures { result ≡ no_token tokens.now }
{
    match tokens {
        [] => Fault {
            why: ClickWhy::Syntax,
            at: 0,
        },
        [token, ..] => fault_of(token),
    }
}

/// NAME
#[tactic(auto, unfolding(crate::specs::Reading::read_name))]
pub fn name_of(tokens: &[Token]) -> Result<(Word, &[Token]), Fault>
    ensures reads { Reads (λ x. (x.0, x.1.now)) result (read_name tokens.now) }
    ensures shorter { IfOk result (λ x. length x.1.now < length tokens.now) }
{
    match tokens {
        [token, rest @ ..] => match token.kind {
            TokenKind::Name => Ok((word_of(token), rest)),
            _ => Err(fault_of(token)),
        },
        [] => Err(first_fault(tokens)),
    }
}

// [ "(" arguments ")" ]
#[tactic(auto, unfolding(crate::specs::Reading::read_arguments))]
fn arguments_behind(tokens: &[Token]) -> (Option<Word>, &[Token])
    ensures reads { (result.0, result.1.now) ≡ read_arguments tokens.now }
    ensures shorter { length result.1.now ≤ length tokens.now }
{
    match tokens {
        [token, rest @ ..] => match token.kind {
            TokenKind::Arguments => (Some(word_of(token)), rest),
            _ => (None, tokens),
        },
        [] => (None, tokens),
    }
}

/// use = NAME [ "(" arguments ")" ]
#[tactic(auto, unfolding(crate::specs::Reading::read_use))]
pub fn use_of(tokens: &[Token]) -> Result<(Use, &[Token]), Fault>
    ensures reads { Reads (λ x. (x.0, x.1.now)) result (read_use tokens.now) }
    ensures shorter { IfOk result (λ x. length x.1.now < length tokens.now) }
{
    let (class, rest) = name_of(tokens)?;
    let (arguments, rest) = arguments_behind(rest);
    Ok((Use { class, arguments }, rest))
}

// NUMBER
#[tactic(auto, unfolding(crate::specs::Reading::read_number))]
fn number_of(tokens: &[Token]) -> Result<(u32, &[Token]), Fault>
    ensures reads { Reads (λ x. (x.0, x.1.now)) result (read_number tokens.now) }
    ensures shorter { IfOk result (λ x. length x.1.now < length tokens.now) }
{
    match tokens {
        [token, rest @ ..] => match token.kind {
            TokenKind::Number(number) => Ok((number, rest)),
            _ => Err(fault_of(token)),
        },
        [] => Err(first_fault(tokens)),
    }
}

// "]"
#[tactic(auto, unfolding(crate::specs::Reading::read_right))]
fn behind_right(tokens: &[Token]) -> Result<&[Token], Fault>
    ensures reads { Reads (λ x. x.now) result (read_right tokens.now) }
    ensures shorter { IfOk result (λ x. length x.now < length tokens.now) }
{
    match tokens {
        [token, rest @ ..] => match token.kind {
            TokenKind::RightBracket => Ok(rest),
            _ => Err(fault_of(token)),
        },
        [] => Err(first_fault(tokens)),
    }
}

/// "{"
#[tactic(auto, unfolding(crate::specs::Reading::read_left))]
pub fn behind_left(tokens: &[Token]) -> Result<&[Token], Fault>
    ensures reads { Reads (λ x. x.now) result (read_left tokens.now) }
    ensures shorter { IfOk result (λ x. length x.now < length tokens.now) }
{
    match tokens {
        [token, rest @ ..] => match token.kind {
            TokenKind::LeftBrace => Ok(rest),
            _ => Err(fault_of(token)),
        },
        [] => Err(first_fault(tokens)),
    }
}

// NUMBER "]", behind the `[` at a byte.
#[tactic(auto, unfolding(crate::specs::Reading::read_inner))]
fn port_inner(at: usize, tokens: &[Token]) -> Result<(Option<PortNumber>, &[Token]), Fault>
    ensures reads { Reads (λ x. (x.0, x.1.now)) result (read_inner at tokens.now) }
    ensures shorter { IfOk result (λ x. length x.1.now < length tokens.now) }
{
    let (number, rest) = number_of(tokens)?;
    let rest = behind_right(rest)?;
    Ok((Some(PortNumber { at, number }), rest))
}

// [ "[" NUMBER "]" ]
#[tactic(auto, unfolding(crate::specs::Reading::read_port))]
fn port_of(tokens: &[Token]) -> Result<(Option<PortNumber>, &[Token]), Fault>
    ensures reads { Reads (λ x. (x.0, x.1.now)) result (read_port tokens.now) }
    ensures shorter { IfOk result (λ x. length x.1.now ≤ length tokens.now) }
{
    match tokens {
        [token, rest @ ..] => match token.kind {
            TokenKind::LeftBracket => port_inner(token.from, rest),
            _ => Ok((None, tokens)),
        },
        [] => Ok((None, tokens)),
    }
}

// The use behind a name and `::`.
#[tactic(auto, unfolding(crate::specs::Reading::read_declared))]
fn declared_of(name: Word, tokens: &[Token]) -> Result<(Item, &[Token]), Fault>
    ensures reads { Reads (λ x. (x.0, x.1.now)) result (read_declared name tokens.now) }
    ensures shorter { IfOk result (λ x. length x.1.now < length tokens.now) }
{
    let (made, rest) = use_of(tokens)?;
    Ok((Item::Declared(name, made), rest))
}

// What an item has behind its first name.
#[tactic(auto, unfolding(crate::specs::Reading::read_behind))]
fn item_behind(name: Word, tokens: &[Token]) -> Result<(Item, &[Token]), Fault>
    ensures reads { Reads (λ x. (x.0, x.1.now)) result (read_behind name tokens.now) }
    ensures shorter { IfOk result (λ x. length x.1.now ≤ length tokens.now) }
{
    match tokens {
        [token, rest @ ..] => match token.kind {
            TokenKind::Colons => declared_of(name, rest),
            TokenKind::Arguments => {
                let arguments = Some(word_of(token));
                Ok((
                    Item::Made(Use {
                        class: name,
                        arguments,
                    }),
                    rest,
                ))
            }
            _ => Ok((Item::Name(name), tokens)),
        },
        [] => Ok((Item::Name(name), tokens)),
    }
}

// item = NAME | NAME "::" use | use
#[tactic(auto, unfolding(crate::specs::Reading::read_item))]
fn item_of(tokens: &[Token]) -> Result<(Item, &[Token]), Fault>
    ensures reads { Reads (λ x. (x.0, x.1.now)) result (read_item tokens.now) }
    ensures shorter { IfOk result (λ x. length x.1.now < length tokens.now) }
{
    let (name, rest) = name_of(tokens)?;
    item_behind(name, rest)
}

/// An endpoint behind its input port.
#[tactic(auto, unfolding(crate::specs::Reading::read_endpoint))]
pub fn endpoint_of(
    input: Option<PortNumber>,
    tokens: &[Token],
) -> Result<(Endpoint, &[Token]), Fault>
    ensures reads { Reads (λ x. (x.0, x.1.now)) result (read_endpoint input tokens.now) }
    ensures shorter { IfOk result (λ x. length x.1.now < length tokens.now) }
{
    let (item, rest) = item_of(tokens)?;
    let (output, rest) = port_of(rest)?;
    Ok((
        Endpoint {
            input,
            item,
            output,
        },
        rest,
    ))
}

/// endpoint = [ "[" NUMBER "]" ] item [ "[" NUMBER "]" ]
#[tactic(auto, unfolding(crate::specs::Reading::read_whole_endpoint))]
pub fn whole_endpoint_of(tokens: &[Token]) -> Result<(Endpoint, &[Token]), Fault>
    ensures reads { Reads (λ x. (x.0, x.1.now)) result (read_whole_endpoint tokens.now) }
    ensures shorter { IfOk result (λ x. length x.1.now < length tokens.now) }
{
    let (input, rest) = port_of(tokens)?;
    endpoint_of(input, rest)
}
