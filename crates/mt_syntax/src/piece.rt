//! The piece at the front of a text: white space, a comment or a token, the longest that there is.
ghost use Rattle.std.specs.Prelude.{◌≡◌, ◌≤◌, ◌<◌, min, length, slice_index, EachIndex};
ghost use Rattle.mt_syntax.specs.Piece.{name_len, word_at, number_of, digits_len, digits_at, parameter_at, arguments_at, pair_at, mark_of, mark_at, plain_at, piece_at, PieceWithin};

use crate::arguments::{closing_length, plain_length};
use crate::comment::{Comment, comment_of};
use crate::token::TokenKind;
use mt_text::{begins_name, goes_on_name, is_decimal, is_white_byte};

/// What begins at the front of a text.
#[derive(Clone, Copy, Debug, PartialEq, Eq)]
pub enum Piece {
    /// White space or a comment of so many bytes.
    Blank(usize),
    /// A token of so many bytes.
    Taken(TokenKind, usize),
    /// Nothing that a text may have here.
    Wrong,
}

/// How many bytes of an identifier stand at the front of a text that begins with one.
pub fn name_length(bytes: &[u8]) -> usize
    ensures length { result ≡ name_len bytes.now }
    ensures within { result ≤ length bytes.now }
{
    bytes.iter().take_while(|b| goes_on_name(**b)).count()
}

// An identifier, or `elementclass`, as far as it goes.
#[tactic(auto, unfolding(crate::specs::Piece::word_at))]
fn word_of(bytes: &[u8]) -> Piece
    ensures piece { result ≡ word_at bytes.now }
    ensures within { PieceWithin (length bytes.now) result }
{
    let len = name_length(bytes);
    if &bytes[..len] == b"elementclass".as_slice() {
        Piece::Taken(TokenKind::Keyword, len)
    } else {
        Piece::Taken(TokenKind::Name, len)
    }
}

// How many digits stand at the front.
fn digits_length(bytes: &[u8]) -> usize
    ensures length { result ≡ digits_len bytes.now }
    ensures within { result ≤ length bytes.now }
{
    bytes.iter().take_while(|b| is_decimal(**b)).count()
}

// How many of them are a number, for which no more than nine bytes are looked at.
#[tactic(auto, using(crate::proofs::NumberDigits::first_nine))]
fn number_length(bytes: &[u8]) -> usize
    ensures length { result ≡ min (digits_len bytes.now) 9 }
    ensures within { result ≤ length bytes.now }
{
    let most = bytes.len().min(9);
    digits_length(&bytes[..most])
}

// The number that at most nine digits are.
fn number_value(digits: &[u8]) -> u32
    requires few { length digits.now ≤ 9 }
    requires digits { EachIndex digits.now (λ k. slice_index digits.now k < 58) }
    ensures { result ≡ number_of digits.now }
{
    let mut number = 0u32;
    for digit in digits {
        number = number * 10 + u32::from(digit.saturating_sub(b'0'));
    }
    number
}

// A number of one to nine digits.
#[tactic(auto, unfolding(crate::specs::Piece::digits_at))]
fn digits_of(bytes: &[u8]) -> Piece
    ensures piece { result ≡ digits_at bytes.now }
    ensures within { PieceWithin (length bytes.now) result }
{
    let len = number_length(bytes);
    Piece::Taken(TokenKind::Number(number_value(&bytes[..len])), len)
}

// `$` and an identifier.
#[tactic(auto, unfolding(crate::specs::Piece::parameter_at))]
fn parameter_of(bytes: &[u8]) -> Piece
    requires { 0 < length bytes.now }
    ensures piece { result ≡ parameter_at bytes.now }
    ensures within { PieceWithin (length bytes.now) result }
{
    if bytes.len() > 1 && begins_name(bytes[1]) {
        Piece::Taken(TokenKind::Parameter, 1 + name_length(&bytes[1..]))
    } else {
        Piece::Wrong
    }
}

// An argument text from its `(`.
#[tactic(auto, unfolding(crate::specs::Piece::arguments_at))]
fn arguments_piece(bytes: &[u8]) -> Piece
    requires { 0 < length bytes.now }
    ensures piece { result ≡ arguments_at bytes.now }
    ensures within { PieceWithin (length bytes.now) result }
{
    let body = &bytes[1..];
    match closing_length(body) {
        Some(len) => Piece::Taken(TokenKind::Arguments, 1 + plain_length(body, len)),
        None => Piece::Wrong,
    }
}

// A token of two bytes, of which the first is read.
#[tactic(auto, unfolding(crate::specs::Piece::pair_at))]
fn pair_of(second: u8, kind: TokenKind, bytes: &[u8]) -> Piece
    ensures piece { result ≡ pair_at second kind bytes.now }
    ensures within { PieceWithin (length bytes.now) result }
{
    if bytes.len() > 1 && bytes[1] == second {
        Piece::Taken(kind, 2)
    } else {
        Piece::Wrong
    }
}

// A token of one byte.
#[tactic(auto, unfolding(crate::specs::Piece::mark_of))]
fn mark(byte: u8) -> Piece
    ensures piece { result ≡ mark_of byte }
    ensures within { PieceWithin 1 result }
{
    match byte {
        b'[' => Piece::Taken(TokenKind::LeftBracket, 1),
        b']' => Piece::Taken(TokenKind::RightBracket, 1),
        b'{' => Piece::Taken(TokenKind::LeftBrace, 1),
        b'}' => Piece::Taken(TokenKind::RightBrace, 1),
        b'|' => Piece::Taken(TokenKind::Bar, 1),
        b';' => Piece::Taken(TokenKind::Semicolon, 1),
        b',' => Piece::Taken(TokenKind::Comma, 1),
        _ => Piece::Wrong,
    }
}

// What begins with neither white space, letter nor digit.
#[tactic(auto, unfolding(crate::specs::Piece::mark_at))]
fn mark_piece(bytes: &[u8], named: bool) -> Piece
    requires { 0 < length bytes.now }
    ensures piece { result ≡ mark_at named bytes.now }
    ensures within { PieceWithin (length bytes.now) result }
{
    match bytes[0] {
        b'(' => {
            if named {
                arguments_piece(bytes)
            } else {
                Piece::Wrong
            }
        }
        b'$' => parameter_of(bytes),
        b':' => pair_of(b':', TokenKind::Colons, bytes),
        b'-' => pair_of(b'>', TokenKind::Arrow, bytes),
        first => mark(first),
    }
}

// What begins with no comment.
#[tactic(auto, unfolding(crate::specs::Piece::plain_at))]
fn plain_piece(bytes: &[u8], named: bool) -> Piece
    requires { 0 < length bytes.now }
    ensures piece { result ≡ plain_at named bytes.now }
    ensures within { PieceWithin (length bytes.now) result }
{
    let first = bytes[0];
    if is_white_byte(first) {
        Piece::Blank(1)
    } else if begins_name(first) {
        word_of(bytes)
    } else if is_decimal(first) {
        digits_of(bytes)
    } else {
        mark_piece(bytes, named)
    }
}

/// The piece at the front of a text that is not empty. An argument text is one only behind an
/// identifier, `named`.
#[tactic(auto, unfolding(crate::specs::Piece::piece_at))]
pub fn piece_of(bytes: &[u8], named: bool) -> Piece
    requires { 0 < length bytes.now }
    ensures piece { result ≡ piece_at named bytes.now }
    ensures within { PieceWithin (length bytes.now) result }
{
    match comment_of(bytes) {
        Comment::Absent => plain_piece(bytes, named),
        Comment::Closed(len) => Piece::Blank(len),
        Comment::Open => Piece::Wrong,
    }
}
