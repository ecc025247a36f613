//! Tokens, and the tokens of a text.
ghost use Rattle.std.specs.Prelude.{◌≡◌, List, IfOk};
ghost use Rattle.mt_syntax.specs.Tokens.{is_name, tokens_in, EndOnce};
ghost use Rattle.mt_syntax.specs.Spelled.{AreTokens};

use crate::piece::{Piece, piece_of};
use std::alloc::{AllocError, Global};

/// What a token is.
#[derive(Clone, Copy, Debug, PartialEq, Eq)]
pub enum TokenKind {
    /// An identifier other than `elementclass`.
    Name,
    /// `elementclass`.
    Keyword,
    /// One to nine digits, with the number that they are.
    Number(u32),
    /// `$` and an identifier.
    Parameter,
    /// `(`, an argument text and its `)`. Where a byte above 126 stands in that text outside
    /// comments, the token ends before the first of them.
    Arguments,
    /// `::`
    Colons,
    /// `->`
    Arrow,
    /// `[`
    LeftBracket,
    /// `]`
    RightBracket,
    /// `{`
    LeftBrace,
    /// `}`
    RightBrace,
    /// `|`
    Bar,
    /// `;`
    Semicolon,
    /// `,`
    Comma,
    /// No token: a byte that begins none, an open comment or an open argument text. It is the last.
    Broken,
    /// The end of the text. It is the last.
    Finish,
}

/// A token and where it stands: its bytes are those of the text from `from` up to before `to`, counted
/// from 0.
#[derive(Clone, Copy, Debug, PartialEq, Eq)]
pub struct Token {
    pub kind: TokenKind,
    pub from: usize,
    pub to: usize,
}

// Whether an argument text may stand behind a token of this kind.
fn is_name_kind(kind: TokenKind) -> bool
    ensures { result ≡ is_name kind }
{
    matches!(kind, TokenKind::Name)
}

// Piece after piece, from the front of the text. A piece is passed over byte by byte.
fn scan(alloc: Global, text: &[u8]) -> Result<Vec<Token>, AllocError>
    ensures { IfOk result (λ v. v.items ≡ tokens_in text.now) }
{
    let mut tokens = Vec::new(alloc);
    let mut named = false;
    let mut skip = 0;
    for at in 0..text.len() {
        if skip > 0 {
            skip -= 1;
            continue;
        }
        match piece_of(&text[at..], named) {
            Piece::Blank(len) => skip = len.saturating_sub(1),
            Piece::Taken(kind, len) => {
                let to = at + len;
                tokens.push(Token { kind, from: at, to })?;
                named = is_name_kind(kind);
                skip = len.saturating_sub(1);
            }
            Piece::Wrong => {
                tokens.push(Token {
                    kind: TokenKind::Broken,
                    from: at,
                    to: at,
                })?;
                return Ok(tokens);
            }
        }
    }
    let end = text.len();
    tokens.push(Token {
        kind: TokenKind::Finish,
        from: end,
        to: end,
    })?;
    Ok(tokens)
}

/// The tokens of a text, in order. The last is `Finish` at the end of the text, or `Broken` at the
/// first byte at which the text has no token.
pub fn tokens_of(alloc: Global, text: &[u8]) -> Result<Vec<Token>, AllocError>
    // Which tokens they are: each is the longest that can stand there.
    ensures tokens { IfOk result (λ v. v.items ≡ tokens_in text.now) }
    // The text is these tokens, each behind white space and comments.
    ensures spelled { IfOk result (λ v. AreTokens 0 text.now v.items) }
    // The text is no other tokens.
    ensures only { IfOk result (λ v. (other : List Token) → AreTokens 0 text.now other → other ≡ v.items) }
    // Only the last ends the text.
    ensures ends { IfOk result (λ v. EndOnce v.items) }
{
    scan(alloc, text)
}
