//! From a text to its pattern.
ghost use Rattle.std.specs.Prelude.{IfOk, IfErr};
ghost use Rattle.mt_pattern.specs.Parser.{parse_of};
ghost use Rattle.mt_pattern.specs.Cause.{IsOnlyPattern, IsCause, Tells};

use crate::keyword::keyword_of;
use crate::lexis::{next_offset, token};
use crate::parser::Parser;
use crate::pattern::Pattern;
use std::alloc::Global;

/// Why a text is no pattern.
#[derive(Clone, Copy, Debug, PartialEq, Eq)]
pub enum PatternFault {
    /// The offset in bytes of the first token with which what precedes begins no pattern, or the length
    /// of the text, where all of it begins a pattern and is none.
    Bad(usize),
    /// Memory ran out.
    NoMemory,
}

impl Pattern {
    /// The pattern that a text is, in the language of IPFilter and IPClassifier. No call is kept for
    /// what is open, so a text may nest as deep as it is long.
    pub fn parse(alloc: Global, text: &[u8]) -> Result<Pattern, PatternFault>
        ensures pattern { IfOk result (λ p. IsOnlyPattern text.now p) }
        ensures fault { IfErr result (λ why. IsCause text.now why) }
        ensures read { Tells (parse_of text.now) result }
    {
        let mut parser = Parser::new(alloc);
        let mut offset = 0;
        loop {
            offset = next_offset(text, offset);
            if offset == text.len() {
                return match parser.finish(alloc) {
                    Ok(Some(pattern)) => Ok(pattern),
                    Ok(None) => Err(PatternFault::Bad(offset)),
                    Err(_) => Err(PatternFault::NoMemory),
                };
            }
            let word = token(text, offset);
            match parser.step(alloc, keyword_of(word), word) {
                Ok(Some(next)) => parser = next,
                Ok(None) => return Err(PatternFault::Bad(offset)),
                Err(_) => return Err(PatternFault::NoMemory),
            }
            offset += word.len();
        }
    }
}
