//! From tokens to the phrases of a configuration, and from a text to them.
ghost use Rattle.std.specs.Prelude.{◌≡◌, ◌++◌, ◌⊎◌, ◌≤◌, List, length, IfOk, IfErr, OnOk, MatchResult, Ok};
ghost use Rattle.std.specs.Option.{option_to_list};
ghost use Rattle.mt_syntax.specs.Reading.{Gives, phrases_of_tokens, phrases_in};
ghost use Rattle.mt_syntax.specs.Tokens.{EndOnce};
ghost use Rattle.mt_syntax.specs.Position.{Tells, no_memory};
ghost use Rattle.mt_syntax.specs.Grammar.{OuterTree, IsConfig, ArePrinted, config_phrases};
ghost use Rattle.mt_syntax.specs.Derives.{Derives};
ghost use Rattle.mt_syntax.specs.Stopping.{TellsStop};

use crate::advance::{Stage, advance_of};
use crate::fault::{ClickFault, ClickWhy, ReadError, fault_in};
use crate::phrase::Phrase;
use crate::token::{Token, tokens_of};
use std::alloc::{AllocError, Global};

// Adds the phrase that an advance has, if any.
fn push_phrase(phrases: &mut Vec<Phrase>, phrase: Option<Phrase>) -> Result<(), AllocError>
    ensures { OnOk result (phrases.new.items ≡ phrases.old.items ++ option_to_list phrase) }
{
    match phrase {
        Some(phrase) => {
            phrases.push(phrase)?;
            Ok(())
        }
        None => Ok(()),
    }
}

// Advances until the text ends. Each advance takes a token at least.
fn collect(alloc: Global, tokens: &[Token]) -> Result<Vec<Phrase>, ReadError>
    ensures { Gives (λ v. v.items) result (phrases_of_tokens tokens.now) }
{
    let mut phrases = Vec::new(alloc);
    let mut stage = Stage::Begin;
    let mut inside = false;
    let mut rest = tokens;
    loop {
        match advance_of(stage, inside, rest) {
            Ok(Some((advance, after))) => {
                push_phrase(&mut phrases, advance.phrase)?;
                stage = advance.stage;
                inside = advance.inside;
                rest = after;
            }
            Ok(None) => return Ok(phrases),
            Err(fault) => return Err(ReadError::Fault(fault)),
        }
    }
}

/// The phrases that tokens are, in order, or the fault of the first token with which what precedes
/// begins no configuration.
pub fn phrases_of(alloc: Global, tokens: &[Token]) -> Result<Vec<Phrase>, ReadError>
    // What is read, or which fault it is.
    ensures exact { Gives (λ v. v.items) result (phrases_of_tokens tokens.now) }
    // What is printed for a tree of the grammar is read as that tree, unless memory runs out.
    ensures printed { (tree : List OuterTree) → IsConfig tree → ArePrinted tree tokens.now → Gives (λ v. v.items) result (Ok (config_phrases tree)) }
    // What is read is a tree of the grammar, where only the last token ends the text.
    ensures grammar { EndOnce tokens.now → IfOk result (λ v. (tree : List OuterTree) × IsConfig tree × ArePrinted tree tokens.now × (v.items ≡ config_phrases tree)) }
{
    collect(alloc, tokens)
}

/// The statements of a text, phrase by phrase, or its first fault of reading, by the byte at which it stands.
pub fn read(alloc: Global, text: &[u8]) -> Result<Vec<Phrase>, ReadError>
    ensures { Gives (λ v. v.items) result (phrases_in text.now) }
{
    let tokens = tokens_of(alloc, text)?;
    phrases_of(alloc, &tokens)
}

/// The statements of a text, phrase by phrase, or its first fault of reading: the earliest byte at which
/// the text has no token (Lex), or a token with which what precedes begins no configuration (Syntax).
pub fn statements(alloc: Global, text: &[u8]) -> Result<Vec<Phrase>, ClickFault>
    requires { length text.now ≤ 1048576 }
    // What is read, or which fault it is and where.
    ensures exact { Tells text.now (λ v. v.items) result (phrases_in text.now) }
    // What is read derives a tree of the grammar, and is its phrases.
    ensures read { IfOk result (λ v. (tree : List OuterTree) × Derives text.now tree × (v.items ≡ config_phrases tree)) }
    // What derives a tree of the grammar is read as its phrases, unless memory runs out.
    ensures derived { (tree : List OuterTree) → Derives text.now tree → MatchResult result (λ v. v.items ≡ config_phrases tree) (λ e. e ≡ no_memory) }
    // A text with a fault derives no tree.
    ensures none { IfErr result (λ e. (e ≡ no_memory) ⊎ ((tree : List OuterTree) → Derives text.now tree → ⊥)) }
    // A fault stands at the first token with which what precedes begins no configuration.
    ensures stops { IfErr result (TellsStop text.now) }
{
    match read(alloc, text) {
        Ok(phrases) => Ok(phrases),
        Err(ReadError::Memory) => Err(ClickFault {
            why: ClickWhy::NoMemory,
            line: 0,
            column: 0,
        }),
        Err(ReadError::Fault(fault)) => Err(fault_in(text, fault)),
    }
}
