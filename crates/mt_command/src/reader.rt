//! A reader of words, one after the other.
ghost use Rattle.std.specs.Prelude.{◌≡◌, true, List, ℕ, ◌^◌, ◌<◌, map, length, IfOk, IfSome, IfNone};
ghost use Rattle.std.specs.String.{string_bytes};
ghost use Rattle.mt_command.specs.Command.{IsCommand};
ghost use Rattle.mt_command.specs.Parts.{run_view};
ghost use Rattle.mt_command.specs.Reading.{kind_of, Reads, HasTaken};
ghost use Rattle.mt_command.specs.Words.{word_at, is_cut_short};

use crate::operands::Operands;
use crate::policy::{Ports, valued};
use crate::words::Run;
use std::alloc::{AllocError, Global};

/// What a word is before it is looked at.
#[derive(Clone, Copy)]
enum Kind {
    /// The value of the option whose name is the word before.
    Value,
    /// The first `--`.
    Dashes,
    /// A word before it that begins with `-`.
    Option,
    /// Any other word.
    Operand,
}

/// What is read so far.
#[derive(Drop)]
pub(crate) struct Reader<'a> {
    /// A `--` was read.
    behind: bool,
    ports: Ports<'a>,
    operands: Operands<'a>,
}

impl<'a> Reader<'a> {
    pub(crate) fn new(alloc: Global) -> Reader<'a>
        ensures { (names words : List (List ℕ)) → Reads names words 0 result }
    {
        Reader {
            behind: false,
            ports: Ports::Unsaid,
            operands: Operands::new(alloc),
        }
    }

    // Takes the next word, of this number, if it is right: whether it is.
    pub(crate) fn take(
        &mut self,
        words: &'a [String],
        number: u32,
        names: &[&[u8]],
    ) -> Result<bool, AllocError>
        requires within { number < length words.now }
        requires read { Reads (map (λ name. name.now) names.now) (map string_bytes words.now) number self.old }
        ensures { IfOk result (HasTaken (map (λ name. name.now) names.now) (map string_bytes words.now) number self.new) }
    {
        let word = word_of(words, number);
        let said = match kind_of(self.ports.awaits_value(), self.behind, word) {
            Kind::Value => valued(word.as_bytes(), names),
            Kind::Option => self.ports.option(word, names),
            Kind::Dashes => {
                self.behind = true;
                return Ok(true);
            }
            Kind::Operand => return self.operands.add(number, word),
        };
        match said {
            Some(ports) => {
                self.ports = ports;
                Ok(true)
            }
            None => Ok(false),
        }
    }

    // The command, once all words are taken: None where something is missing.
    pub(crate) fn finish(self, words: &'a [String], names: &[&[u8]]) -> Option<Run<'a>>
        requires few { length words.now < 2 ^ 32 }
        requires read { Reads (map (λ name. name.now) names.now) (map string_bytes words.now) (length words.now) self }
        ensures command { IfSome result (λ run. IsCommand (map (λ name. name.now) names.now) (map string_bytes words.now) (run_view run)) }
        ensures missing { IfNone result (is_cut_short (map (λ name. name.now) names.now) (map string_bytes words.now) ≡ true) }
    {
        let [_, chain, script, ..] = self.operands.numbers.as_slice() else {
            return None;
        };
        let Some(ports) = self.ports.policy(names) else {
            return None;
        };
        Some(Run {
            chain: word_of(words, *chain),
            script: word_of(words, *script),
            bindings: self.operands.bindings,
            ports,
        })
    }
}

// The word of a number.
fn word_of<'a>(words: &'a [String], number: u32) -> &'a str
    requires { number < length words.now }
    ensures { result.now ≡ word_at (map string_bytes words.now) number }
{
    words[number as usize].as_str()
}

// The kind of a word, where a value is awaited or not, and a `--` stands before it or not.
#[tactic(auto, unfolding(crate::specs::Reading::kind_of))]
fn kind_of(awaited: bool, behind: bool, word: &str) -> Kind
    ensures { result ≡ kind_of awaited behind word.now }
{
    if awaited {
        Kind::Value
    } else if behind {
        Kind::Operand
    } else if word == "--" {
        Kind::Dashes
    } else if word.starts_with('-') {
        Kind::Option
    } else {
        Kind::Operand
    }
}
