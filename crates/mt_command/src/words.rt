//! Which word is at fault first, or what the command is.
ghost use Rattle.std.specs.Prelude.{◌≡◌, true, ℕ, ◌^◌, ◌<◌, map, length, IfOk, IfErr};
ghost use Rattle.std.specs.String.{string_bytes};
ghost use Rattle.mt_command.specs.Command.{IsCommand, IsWordsFault};
ghost use Rattle.mt_command.specs.Parts.{run_view};
ghost use Rattle.mt_command.specs.Policies.{is_policy};

use crate::binding::Binding;
use crate::reader::Reader;
use std::alloc::{AllocError, Global};
use thiserror::Error;

/// A run of captures through a chain: `run CHAIN SCRIPT BINDING..` with the option `--ports NAME`. All its files
/// differ, and none is `-`.
#[derive(Debug, Drop)]
pub struct Run<'a> {
    /// The file with the chain's text.
    pub chain: &'a str,
    /// The file with the script.
    pub script: &'a str,
    /// The files for devices, in the order of the words.
    pub bindings: Vec<Binding<'a>>,
    /// The policy by which ports are taken: `low` where the words name none.
    pub ports: &'a [u8],
}

/// Why words are no command.
#[derive(Clone, Copy, Debug, PartialEq, Eq, Error)]
pub enum WordsFault {
    /// The word of this number, from 0, is the first at fault; or an operand, a value or the policy `low` is
    /// missing, and this is the number of words.
    #[error("Word {0}")]
    Word(u32),
    /// Memory ran out.
    #[error("NoMemory")]
    NoMemory,
}

impl From<AllocError> for WordsFault {
    ghost use Rattle.std.specs.Prelude.{◌≡◌};
    ghost use Rattle.mt_command.specs.declared.words.WordsFault.TheVariants.{NoMemory as Memory};

    ghost from_gives = { λ _ fault. fault ≡ Memory };

    fn from(_: AllocError) -> WordsFault {
        WordsFault::NoMemory
    }
}

/// The command that the words are, without the program's own name, where policies have the names of `ports`. It
/// takes time in the length of the words, times the logarithm of their number.
pub fn read<'a>(alloc: Global, words: &'a [String], ports: &[&[u8]]) -> Result<Run<'a>, WordsFault>
    requires { length words.now < 2 ^ 32 }
    ensures command { IfOk result (λ run. IsCommand (map (λ name. name.now) ports.now) (map string_bytes words.now) (run_view run)) }
    ensures known { IfOk result (λ run. is_policy (map (λ name. name.now) ports.now) (run_view run).ports ≡ true) }
    ensures fault { IfErr result (IsWordsFault (map (λ name. name.now) ports.now) (map string_bytes words.now)) }
{
    let mut reader = Reader::new(alloc);
    for at in 0..words.len() {
        if !reader.take(words, at as u32, ports)? {
            return Err(WordsFault::Word(at as u32));
        }
    }
    match reader.finish(words, ports) {
        Some(run) => Ok(run),
        None => Err(WordsFault::Word(words.len() as u32)),
    }
}
