//! The arguments of a command.
ghost use Rattle.std.specs.Prelude.{◌≡◌, ◌<◌, [], ◌∷◌, length, ok_or, IfOk, OnOk, IfErr};
ghost use Rattle.mt_text.specs.Number.{decimal_of};
ghost use Rattle.mt_script.specs.Script.{words_of, number_from, numbers_of};
ghost use Rattle.mt_script.specs.declared.fault.ScriptWhy.TheVariants.{BadNumber, Missing, Extra};

use crate::fault::ScriptWhy;
use crate::word::first_word;
use mt_text::decimal;
use mt_text::laws::decimal_is_numeral;

/// A number of one to nine decimal digits.
fn short_number(word: &[u8]) -> Option<u32>
    ensures { result ≡ decimal_of word.now }
{
    decimal_is_numeral();
    let found = decimal(word)?;
    Some(found as u32)
}

/// A number of one to nine decimal digits, from the least on.
#[tactic(auto, unfolding(crate::specs::Script::number_from))]
fn number(least: u32, word: &[u8]) -> Result<u32, ScriptWhy>
    ensures { result ≡ ok_or (number_from least word.now) BadNumber }
{
    match short_number(word) {
        Some(found) if least <= found => Ok(found),
        _ => Err(ScriptWhy::BadNumber),
    }
}

/// The first word of what is left of a line, and what stands behind it.
fn argument(rest: &[u8]) -> Result<(&[u8], &[u8]), ScriptWhy>
    ensures word { IfOk result (λ found. words_of rest.now ≡ found.0.now ∷ words_of found.1.now) }
    ensures none { IfErr result (λ why. (why ≡ Missing) × (words_of rest.now ≡ [])) }
{
    match first_word(rest) {
        Some(found) => Ok(found),
        None => Err(ScriptWhy::Missing),
    }
}

/// That no word is left.
pub(crate) fn end(rest: &[u8]) -> Result<(), ScriptWhy>
    ensures none { OnOk result (words_of rest.now ≡ []) }
    ensures some { IfErr result (λ why. (why ≡ Extra) × (0 < length (words_of rest.now))) }
{
    match first_word(rest) {
        Some(_) => Err(ScriptWhy::Extra),
        None => Ok(()),
    }
}

/// One number, from the least on.
#[tactic(auto, using(crate::proofs::Counted::counted), unfolding(crate::specs::Script::numbers_from))]
pub(crate) fn one(least: u32, arguments: &[u8]) -> Result<[u32; 1], ScriptWhy>
    ensures { result ≡ numbers_of (least ∷ []) (words_of arguments.now) }
{
    let (first, rest) = argument(arguments)?;
    end(rest)?;
    Ok([number(least, first)?])
}

/// Two numbers, the first and the second from their leasts on.
#[tactic(auto, using(crate::proofs::Counted::counted), unfolding(crate::specs::Script::numbers_from))]
pub(crate) fn two(least: u32, next_least: u32, arguments: &[u8]) -> Result<[u32; 2], ScriptWhy>
    ensures { result ≡ numbers_of (least ∷ next_least ∷ []) (words_of arguments.now) }
{
    let (first, rest) = argument(arguments)?;
    let (second, rest) = argument(rest)?;
    end(rest)?;
    Ok([number(least, first)?, number(next_least, second)?])
}

/// Three numbers, each from 0 on.
#[tactic(auto, using(crate::proofs::Counted::counted), unfolding(crate::specs::Script::numbers_from))]
pub(crate) fn three(arguments: &[u8]) -> Result<[u32; 3], ScriptWhy>
    ensures { result ≡ numbers_of (0 ∷ 0 ∷ 0 ∷ []) (words_of arguments.now) }
{
    let (first, rest) = argument(arguments)?;
    let (second, rest) = argument(rest)?;
    let (third, rest) = argument(rest)?;
    end(rest)?;
    Ok([number(0, first)?, number(0, second)?, number(0, third)?])
}
