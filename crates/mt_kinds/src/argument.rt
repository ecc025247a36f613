//! The forms of one argument, beside numbers and addresses.
ghost use Rattle.std.specs.Prelude.{◌≡◌, ◌≤◌, length, map, slice_index, IfOk};
ghost use Rattle.mt_kinds.specs.Arguments.{is_number, is_upper, is_keyword_byte, keyword_len, is_keyword, end_of, words_of};

use crate::End;
use mt_text::number_up_to;
use std::alloc::{AllocError, Global};

/// The greatest number of an output that an argument may name.
pub(crate) const GREATEST_OUTPUT: u64 = 511;

/// Whether an argument is this very number, in any form of numbers.
#[tactic(auto, unfolding(crate::specs::Arguments::is_number))]
pub(crate) fn is_number(number: u64, argument: &[u8]) -> bool
    ensures { result ≡ is_number number argument.now }
{
    match number_up_to(number, argument) {
        Some(found) => found == number,
        None => false,
    }
}

/// The first byte, 0 where there is none.
fn first_byte(argument: &[u8]) -> u8
    ensures { result ≡ slice_index argument.now 0 }
{
    if argument.is_empty() { 0 } else { argument[0] }
}

fn is_upper(byte: u8) -> bool
    ensures { result ≡ is_upper byte }
{
    matches!(byte, b'A'..=b'Z')
}

/// A byte of an upper-case word behind its first.
fn is_keyword_byte(byte: u8) -> bool
    ensures { result ≡ is_keyword_byte byte }
{
    is_upper(byte) || matches!(byte, b'0'..=b'9' | b'_')
}

/// How many bytes of an upper-case word stand at the front.
fn keyword_length(argument: &[u8]) -> usize
    ensures value { result ≡ keyword_len argument.now }
    ensures within { result ≤ length argument.now }
{
    argument
        .iter()
        .take_while(|byte| is_keyword_byte(**byte))
        .count()
}

/// Whether an argument begins with an upper-case word: an upper-case letter, and then upper-case letters,
/// digits and `_` up to a space or the argument's end.
#[tactic(auto, unfolding(crate::specs::Arguments::is_keyword))]
pub(crate) fn is_keyword(argument: &[u8]) -> bool
    ensures { result ≡ is_keyword argument.now }
{
    let end = keyword_length(argument);
    is_upper(first_byte(argument)) && (argument.len() == end || argument[end] == b' ')
}

/// One of the two ends: `src` or `dst`.
#[tactic(auto, unfolding(crate::specs::Arguments::end_of))]
pub(crate) fn end(argument: &[u8]) -> Option<End>
    ensures { result ≡ end_of argument.now }
{
    if argument == b"src".as_slice() {
        Some(End::Src)
    } else if argument == b"dst".as_slice() {
        Some(End::Dst)
    } else {
        None
    }
}

/// The words of an argument between single spaces.
pub(crate) fn words(alloc: Global, argument: &[u8]) -> Result<Vec<&[u8]>, AllocError>
    ensures { IfOk result (λ words. map (λ x. x.now) words.items ≡ words_of argument.now) }
{
    argument.split(|byte| *byte == b' ').collect(alloc)
}
