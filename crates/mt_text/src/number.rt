//! Numbers in words.
ghost use Rattle.std.specs.Prelude.{◌≡◌, ◌≤◌, ◌<◌, ◌^◌, length, IfSome};
ghost use Rattle.std.specs.List.{list_all};
ghost use Rattle.mt_text.specs.Byte.{is_digit};
ghost use Rattle.mt_text.specs.Number.{is_hexadecimal, digit_of, decimal_value, hexadecimal_value, decimal_of, hexadecimal_of, hexadecimal_of_length, number_of, number_up_to, decimal_up_to};

use crate::byte::is_decimal;

/// What a digit stands for, 0 where the byte is no hexadecimal digit.
fn digit(byte: u8) -> u64
    ensures value { result ≡ digit_of byte }
    ensures small { result ≤ 15 }
{
    match byte {
        b'0'..=b'9' => u64::from(byte - b'0'),
        b'a'..=b'f' => u64::from(byte - b'a') + 10,
        b'A'..=b'F' => u64::from(byte - b'A') + 10,
        _ => 0,
    }
}

fn is_hexadecimal(byte: u8) -> bool
    ensures { result ≡ is_hexadecimal byte }
{
    matches!(byte, b'0'..=b'9' | b'a'..=b'f' | b'A'..=b'F')
}

fn are_decimal(word: &[u8]) -> bool
    ensures { result ≡ list_all is_digit word.now }
{
    word.iter().all(|byte| is_decimal(*byte))
}

fn are_hexadecimal(word: &[u8]) -> bool
    ensures { result ≡ list_all is_hexadecimal word.now }
{
    word.iter().all(|byte| is_hexadecimal(*byte))
}

/// What the digits stand for in base ten.
#[tactic(auto, unfolding(crate::specs::Number::decimal_value))]
fn decimal_value(word: &[u8]) -> u64
    requires { length word.now ≤ 9 }
    ensures { result ≡ decimal_value word.now }
{
    let mut value = 0;
    for byte in word {
        value = value * 10 + digit(*byte);
    }
    value
}

/// What the digits stand for in base sixteen.
#[tactic(auto, unfolding(crate::specs::Number::hexadecimal_value))]
fn hexadecimal_value(word: &[u8]) -> u64
    requires { length word.now ≤ 12 }
    ensures value { result ≡ hexadecimal_value word.now }
    ensures range { result < 16 ^ length word.now }
{
    let mut value = 0;
    for byte in word {
        value = value * 16 + digit(*byte);
    }
    value
}

/// A decimal number of one to nine digits.
#[tactic(auto, unfolding(crate::specs::Number::decimal_of))]
pub fn decimal(word: &[u8]) -> Option<u64>
    ensures { result ≡ decimal_of word.now }
{
    if word.is_empty() || word.len() > 9 || !are_decimal(word) {
        None
    } else {
        Some(decimal_value(word))
    }
}

/// Decimal digits, one to nine, that stand for at most `greatest`.
#[tactic(auto, unfolding(crate::specs::Number::decimal_up_to))]
pub fn decimal_up_to(greatest: u64, word: &[u8]) -> Option<u64>
    ensures value { result ≡ decimal_up_to greatest word.now }
    ensures range { IfSome result (λ n. n ≤ greatest) }
{
    let found = decimal(word)?;
    (found <= greatest).then_some(found)
}

/// A hexadecimal number of one to eight digits.
#[tactic(auto, unfolding(crate::specs::Number::hexadecimal_of))]
fn hexadecimal(word: &[u8]) -> Option<u64>
    ensures { result ≡ hexadecimal_of word.now }
{
    if word.is_empty() || word.len() > 8 || !are_hexadecimal(word) {
        None
    } else {
        Some(hexadecimal_value(word))
    }
}

/// The number of exactly so many hexadecimal digits, at most twelve.
#[tactic(auto, unfolding(crate::specs::Number::hexadecimal_of_length))]
pub fn hexadecimal_of_length(count: usize, word: &[u8]) -> Option<u64>
    requires { count ≤ 12 }
    ensures value { result ≡ hexadecimal_of_length count word.now }
    ensures range { IfSome result (λ number. number < 16 ^ count) }
{
    if word.len() == count && are_hexadecimal(word) {
        Some(hexadecimal_value(word))
    } else {
        None
    }
}

/// One to nine decimal digits, or `0x` and one to eight hexadecimal digits.
#[tactic(auto, unfolding(crate::specs::Number::number_of))]
fn number(word: &[u8]) -> Option<u64>
    ensures { result ≡ number_of word.now }
{
    if word.len() > 1 && word[0] == b'0' && word[1] == b'x' {
        hexadecimal(&word[2..])
    } else {
        decimal(word)
    }
}

/// A number, one to nine decimal digits or `0x` and one to eight hexadecimal digits, that is at most
/// `greatest`.
#[tactic(auto, unfolding(crate::specs::Number::number_up_to))]
pub fn number_up_to(greatest: u64, word: &[u8]) -> Option<u64>
    ensures value { result ≡ number_up_to greatest word.now }
    ensures range { IfSome result (λ n. n ≤ greatest) }
{
    let found = number(word)?;
    (found <= greatest).then_some(found)
}
