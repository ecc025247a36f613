//! Classes of bytes, and the names that they make.
ghost use Rattle.std.specs.Prelude.{◌≡◌, slice_index};
ghost use Rattle.std.specs.List.{list_all};
ghost use Rattle.mt_text.specs.Byte.{is_white, is_letter, is_digit, is_name_byte, is_identifier};

/// A space, a tab, a line feed or a carriage return.
pub fn is_white_byte(byte: u8) -> bool
    ensures { result ≡ is_white byte }
{
    byte == b' ' || byte == b'\t' || byte == b'\n' || byte == b'\r'
}

/// A byte that an identifier may begin with: a letter or `_`.
pub fn begins_name(byte: u8) -> bool
    ensures { result ≡ is_letter byte }
{
    byte.is_ascii_alphabetic() || byte == b'_'
}

/// A decimal digit.
pub fn is_decimal(byte: u8) -> bool
    ensures { result ≡ is_digit byte }
{
    byte.is_ascii_digit()
}

/// A byte that an identifier may have behind its first: a letter, a digit, `_` or `@`.
pub fn goes_on_name(byte: u8) -> bool
    ensures { result ≡ is_name_byte byte }
{
    begins_name(byte) || is_decimal(byte) || byte == b'@'
}

fn are_name_bytes(word: &[u8]) -> bool
    ensures { result ≡ list_all is_name_byte word.now }
{
    word.iter().all(|byte| goes_on_name(*byte))
}

fn first_byte(word: &[u8]) -> u8
    ensures { result ≡ slice_index word.now 0 }
{
    if word.is_empty() { 0 } else { word[0] }
}

/// Whether a word is an identifier: a letter or `_`, and then letters, digits, `_` and `@`.
#[tactic(auto, unfolding(crate::specs::Byte::is_identifier))]
pub fn is_identifier(word: &[u8]) -> bool
    ensures { result ≡ is_identifier word.now }
{
    begins_name(first_byte(word)) && are_name_bytes(word)
}
