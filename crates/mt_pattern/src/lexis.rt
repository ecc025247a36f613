//! How a text falls into tokens.
ghost use Rattle.std.specs.Prelude.{◌≡◌, ◌≤◌, ◌<◌, ◌+◌, length, drop, slice_index};
ghost use Rattle.std.specs.List.{prefix_len};
ghost use Rattle.mt_pattern.specs.Lexis.{sign_of, sign_len, ends_word_at, word_len, token_len, next_offset, token_at};
ghost use Rattle.mt_text.specs.Byte.{is_white};

use mt_text::is_white_byte;

/// How much white space stands at the front.
fn space_length(text: &[u8]) -> usize
    ensures value { result ≡ prefix_len is_white text.now }
    ensures within { result ≤ length text.now }
{
    text.iter().take_while(|byte| is_white_byte(**byte)).count()
}

/// The byte at a offset, 0 past the end.
fn byte_at(text: &[u8], offset: usize) -> u8
    ensures { result ≡ slice_index text.now offset }
{
    if offset < text.len() { text[offset] } else { 0 }
}

/// The length of the sign that begins with these two bytes, 0 where none does.
fn sign(first: u8, second: u8) -> usize
    ensures { result ≡ sign_of first second }
{
    if first == b'(' || first == b')' || first == b'!' {
        return 1;
    }
    if first == b'>' || first == b'<' {
        return if second == b'=' { 2 } else { 1 };
    }
    if (first == b'|' || first == b'&') && second == first {
        2
    } else {
        0
    }
}

/// The length of the sign at the front, 0 where there is none.
fn sign_length(text: &[u8]) -> usize
    ensures { result ≡ sign_len text.now }
{
    sign(byte_at(text, 0), byte_at(text, 1))
}

/// The length of the word at the front: it runs up to white space, a sign or the end.
#[tactic(auto, using(std::proofs::lemmas::List::take_rest, crate::proofs::Words::word_more, crate::proofs::Words::word_end, crate::proofs::Words::no_word), unfolding(crate::specs::Lexis::word_len))]
fn word_length(text: &[u8]) -> usize
    ensures value { result ≡ word_len text.now }
    ensures within { result ≤ length text.now }
{
    let mut offset = 0;
    while offset < text.len() && !ends_word(&text[offset..]) {
        offset += 1;
    }
    offset
}

/// Whether white space or a sign stands at the front.
#[tactic(auto, unfolding(crate::specs::Lexis::ends_word_at))]
fn ends_word(text: &[u8]) -> bool
    requires { 0 < length text.now }
    ensures { result ≡ ends_word_at text.now }
{
    is_white_byte(text[0]) || sign_length(text) > 0
}

/// The length of the token at the front of a text that does not begin with white space.
#[tactic(auto, unfolding(crate::specs::Lexis::token_len))]
fn token_length(text: &[u8]) -> usize
    ensures value { result ≡ token_len text.now }
    ensures within { result ≤ length text.now }
{
    let length = sign_length(text);
    if length > 0 {
        length
    } else {
        word_length(text)
    }
}

/// The offset of the first token from a offset on, or the length of the text.
#[tactic(auto, using(std::proofs::lemmas::List::take_rest))]
pub(crate) fn next_offset(text: &[u8], offset: usize) -> usize
    requires { offset ≤ length text.now }
    ensures offset { result ≡ next_offset text.now offset }
    ensures within { result ≤ length text.now }
{
    offset + space_length(&text[offset..])
}

/// The token at a offset where no white space stands.
#[tactic(auto, using(std::proofs::lemmas::List::take_rest))]
pub(crate) fn token(text: &[u8], offset: usize) -> &[u8]
    requires { offset ≤ length text.now }
    ensures word { result.now ≡ (token_at text.now offset).word }
    ensures length { length result.now ≡ token_len (drop offset text.now) }
    ensures within { offset + length result.now ≤ length text.now }
{
    let rest = &text[offset..];
    &rest[..token_length(rest)]
}
