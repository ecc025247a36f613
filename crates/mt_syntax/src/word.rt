//! Words: where they stand in a text, and their bytes.
ghost use Rattle.std.specs.Prelude.{◌≡◌, ◌<◌, ◌≤◌, length, IfSome};
ghost use Rattle.mt_syntax.specs.Words.{bytes_of, inner};

/// The bytes of a text from `from` up to before `to`, counted from 0.
#[derive(Clone, Copy, Debug, PartialEq, Eq)]
pub struct Word {
    pub from: usize,
    pub to: usize,
}

/// The bytes of a word; none where it stands outside the text.
pub fn word_bytes<'a>(text: &'a [u8], word: Word) -> &'a [u8]
    ensures bytes { result.now ≡ bytes_of text.now word }
    ensures inside { 0 < length result.now → word.from < length text.now }
{
    let rest = &text[word.from.min(text.len())..];
    let len = word.to.saturating_sub(word.from).min(rest.len());
    &rest[..len]
}

/// The bytes of an argument text, without its parentheses.
#[tactic(auto, unfolding(crate::specs::Words::inner))]
pub fn inner_bytes<'a>(text: &'a [u8], arguments: Option<Word>) -> &'a [u8]
    ensures bytes { result.now ≡ inner text.now arguments }
    ensures inside { 0 < length result.now → IfSome arguments (λ w. w.from < length text.now) }
{
    match arguments {
        Some(word) => {
            let whole = word_bytes(text, word);
            if whole.len() < 2 {
                &whole[..0]
            } else {
                &whole[1..whole.len() - 1]
            }
        }
        None => &text[..0],
    }
}
