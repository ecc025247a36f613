//! The words of a line.
ghost use Rattle.std.specs.Prelude.{◌≡◌, ◌<◌, ◌≤◌, [], ◌∷◌, length, IfNone, IfSome};
ghost use Rattle.std.specs.List.{prefix_len};
ghost use Rattle.mt_script.specs.Script.{is_blank, is_solid, words_of};

fn is_blank(byte: u8) -> bool
    ensures { result ≡ is_blank byte }
{
    byte == b' ' || byte == b'\t'
}

/// How many spaces and tabs stand in front.
fn blanks(line: &[u8]) -> usize
    ensures value { result ≡ prefix_len is_blank line.now }
    ensures within { result ≤ length line.now }
{
    line.iter().take_while(|byte| is_blank(**byte)).count()
}

/// How many bytes stand in front of the first space or tab.
fn word_length(line: &[u8]) -> usize
    ensures value { result ≡ prefix_len is_solid line.now }
    ensures within { result ≤ length line.now }
{
    line.iter().take_while(|byte| !is_blank(**byte)).count()
}

/// A line without the spaces and tabs in front.
fn without_blanks(line: &[u8]) -> &[u8]
    ensures same { words_of result.now ≡ words_of line.now }
    ensures solid { 0 < length result.now → 0 < prefix_len is_solid result.now }
{
    &line[blanks(line)..]
}

/// The first word of a line, and what stands behind it. None where there is no word.
pub(crate) fn first_word(line: &[u8]) -> Option<(&[u8], &[u8])>
    ensures none { IfNone result (words_of line.now ≡ []) }
    ensures some_byte { IfSome result (λ found. 0 < length found.0.now) }
    ensures word { IfSome result (λ found. words_of line.now ≡ found.0.now ∷ words_of found.1.now) }
{
    let line = without_blanks(line);
    if line.is_empty() {
        return None;
    }
    let end = word_length(line);
    Some((&line[..end], &line[end..]))
}
