//! Comments.
ghost use Rattle.std.specs.Prelude.{◌≡◌, ◌≤◌, ◌<◌, length, IfOk, IfSome};
ghost use Rattle.mt_syntax.specs.Comment.{line_len, block_len, comment_at, ClosedWithin};

/// What stands at the front of a text.
#[derive(Clone, Copy, Debug, PartialEq, Eq)]
pub enum Comment {
    /// No comment.
    Absent,
    /// A comment of so many bytes: `//` up to before the end of its line, or `/*` up to its `*/`.
    Closed(usize),
    /// `/*` with no `*/` behind it.
    Open,
}

// How many bytes stand before the first line feed.
fn line_length(bytes: &[u8]) -> usize
    ensures length { result ≡ line_len bytes.now }
    ensures within { result ≤ length bytes.now }
{
    bytes.iter().take_while(|b| **b != b'\n').count()
}

// How many bytes the first `*/` ends at.
fn block_length(bytes: &[u8]) -> Option<usize>
    ensures length { result ≡ block_len bytes.now }
    ensures within { IfSome result (λ n. n ≤ length bytes.now) }
{
    for at in 1..bytes.len() {
        if bytes[at - 1] == b'*' && bytes[at] == b'/' {
            return Some(at + 1);
        }
    }
    None
}

/// The comment at the front of a text.
#[tactic(auto, unfolding(crate::specs::Comment::comment_at))]
pub fn comment_of(bytes: &[u8]) -> Comment
    ensures comment { result ≡ comment_at bytes.now }
    ensures within { ClosedWithin (length bytes.now) result }
{
    if bytes.len() < 2 || bytes[0] != b'/' {
        return Comment::Absent;
    }
    if bytes[1] == b'/' {
        return Comment::Closed(line_length(bytes));
    }
    if bytes[1] != b'*' {
        return Comment::Absent;
    }
    match block_length(&bytes[2..]) {
        Some(len) => Comment::Closed(len + 2),
        None => Comment::Open,
    }
}
