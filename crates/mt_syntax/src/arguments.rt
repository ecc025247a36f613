//! Argument texts: where they end, and the arguments in them.
ghost use Rattle.std.specs.Prelude.{◌≡◌, ◌≤◌, ◌<◌, ◌^◌, min, length, IfOk, IfSome, OnOk};
ghost use Rattle.std.specs.List.{list_all};
ghost use Rattle.mt_text.specs.Byte.{is_white};
ghost use Rattle.mt_syntax.specs.Comment.{bare};
ghost use Rattle.mt_syntax.specs.Closing.{closing, plain_len, depth_after};
ghost use Rattle.mt_syntax.specs.Arguments.{shown, shown_index, joined, tidy, separated};

use crate::comment::{Comment, comment_of};
use mt_text::{Text, is_white_byte};
use std::alloc::{AllocError, Global};

// How many parentheses are open behind a byte.
fn next_depth(depth: usize, byte: u8) -> usize
    requires { depth < 2 ^ 63 }
    ensures { result ≡ depth_after depth byte }
{
    match byte {
        b'(' => depth + 1,
        b')' => depth.saturating_sub(1),
        _ => depth,
    }
}

/// How many bytes the `)` ends at that closes an argument text, of which the bytes behind `(` are
/// given. A parenthesis in a comment does not count.
pub fn closing_length(body: &[u8]) -> Option<usize>
    ensures length { result ≡ closing 0 (bare body.now) }
    ensures within { IfSome result (λ n. n ≤ length body.now) }
{
    let mut depth = 0;
    let mut skip = 0;
    for at in 0..body.len() {
        if skip > 0 {
            skip -= 1;
            continue;
        }
        match comment_of(&body[at..]) {
            Comment::Closed(len) => skip = len.saturating_sub(1),
            Comment::Open => return None,
            Comment::Absent => {
                if body[at] == b')' && depth == 0 {
                    return Some(at + 1);
                }
                depth = next_depth(depth, body[at]);
            }
        }
    }
    None
}

/// How many bytes stand before the first above 126 outside comments, of at most so many; all of these
/// where there is none. No more than `most` bytes are looked at, but for a comment that begins in them.
pub fn plain_length(body: &[u8], most: usize) -> usize
    ensures length { result ≡ min most (plain_len (bare body.now)) }
{
    let end = most.min(body.len());
    let mut skip = 0;
    for at in 0..end {
        if skip > 0 {
            skip -= 1;
            continue;
        }
        match comment_of(&body[at..]) {
            Comment::Closed(len) => skip = len.saturating_sub(1),
            Comment::Open => return end,
            Comment::Absent => {
                if body[at] > 126 {
                    return at;
                }
            }
        }
    }
    end
}

/// The bytes of an argument text without its comments, and without its parentheses.
pub fn shown_of(alloc: Global, body: &[u8]) -> Result<Vec<u8>, AllocError>
    ensures { IfOk result (λ v. v.items ≡ shown body.now) }
{
    let mut bytes = Vec::new(alloc);
    let mut skip = 0;
    for at in 0..body.len() {
        if skip > 0 {
            skip -= 1;
            continue;
        }
        match comment_of(&body[at..]) {
            Comment::Closed(len) => skip = len.saturating_sub(1),
            Comment::Open => return Ok(bytes),
            Comment::Absent => bytes.push(body[at])?,
        }
    }
    Ok(bytes)
}

/// Where the byte of a number stands, both counted from 0, that no comment hides; the length of the text where there
/// are not so many.
pub fn index_shown(body: &[u8], number: usize) -> usize
    ensures index { result ≡ shown_index (bare body.now) number }
    ensures within { result ≤ length body.now }
{
    let mut left = number;
    let mut skip = 0;
    for at in 0..body.len() {
        if skip > 0 {
            skip -= 1;
            continue;
        }
        match comment_of(&body[at..]) {
            Comment::Closed(len) => skip = len.saturating_sub(1),
            Comment::Open => return body.len(),
            Comment::Absent => {
                if left == 0 {
                    return at;
                }
                left -= 1;
            }
        }
    }
    body.len()
}

// Adds a byte, behind a space where white space separates it from what is there.
fn push_after(out: &mut Vec<u8>, gap: bool, byte: u8) -> Result<(), AllocError>
    ensures { OnOk result (out.new.items ≡ joined out.old.items gap byte) }
{
    if gap && !out.is_empty() {
        out.push(b' ')?;
    }
    out.push(byte)?;
    Ok(())
}

/// An argument with no white space at its ends, and one space for each run of it within.
pub fn tidied(alloc: Global, bytes: &[u8]) -> Result<Text, AllocError>
    ensures { IfOk result (λ t. t ≡ tidy bytes.now) }
{
    let mut out = Vec::new(alloc);
    let mut gap = false;
    for byte in bytes {
        if is_white_byte(*byte) {
            gap = true;
        } else {
            push_after(&mut out, gap, *byte)?;
            gap = false;
        }
    }
    Ok(Text::new(out))
}

// Whether all of a text is white space.
fn is_blank(text: &[u8]) -> bool
    ensures { result ≡ list_all is_white text.now }
{
    text.iter().all(|b| is_white_byte(*b))
}

/// The arguments of an argument text whose comments are gone: what stands between the commas
/// outside parentheses, each without the white space at its ends and with one space for each run
/// of it within. A text of white space alone has no arguments.
#[tactic(auto, unfolding(crate::specs::Arguments::separated))]
pub fn arguments_of(alloc: Global, text: &[u8]) -> Result<Vec<Text>, AllocError>
    ensures { IfOk result (λ v. v.items ≡ separated text.now) }
{
    let mut arguments = Vec::new(alloc);
    if is_blank(text) {
        return Ok(arguments);
    }
    let mut depth = 0;
    let mut from = 0;
    for at in 0..text.len() {
        if text[at] == b',' && depth == 0 {
            arguments.push(tidied(alloc, &text[from..at])?)?;
            from = at + 1;
        } else {
            depth = next_depth(depth, text[at]);
        }
    }
    arguments.push(tidied(alloc, &text[from..])?)?;
    Ok(arguments)
}
