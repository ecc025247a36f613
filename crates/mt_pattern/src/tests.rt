//! What no contract says: the patterns of given texts, and headers that meet them. Values come from the
//! rules of the language and from RFC 791, 768, 792 and 9293, worked out by hand.

mod meaning;
mod nesting;
mod parsing;
