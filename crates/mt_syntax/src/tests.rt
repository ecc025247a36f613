//! Tables of short texts; the values come from the rules of the language.
mod arguments;
mod reading;
