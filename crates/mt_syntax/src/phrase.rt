//! The phrases that a configuration is, in the order of the text, and what they are made of.
use crate::word::Word;

/// A class, an element class or a compound class, with its argument text where it has one.
#[derive(Clone, Copy, Debug, PartialEq, Eq)]
pub struct Use {
    pub class: Word,
    /// From `(` to behind `)`.
    pub arguments: Option<Word>,
}

/// What an endpoint names.
#[derive(Clone, Copy, Debug, PartialEq, Eq)]
pub enum Item {
    /// A name alone: an element that is declared under it, or an unnamed element of that class.
    Name(Word),
    /// A name that is declared here, and the use that it names.
    Declared(Word, Use),
    /// A class with an argument text: an unnamed element.
    Made(Use),
}

/// A port that is written out: the byte of its `[`, counted from 0, and its number.
#[derive(Clone, Copy, Debug, PartialEq, Eq)]
pub struct PortNumber {
    pub at: usize,
    pub number: u32,
}

/// An endpoint of a connection, with the ports that are written out; one that is left out is port 0.
#[derive(Clone, Copy, Debug, PartialEq, Eq)]
pub struct Endpoint {
    pub input: Option<PortNumber>,
    pub item: Item,
    pub output: Option<PortNumber>,
}

/// A statement is one phrase or more; `;` and the like are none.
#[derive(Clone, Copy, Debug, PartialEq, Eq)]
pub enum Phrase {
    /// The first endpoint of a connection.
    First(Endpoint),
    /// A further endpoint of the connection, behind the byte of the `->` before it.
    Next(usize, Endpoint),
    /// One of the names, two or more, that a declaration begins with.
    Declared(Word),
    /// The use behind the names of a declaration.
    Made(Use),
    /// `elementclass` and a name: what follows up to `Close` is the body of that compound class.
    Class(Word),
    /// A parameter of the compound class, with its `$`.
    Parameter(Word),
    /// The end of its body.
    Close,
}
