//! The actions of a configuration, and what they create.
use mt_graph::Element;
use mt_syntax::{Fault, Use, Word};

/// An end of a connection, with its port.
#[derive(Clone, Copy, Debug, PartialEq, Eq)]
pub enum Side {
    /// The border of the body: `input` where the connection begins, `output` where it ends.
    Border(u32),
    /// What is created at a byte of the text, and its port.
    Created(usize, u32),
}

/// What the walk comes to: a fault, or what a phrase does. A compound class stands as its number, from 0 in the
/// order of declaration. Bytes of the text are counted from 0.
#[derive(Clone, Copy, Debug, PartialEq, Eq)]
pub enum Action {
    /// The declaration of a compound class: up to `Close` stands its body.
    Class,
    /// A parameter of the compound class, with its `$`.
    Parameter(Word),
    /// The end of its body.
    Close,
    /// A name at fault. It is told where it stands, also in a body that no use walks.
    Name(Fault),
    /// A port that the compound class does not name. In a body it is told at each use.
    MissingPort(Fault),
    /// The arguments of a use of the compound class of that number are counted.
    Count(usize, Use),
    /// So many elements of a use come, which all have room or none.
    Room(usize, Use),
    /// An element comes, with the name under which it is declared.
    Element(Option<Word>, Use),
    /// The body of the compound class of that number is walked, for a use that is created at a byte of the text.
    Enter(usize, Use, usize),
    /// A connection, behind the byte of its `->`.
    Connect(usize, Side, Side),
}

/// What is created at a byte of the text: the element of that number, or the use of a compound class of that number.
#[derive(Clone, Copy, Debug, PartialEq, Eq)]
pub enum CreatedItem {
    Element(u32),
    Use(usize),
}

/// What is created in the use of a number, which is 0 outside compound classes, at a byte of the text (`offset`).
#[derive(Clone, Copy, Debug, PartialEq, Eq)]
pub struct Created {
    pub enclosing: usize,
    pub offset: usize,
    pub item: CreatedItem,
}

/// A connection in the use of a number; `arrow` is the byte of its `->`.
#[derive(Clone, Copy, Debug, PartialEq, Eq)]
pub struct Connected {
    pub enclosing: usize,
    pub arrow: usize,
    pub from: Side,
    pub to: Side,
}

/// The elements, what is created in each use and where, and the connections of each use.
#[derive(Drop)]
pub struct Built {
    pub elements: Vec<Element>,
    pub created: Vec<Created>,
    pub connected: Vec<Connected>,
}
