//! The graph of a configuration: elements, and the wires between their ports. `mt_click` makes one of a text, and
//! chains of elements stand on it. There is nothing to run here; read `Graph` first.
#![tactic(auto)]

use mt_text::{Text, Texts};

/// A flat graph: no compound classes are left in it.
#[derive(Debug, Drop)]
pub struct Graph {
    pub elements: Vec<Element>,
    pub wires: Vec<Wire>,
}

/// An element: its element class, its arguments, its name and the line, from 1, on which it is declared. The
/// name is the scope and the declared name, or the scope alone where it has none. The scope has, for each use of
/// a compound class that encloses the element, from the outermost, the number of that use's first element in
/// decimal and `/`.
#[derive(Debug, Drop)]
pub struct Element {
    pub class: Text,
    pub args: Texts,
    pub name: Text,
    pub line: u32,
}

/// A wire from an output of an element to an input of another or of the same, and the line, from 1, of the `->`
/// at which it leaves the output. Elements are counted from 0 in the order of `elements`, ports from 0.
#[derive(Clone, Copy, Debug, PartialEq, Eq)]
pub struct Wire {
    pub from: u32,
    pub out: u32,
    pub to: u32,
    pub into: u32,
    pub line: u32,
}
