//! Tables of texts with their graphs and faults; the values come from the rules of the language.
use crate::{ClickFault, ClickWhy, Graph, parse};
use std::alloc::{AllocError, Global};

mod chains;
mod elements;
mod faults;
mod samples;
mod wires;

// The graph of a text that is short enough.
pub fn graph_of(alloc: Global, text: &[u8]) -> Result<Graph, ClickFault> {
    if text.len() > 1048576 {
        return Err(ClickFault {
            why: ClickWhy::NoMemory,
            line: 0,
            column: 0,
        });
    }
    parse(alloc, text)
}

// A number in decimal.
fn push_number(out: &mut Vec<u8>, alloc: Global, number: u32) -> Result<(), AllocError> {
    let text = format!(in alloc; "{number}")?;
    out.extend_from_slice(text.as_bytes())
}

/// The elements as `Class(argument|argument)name@line`, with a byte between two, or the fault with its line and column.
pub fn described(alloc: Global, text: &[u8], between: u8) -> Result<Vec<u8>, AllocError> {
    let mut out = Vec::new(alloc);
    match graph_of(alloc, text) {
        Ok(graph) => {
            for element in &graph.elements {
                if !out.is_empty() {
                    out.push(between)?;
                }
                out.extend_from_slice(element.class.bytes())?;
                out.push(b'(')?;
                for (at, argument) in element.args.as_slice().iter().enumerate() {
                    if at > 0 {
                        out.push(b'|')?;
                    }
                    out.extend_from_slice(argument.bytes())?;
                }
                out.push(b')')?;
                out.extend_from_slice(element.name.bytes())?;
                out.push(b'@')?;
                push_number(&mut out, alloc, element.line)?;
            }
        }
        Err(fault) => {
            let why = format!(in alloc; "{} {} {}", fault.why, fault.line, fault.column)?;
            out.extend_from_slice(why.as_bytes())?;
        }
    }
    Ok(out)
}

/// The number of elements, and the wires as `from.out>to.into@line`.
pub fn wired(alloc: Global, text: &[u8]) -> Result<Vec<u8>, AllocError> {
    let mut out = Vec::new(alloc);
    match graph_of(alloc, text) {
        Ok(graph) => {
            let count = format!(in alloc; "{}", graph.elements.len())?;
            out.extend_from_slice(count.as_bytes())?;
            for w in &graph.wires {
                let wire = format!(in alloc;
                    " {}.{}>{}.{}@{}",
                    w.from, w.out, w.to, w.into, w.line
                )?;
                out.extend_from_slice(wire.as_bytes())?;
            }
        }
        Err(fault) => {
            let why = format!(in alloc; "{} {} {}", fault.why, fault.line, fault.column)?;
            out.extend_from_slice(why.as_bytes())?;
        }
    }
    Ok(out)
}
