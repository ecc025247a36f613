//! From a text to its graph.
ghost use Rattle.std.specs.Prelude.{◌≤◌, length, IfOk};
ghost use Rattle.mt_syntax.specs.Reading.{Gives};
ghost use Rattle.mt_click.specs.Stacks.{state};
ghost use Rattle.mt_click.specs.Building.{built_in, Walks, Finds};
ghost use Rattle.mt_click.specs.Graphs.{Parses, IsOnly, Refuses};
ghost use Rattle.mt_click.specs.Sound.{AreWithin, AreNamesApart, AreArgumentsFew};

use crate::action::Built;
use crate::connections::connections_of;
use crate::resolving::actions_of;
use crate::walk::built_of;
use crate::wires::{paths_of, wires_of};
use mt_graph::Graph;
use mt_syntax::laws::texts_are_read;
use mt_syntax::{ClickFault, ClickWhy, ReadError, fault_in, read};
use std::alloc::Global;

// What a text builds.
fn expanded(alloc: Global, text: &[u8]) -> Result<Built, ReadError>
    requires { length text.now ≤ 1048576 }
    ensures { Gives state result (built_in text.now) }
{
    let phrases = read(alloc, text)?;
    let actions = actions_of(alloc, text, &phrases)?;
    built_of(alloc, text, &actions)
}

// The graph of a text, or its fault by the byte at which it stands.
fn built(alloc: Global, text: &[u8]) -> Result<Graph, ReadError>
    requires { length text.now ≤ 1048576 }
    ensures { Walks text.now result }
{
    let built = expanded(alloc, text)?;
    let connections = connections_of(alloc, &built)?;
    let paths = paths_of(alloc, &connections)?;
    let wires = wires_of(alloc, text, &paths)?;
    Ok(Graph {
        elements: built.elements,
        wires,
    })
}

// The graph of a text, or its fault with line and column.
fn found(alloc: Global, text: &[u8]) -> Result<Graph, ClickFault>
    requires { length text.now ≤ 1048576 }
    ensures { Finds text.now result }
{
    match built(alloc, text) {
        Ok(graph) => Ok(graph),
        Err(ReadError::Memory) => Err(ClickFault {
            why: ClickWhy::NoMemory,
            line: 0,
            column: 0,
        }),
        Err(ReadError::Fault(fault)) => Err(fault_in(text, fault)),
    }
}

/// The graph of a configuration text of at most 1,048,576 bytes, or its first fault. The elements stand
/// in the order of their declarations. There is a wire for each `->` at which a path of
/// connections, through ports of uses of classes, leaves an output of an element, and each input of an
/// element that it comes to; wires stand in the order of these `->`, and at one `->` by the numbers from,
/// out, to and into.
pub fn parse(alloc: Global, text: &[u8]) -> Result<Graph, ClickFault>
    requires { length text.now ≤ 1048576 }
    // A graph of the text, or its first fault at line and column, unless memory runs out.
    ensures exact { Parses text.now result }
    // No other graph is one of the text.
    ensures only { IfOk result (λ g. IsOnly text.now g) }
    // A fault is told only where no graph is one of the text, and no other fault.
    ensures none { Refuses text.now result }
    // There are at most 512 elements.
    ensures few { IfOk result (λ g. length g.elements.items ≤ 512) }
    // Wires join elements that are there.
    ensures within { IfOk result (λ g. AreWithin (length g.elements.items) g.wires.items) }
    // No two elements have one name, unless it is empty or ends with `/`.
    ensures names { IfOk result (λ g. AreNamesApart g.elements.items) }
    // No element has more than 1,048,576 arguments.
    ensures arguments { IfOk result (λ g. AreArgumentsFew 1048576 g.elements.items) }
{
    // The laws of texts, for the proof.
    texts_are_read();
    found(alloc, text)
}
