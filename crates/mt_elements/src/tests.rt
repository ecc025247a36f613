//! Small graphs, and what is told of each.
ghost use Rattle.std.specs.Prelude.{IfOk};
ghost use Rattle.std.specs.List.{All};
ghost use Rattle.mt_elements.specs.Described.{HasFewArguments};

use crate::laws::one_answer;
use crate::{Chain, ChainFault, ChainWhy, check};
use mt_graph::{Element, Graph, Wire};
use mt_text::{Text, Texts};
use std::alloc::{AllocError, Global};
use std::test::Fail;

// A number in decimal, which a text has.
fn number(text: &str) -> u32 {
    match text.parse::<u32>() {
        Ok(n) => n,
        Err(_) => 0,
    }
}

// The element of a line, a class and at most one argument; its name is its class.
fn element_of(alloc: Global, text: &str) -> Result<Element, AllocError>
    ensures { IfOk result HasFewArguments }
{
    let (line, words) = text.split_once(' ').unwrap_or((text, ""));
    let (class, argument) = words.split_once(' ').unwrap_or((words, ""));
    let mut args = Vec::new(alloc);
    if !argument.is_empty() {
        args.push(Text::copy_of(alloc, argument.as_bytes())?)?;
    }
    Ok(Element {
        class: Text::copy_of(alloc, class.as_bytes())?,
        args: Texts::new(args),
        name: Text::copy_of(alloc, class.as_bytes())?,
        line: number(line),
    })
}

// Elements, with `;` between them.
fn elements_of(alloc: Global, text: &str) -> Result<Vec<Element>, AllocError>
    ensures { IfOk result (λ v. All HasFewArguments v.items) }
{
    let mut elements = Vec::new(alloc);
    for part in text.split(';') {
        let element = element_of(alloc, part)?;
        elements.push(element)?;
    }
    Ok(elements)
}

// Wires of line 9, as `from out to into` one after the other.
fn wires_of(alloc: Global, text: &str) -> Result<Vec<Wire>, AllocError> {
    let mut wires = Vec::new(alloc);
    let mut numbers = text.split(' ');
    while let Some(from) = numbers.next() {
        let out = numbers.next().unwrap_or("");
        let to = numbers.next().unwrap_or("");
        let into = numbers.next().unwrap_or("");
        wires.push(Wire {
            from: number(from),
            out: number(out),
            to: number(to),
            into: number(into),
            line: 9,
        })?;
    }
    Ok(wires)
}

// The name of a cause.
fn name_of(why: ChainWhy) -> &'static str {
    match why {
        ChainWhy::UnknownClass => "UnknownClass",
        ChainWhy::BadArgs => "BadArgs",
        ChainWhy::NoSuchPort => "NoSuchPort",
        ChainWhy::TwiceWired => "TwiceWired",
        ChainWhy::Unwired => "Unwired",
        ChainWhy::Cycle => "Cycle",
        ChainWhy::LayerClash => "LayerClash",
        ChainWhy::PoolOverlap => "PoolOverlap",
        ChainWhy::NoDevice => "NoDevice",
        ChainWhy::NoMemory => "NoMemory",
    }
}

// What is told: a cause, an element and a line, or the numbers of elements and wires.
fn told(answer: &Result<Chain, ChainFault>) -> (&'static str, u32, u32) {
    match answer {
        Ok(chain) => (
            "ok",
            chain.elements(),
            u32::try_from(chain.wires()).unwrap_or(0),
        ),
        Err(fault) => (name_of(fault.why), fault.element, fault.line),
    }
}

/// A line has what is told, elements as a line, a class and an argument, and wires.
#[test]
fn graphs_are_chains_or_refused(rt: HostRuntime) -> Result<(), Fail> {
    one_answer();
    let cases = "
ok 2 1:1 FromDevice eth0;2 ToDevice eth1:0 0 1 0
UnknownClass 1 2:1 FromDevice eth0;2 Foo:0 0 1 0
BadArgs 0 1:1 FromDevice;2 Discard:0 0 1 0
BadArgs 1 2:1 FromDevice eth0;2 FromDevice eth0:0 0 1 0
NoSuchPort 0 9:1 FromDevice eth0;2 Discard:0 1 1 0
NoSuchPort 1 9:1 FromDevice eth0;2 Discard:0 0 1 1
TwiceWired 0 9:1 FromDevice eth0;2 Discard:0 0 1 0 0 0 1 0
Unwired 1 2:1 FromDevice eth0;2 Null:0 0 1 0
Cycle 1 2:1 FromDevice eth0;2 Null:0 0 1 0 1 0 1 0
LayerClash 1 2:1 FromDevice eth0;2 DecIPTTL;3 Discard:0 0 1 0 1 0 2 0
PoolOverlap 3 4:1 FromDevice eth0;2 Strip 14;3 CheckIPHeader;4 IPRewriter pattern 10.0.0.1 1000-2000 - - 0 0;5 IPRewriter pattern 10.0.0.1 1500-2500 - - 0 0;6 Discard:0 0 1 0 1 0 2 0 2 0 3 0 3 0 4 0 4 0 5 0
NoDevice 0 1:1 Null;2 Discard:0 0 1 0";
    for case in cases.lines() {
        if let Some((expected, graph)) = case.split_once(':') {
            let (name, place) = expected.split_once(' ').unwrap_or((expected, ""));
            let (element, line) = place.split_once(' ').unwrap_or((place, ""));
            let (elements, wires) = graph.split_once(':').unwrap_or((graph, ""));
            let elements = elements_of(rt.alloc(), elements)?;
            let wires = wires_of(rt.alloc(), wires)?;
            if elements.len() <= 512 {
                let answer = check(rt.alloc(), Graph { elements, wires });
                assert_eq!(rt;
                    (case, told(&answer)),
                    (case, (name, number(element), number(line)))
                );
            }
        }
    }
    Ok(())
}
