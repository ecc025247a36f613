//! Small chains, with elements that the tests make up.
use crate::clearing::{clear_nodes, is_clear};
use crate::laws::ranks;
use crate::{Elements, lowest_clash, lowest_on_ring};
use mt_graph::Wire;
use mt_packet::Layer;
use mt_reach::Targets;
use std::alloc::{AllocError, Global};
use std::test::Fail;

/// Packets enter at element 0. Elements 10 and above lead each input to the output of its number alone, the others each
/// input to each output. Element 1 makes bare packets of all; element 2 makes IPv4 packets of all at output 0, and gives
/// them on as they are at others. Element 3 takes frames alone, element 4 bare packets and element 5 IPv4 packets.
struct Samples;

impl Elements for Samples {
    ghost use Rattle.std.specs.Prelude.{Bool, true, false, ◌==◌, ◌||◌, ◌&&◌, nat_lt, not, if◌then◌else◌};
    ghost use Rattle.mt_packet.specs.declared.layer.Layer.TheVariants.{Frame, Bare, Ip, Framed};

    ghost behavior = { λ it. record {
      leads = λ element input out. nat_lt element 10 || (input == out);
      enters = λ element. element == 0;
      takes = λ element layer. elim layer as (λ _. Bool) [
        | Frame ↦ not (element == 4 || element == 5)
        | Bare ↦ not (element == 3 || element == 5)
        | Ip ↦ not (element == 3 || element == 4)
        | Framed ↦ not (element == 3 || element == 4 || element == 5)
      ];
      behind = λ element layer out. if element == 1 then Bare else (if (element == 2) && (out == 0) then Ip else layer);
    } };

    fn leads(&self, element: u32, input: u32, out: u32) -> bool {
        element < 10 || input == out
    }

    fn enters(&self, element: u32) -> bool {
        element == 0
    }

    fn takes(&self, element: u32, layer: Layer) -> bool {
        match layer {
            Layer::Frame => !(element == 4 || element == 5),
            Layer::Bare => !(element == 3 || element == 5),
            Layer::Ip => !(element == 3 || element == 4),
            Layer::Framed => !(element == 3 || element == 4 || element == 5),
        }
    }

    fn layer_behind(&self, element: u32, layer: Layer, out: u32) -> Layer {
        if element == 1 {
            Layer::Bare
        } else if element == 2 && out == 0 {
            Layer::Ip
        } else {
            layer
        }
    }
}

// A number in decimal, which a text has.
fn number(text: &str) -> u32 {
    match text.parse::<u32>() {
        Ok(n) => n,
        Err(_) => 0,
    }
}

// The wires of a line, as `from out to into` one after the other.
fn wires_of(alloc: Global, line: &str) -> Result<Vec<Wire>, AllocError> {
    let mut wires = Vec::new(alloc);
    let mut numbers = line.split(' ');
    while let Some(from) = numbers.next() {
        let out = numbers.next().unwrap_or("");
        let to = numbers.next().unwrap_or("");
        let into = numbers.next().unwrap_or("");
        wires.push(Wire {
            from: number(from),
            out: number(out),
            to: number(to),
            into: number(into),
            line: 1,
        })?;
    }
    Ok(wires)
}

/// A line has the lowest element on a ring, `-` for none, and behind a colon the wires.
#[test]
fn lowest_on_a_ring(rt: HostRuntime) -> Result<(), Fail> {
    ranks();
    let cases = "
-:0 0 1 0
-:0 0 1 0 1 0 2 0 0 1 2 0
7:7 0 7 0
7:7 0 7 1
-:10 0 10 1
10:10 0 10 0
-:0 0 10 0 10 0 11 1 11 0 10 0
-:10 0 11 1 11 1 10 1
10:10 0 11 1 11 1 10 0
1:0 0 1 0 2 0 1 0 1 0 2 0
3:6 0 5 0 5 0 6 0 9 0 3 0 3 0 4 0 4 0 9 0
2:8 0 9 0 9 0 8 0 8 1 9 1 4 0 2 0 2 0 4 0
1:5 0 1 0 1 0 5 1 0 0 5 0";
    for case in cases.lines() {
        if let Some((expected, line)) = case.split_once(':') {
            let wires = wires_of(rt.alloc(), line)?;
            let found = lowest_on_ring(rt.alloc(), &Samples, &wires)?;
            assert_eq!(rt;
                (case, found),
                (
                    case,
                    if expected == "-" {
                        None
                    } else {
                        Some(number(expected))
                    }
                )
            );
        }
    }
    Ok(())
}

/// A line has the lowest element that is reached at a layer which it does not take, `-` for none, and the wires.
#[test]
fn lowest_at_a_layer_not_taken(rt: HostRuntime) -> Result<(), Fail> {
    let cases = "
-:0 0 3 0
4:0 0 4 0
-:6 0 4 0
-:0 0 1 0 1 0 4 0
3:0 0 1 0 1 0 3 0
5:0 0 2 0 2 0 5 0 2 1 5 0
-:0 0 2 0 2 0 5 0 2 1 3 0
4:0 0 5 0 5 0 1 0 1 0 3 0 0 0 4 0
5:0 0 5 0 5 0 1 0 1 0 3 0
3:0 0 3 0 0 0 1 0 1 0 3 0
-:0 0 3 0 3 0 0 0
3:0 0 3 0 3 0 1 0 1 0 3 1
-:0 0 11 1 11 0 4 0
4:0 0 11 1 11 1 4 0";
    for case in cases.lines() {
        if let Some((expected, line)) = case.split_once(':') {
            let wires = wires_of(rt.alloc(), line)?;
            let found = lowest_clash(rt.alloc(), &Samples, &wires)?;
            assert_eq!(rt;
                (case, found),
                (
                    case,
                    if expected == "-" {
                        None
                    } else {
                        Some(number(expected))
                    }
                )
            );
        }
    }
    Ok(())
}

// A graph whose nodes are told one behind the other by the nodes that their links lead to.
fn graph_of(alloc: Global, line: &str) -> Result<Vec<Targets>, AllocError> {
    let mut graph = Vec::new(alloc);
    for links in line.split('|') {
        let mut targets = Targets::new(Vec::new(alloc));
        for target in links.split_whitespace() {
            targets.push(number(target) as usize)?;
        }
        graph.push(targets)?;
    }
    Ok(graph)
}

/// A line has a letter for each node, `r` where it is on a ring, and behind a colon the graph. The others are clear.
#[test]
fn nodes_on_no_ring_are_clear(rt: HostRuntime) -> Result<(), Fail> {
    let cases = "
-:
r:0
--:1|
-rr:1|2|1
rr-:1|0 2|
-rr-rr:1|2|1 3|4|5|4
-rrrr-:4|2|3 5|1 4|1 5|
rr-rr-r:1 3|0 4|3|4|3 5|6|6
----:1 2|3|3|";
    for case in cases.lines() {
        if let Some((expected, line)) = case.split_once(':') {
            let graph = graph_of(rt.alloc(), line)?;
            let clear = clear_nodes(rt.alloc(), &graph)?;
            let letters = expected.as_bytes();
            for node in 0..letters.len() {
                assert_eq!(rt;
                    (case, node, is_clear(&clear, node)),
                    (case, node, letters[node] == b'-')
                );
            }
        }
    }
    Ok(())
}
