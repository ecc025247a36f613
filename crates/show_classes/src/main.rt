//! Prints the classes of configurations: for each class the number of its boxes, and its tree as text. The standard
//! input has the configurations, each in front of a line `====`.
#![tactic(auto)]

mod show;

use mt_click::parse;
use mt_elements::check;
use mt_synth::synthesise;
use std::alloc::Global;
use std::io;
use std::io::Read;

/// The most bytes that the text of a configuration has.
const TEXT_LIMIT: usize = 1_048_576;

/// What is printed of a configuration: a line for each class, or why there are none.
fn told(alloc: Global, text: &str) -> Result<String, std::alloc::AllocError> {
    if text.len() > TEXT_LIMIT {
        return format!(in alloc; "too long\n");
    }
    let graph = match parse(alloc, text.as_bytes()) {
        Ok(graph) => graph,
        Err(fault) => return format!(in alloc; "{fault:?}\n"),
    };
    let chain = match check(alloc, graph) {
        Ok(chain) => chain,
        Err(fault) => return format!(in alloc; "{fault:?}\n"),
    };
    match synthesise(alloc, &chain) {
        Ok(classes) => show::classes(alloc, &classes),
        Err(fault) => format!(in alloc; "{fault:?}\n"),
    }
}

fn main(rt: HostRuntime) -> io::Result<()> {
    let all = io::read_to_string(rt.alloc(), rt.stdin())?;
    for text in all.split("====\n") {
        if !text.is_empty() {
            let lines = told(rt.alloc(), text)?;
            print!(rt; "{lines}====\n")?;
        }
    }
    Ok(())
}
