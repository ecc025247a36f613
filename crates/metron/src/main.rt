//! Runs captures through a chain of network functions.
#![tactic(auto)]

mod command;
mod devices;
mod ends;
mod inputs;
mod laws;
mod outcome;
mod policies;
mod run;
mod serve;
#[cfg(test)]
mod tests;
mod worker;

ghost use Rattle.std.specs.Prelude.{◌<◌, ◌^◌, length};

use mt_io::RealFiles;
use mt_ledger::{Pick, Policies, Policy};
use mt_text::Text;
pub use outcome::{Fault, FileId, Outcome};
pub use run::{metron, serve_command};
use std::alloc::{AllocError, Global};
use std::env::Env;
use std::io::ErrorKind;
use std::process::ExitCode;
use std::{env, io};

/// The status of a run whose words are no command; a word that is no text is none.
const MISUSED: u8 = 1;

/// Ends with the status of the run. Where it is not 0, a line on standard error tells why.
fn main(rt: HostRuntime) -> ExitCode {
    let words = match words(&rt, rt.alloc()) {
        Ok(words) => words,
        Err(error) if error.kind() == ErrorKind::InvalidData => return ExitCode::from(MISUSED),
        Err(_) => return told(&rt, Fault::Memory),
    };
    if words.len() > u32::MAX as usize {
        return ExitCode::from(MISUSED);
    }
    match run_words(&rt, &words) {
        Ok(fault) => told(&rt, fault),
        Err(_) => told(&rt, Fault::Memory),
    }
}

/// Runs the command that the words are. Of the ports at hand the policy `low` takes the first, `high` the last, and `spread`
/// the one whose place is the source port of the flow modulo their number.
fn run_words(rt: &HostRuntime, words: &[String]) -> Result<Fault, AllocError>
    requires { length words.now < 2 ^ 32 }
{
    let alloc = rt.alloc();
    let low: Pick = Box::new(alloc, |_hint, _count| 0)?;
    let high: Pick = Box::new(alloc, |_hint, count: u32| {
        if count == 0 { 0 } else { count - 1 }
    })?;
    let spread: Pick = Box::new(alloc, |hint: u32, count: u32| {
        if count == 0 { 0 } else { hint % count }
    })?;
    let low = Policy::new(Text::copy_of(alloc, b"low")?, low);
    let high = Policy::new(Text::copy_of(alloc, b"high")?, high);
    let spread = Policy::new(Text::copy_of(alloc, b"spread")?, spread);
    let policies = Policies::new(vec![in alloc; low, high, spread]?);
    let files = RealFiles::new(rt, alloc);
    let (outcome, _) = serve_command(alloc, words, files, policies);
    Ok(outcome.fault)
}

/// Prints the line of a fault. That it can't be printed changes no status.
fn told(rt: &HostRuntime, fault: Fault) -> ExitCode {
    if fault != Fault::Done {
        let _ = eprintln!(rt; "{fault}");
    }
    ExitCode::from(fault.status())
}

/// The words behind the program's own name.
fn words(rt: &(impl Env + AllocGlobal), alloc: Global) -> io::Result<Vec<String>> {
    let mut words = Vec::new(alloc);
    for word in env::args(rt)?.skip(1) {
        words.push(word)?;
    }
    Ok(words)
}
