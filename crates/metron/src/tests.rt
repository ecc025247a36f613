//! Runs over files in memory.
mod devices;
mod failing;
mod frames;
mod lines;
mod refused;
mod rewriters;
mod rows;

use crate::{Fault, Outcome, metron};
use mt_io::MemoryFiles;
use mt_ledger::{Pick, Policies, Policy};
use mt_text::Text;
use std::alloc::{AllocError, Global};
use std::process::Abort;

const STRAIGHT: &str = "FromDevice(a) -> ToDevice(b);";

const WORDS: [&str; 5] = ["run", "chain", "script", "in:a=in", "out:b=out"];

// Little-endian, times in nanoseconds, version 2.4, snaplen 262,144, Ethernet.
const HEADER: [u8; 24] = [
    0x4d, 0x3c, 0xb2, 0xa1, 0x02, 0x00, 0x04, 0x00, 0, 0, 0, 0, 0, 0, 0, 0, 0x00, 0x00, 0x04, 0x00,
    0x01, 0x00, 0x00, 0x00,
];

// A UDP packet from 10.0.0.5:5000 to 198.51.100.9:53.
const UDP: [u8; 46] = [
    0x02, 0x00, 0x00, 0x00, 0x00, 0x02, 0x02, 0x00, 0x00, 0x00, 0x00, 0x01, 0x08, 0x00, 0x45, 0x00,
    0x00, 0x20, 0x00, 0x01, 0x00, 0x00, 0x40, 0x11, 0x46, 0x8b, 0x0a, 0x00, 0x00, 0x05, 0xc6, 0x33,
    0x64, 0x09, 0x13, 0x88, 0x00, 0x35, 0x00, 0x0c, 0xf3, 0x10, 0x61, 0x62, 0x63, 0x64,
];

// An ARP request for 10.0.0.1.
const ARP: [u8; 42] = [
    0xff, 0xff, 0xff, 0xff, 0xff, 0xff, 0x02, 0x00, 0x00, 0x00, 0x00, 0x01, 0x08, 0x06, 0x00, 0x01,
    0x08, 0x00, 0x06, 0x04, 0x00, 0x01, 0x02, 0x00, 0x00, 0x00, 0x00, 0x01, 0x0a, 0x00, 0x00, 0x05,
    0x00, 0x00, 0x00, 0x00, 0x00, 0x00, 0x0a, 0x00, 0x00, 0x01,
];

// The head of a record, the time below 256 nanoseconds and the frame below 256 bytes.
fn head(time: u8, len: u8) -> [u8; 16] {
    [0, 0, 0, 0, time, 0, 0, 0, len, 0, 0, 0, len, 0, 0, 0]
}

fn words(alloc: Global, list: &[&str]) -> Result<Vec<String>, AllocError> {
    let mut words = Vec::new(alloc);
    for word in list {
        words.push(String::from_str(alloc, word)?)?;
    }
    Ok(words)
}

fn joined(alloc: Global, parts: &[&[u8]]) -> Result<Vec<u8>, AllocError> {
    let mut all = Vec::new(alloc);
    for part in parts {
        all.extend_from_slice(part)?;
    }
    Ok(all)
}

// A chain, an empty script and a capture.
fn files(alloc: Global, chain: &str, capture: &[u8]) -> Result<MemoryFiles, AllocError> {
    let mut files = MemoryFiles::new(alloc);
    files.hold("chain", chain.as_bytes())?;
    files.hold("script", b"")?;
    files.hold("in", capture)?;
    Ok(files)
}

fn run_words(alloc: Global, list: &[&str], files: &mut MemoryFiles) -> Result<Outcome, AllocError> {
    let words = words(alloc, list)?;
    if words.len() > u32::MAX as usize {
        return Err(AllocError);
    }
    let low: Pick = Box::new(alloc, |_hint, _count| 0)?;
    let high: Pick = Box::new(alloc, |_hint, count: u32| {
        if count == 0 { 0 } else { count - 1 }
    })?;
    let spread: Pick = Box::new(alloc, |hint: u32, count: u32| {
        if count == 0 { 0 } else { hint % count }
    })?;
    let low = Policy::new(Text::copy_of(alloc, b"low")?, low);
    let high = Policy::new(Text::copy_of(alloc, b"high")?, high);
    let spread = Policy::new(Text::copy_of(alloc, b"spread")?, spread);
    let policies = Policies::new(vec![in alloc; low, high, spread]?);
    Ok(metron(alloc, &words, files, policies))
}

fn run(alloc: Global, files: &mut MemoryFiles) -> Result<Outcome, AllocError> {
    run_words(alloc, &WORDS, files)
}

fn check(rt: &impl Abort, outcome: &Outcome, status: u8, fault: Fault, order: &[u32]) {
    assert!(rt; outcome.fault == fault);
    assert!(rt; outcome.status == status);
    assert!(rt; outcome.order() == order);
}
