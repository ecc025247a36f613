//! Captures in hexadecimal, two digits a byte. Values come from the format, and from another reader.
mod merging;
mod reading;
mod streams;
mod writing;

ghost use Rattle.mt_io.specs.Memory.{held_of, written_of, read_faults_of, write_faults_of};

use mt_io::{Failed, Files, MemoryFiles};
use std::alloc::{AllocError, Global};

fn digit(letter: u8) -> u8 {
    match letter {
        b'0'..=b'9' => letter - b'0',
        b'a'..=b'f' => letter - b'a' + 10,
        _ => 0,
    }
}

fn bytes_of(alloc: Global, hex: &str) -> Result<Vec<u8>, AllocError> {
    let mut bytes = Vec::new(alloc);
    for pair in hex.as_bytes().chunks_exact(2) {
        if let [high, low] = pair {
            bytes.push(digit(*high) << 4 | digit(*low))?;
        }
    }
    Ok(bytes)
}

fn push_hex(text: &mut String, alloc: Global, bytes: &[u8]) -> Result<(), AllocError> {
    for byte in bytes {
        text.push_str(&format!(in alloc; "{byte:02x}")?)?;
    }
    Ok(())
}

/// Files that give and take at most so many bytes a call, and one byte at least.
#[derive(Drop)]
struct Pieces {
    files: MemoryFiles,
    most: usize,
}

impl Files for Pieces {
    ghost held = { λ pieces. held_of pieces.files };

    ghost written = { λ pieces. written_of pieces.files };

    ghost read_faults = { λ pieces. read_faults_of pieces.files };

    ghost write_faults = { λ pieces. write_faults_of pieces.files };

    fn read(&mut self, name: &str, buf: &mut [u8]) -> Result<usize, Failed> {
        let room = buf.len().min(self.most.max(1));
        self.files.read(name, &mut buf[..room])
    }

    fn write(&mut self, name: &str, piece: &[u8]) -> Result<usize, Failed> {
        let room = piece.len().min(self.most.max(1));
        self.files.write(name, &piece[..room])
    }
}
