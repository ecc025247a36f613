//! A frame, and a frame as it arrived.
ghost use Rattle.std.specs.Prelude.{◌≡◌, ◌+◌, ◌≤◌, ◌++◌, length, take, drop, OnOk, OnErr};

use std::alloc::AllocError;
use std::marker::Model;

/// The bytes of an Ethernet frame, from the destination address on, with no preamble and no frame
/// check sequence. A contract sees the list of its bytes.
#[derive(Drop)]
pub struct Frame {
    bytes: Vec<u8>,
}

impl Model for Frame {
    ghost use Rattle.std.specs.Prelude.{List, ℕ};

    ghost Value = { List ℕ };

    ghost view = { λ f. f.bytes.items };
}

impl Frame {
    /// The frame with these bytes.
    pub fn new(bytes: Vec<u8>) -> Frame
        ensures { result ≡ bytes.items }
    {
        Frame { bytes }
    }

    /// The bytes of the frame.
    pub fn bytes(&self) -> &[u8]
        ensures { result.now ≡ self.now }
    {
        &self.bytes
    }

    /// The bytes, given back without taking memory.
    pub fn into_bytes(self) -> Vec<u8>
        ensures { result.items ≡ self }
    {
        self.bytes
    }

    /// Puts the piece in at an offset; the bytes from there on follow it. Where there is no memory for it,
    /// the frame stays as it was.
    pub fn insert(&mut self, at: usize, piece: &[u8]) -> Result<(), AllocError>
        requires { at ≤ length self.old }
        ensures inserted { OnOk result (self.new ≡ take at self.old ++ piece.now ++ drop at self.old) }
        ensures unchanged { OnErr result (self.new ≡ self.old) }
    {
        self.bytes.extend_from_slice(piece)?;
        self.bytes[at..].rotate_right(piece.len());
        Ok(())
    }

    /// Takes bytes away from an offset on.
    pub fn remove(&mut self, at: usize, count: usize)
        requires { at + count ≤ length self.old }
        ensures { self.new ≡ take at self.old ++ drop (at + count) self.old }
    {
        let left = self.bytes.len() - count;
        self.bytes[at..].rotate_left(count);
        self.bytes.truncate(left);
    }
}

/// A frame with what came with it: the time at which it was captured, in nanoseconds since
/// 1970-01-01 UTC, the device on which it arrived, from 1, and its number in the run, from 0.
#[derive(Drop)]
pub struct Stamped {
    pub stamp: u64,
    pub device: u32,
    pub number: u32,
    pub frame: Frame,
}
