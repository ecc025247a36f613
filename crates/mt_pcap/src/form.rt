//! The form of a capture: the order of the bytes in its numbers, and the unit of its fractions.
ghost use Rattle.std.specs.Prelude.{◌≡◌, ◌≤◌, length};
ghost use Rattle.mt_pcap.specs.Format.{number, nanoseconds_in};
ghost use Rattle.mt_pcap.specs.Capture.{resolution_of, form_in, form_of};

use byteorder::{BigEndian, ByteOrder, LittleEndian};

/// A second, in nanoseconds.
pub const SECOND: u64 = 1_000_000_000;

/// The most bytes of a frame that a record has.
pub const LONGEST: u32 = 262_144;

/// The number that a capture with fractions in microseconds begins with.
const MICROSECONDS_MAGIC: u32 = 0xa1b2_c3d4;

/// The number that a capture with fractions in nanoseconds begins with.
pub const NANOSECONDS_MAGIC: u32 = 0xa1b2_3c4d;

/// The order of the bytes in each number of a capture.
#[derive(Clone, Copy)]
pub enum Order {
    Big,
    Little,
}

/// What the fraction in a record's head counts.
#[derive(Clone, Copy)]
pub enum Resolution {
    Microseconds,
    Nanoseconds,
}

/// What the magic number of a capture says.
#[derive(Clone, Copy)]
pub struct Form {
    pub order: Order,
    pub resolution: Resolution,
}

impl Order {
    /// The number in the first four bytes.
    #[tactic(auto, unfolding(crate::specs::Format::number))]
    pub fn number(self, bytes: &[u8]) -> u32
        requires { 4 ≤ length bytes.now }
        ensures { result ≡ number self bytes.now }
    {
        match self {
            Order::Big => BigEndian::read_u32(bytes),
            Order::Little => LittleEndian::read_u32(bytes),
        }
    }
}

impl Resolution {
    /// How many nanoseconds the unit is.
    #[tactic(auto, unfolding(crate::specs::Format::nanoseconds_in))]
    pub fn nanoseconds(self) -> u64
        ensures value { result ≡ nanoseconds_in self }
        ensures small { result ≤ 1000 }
    {
        match self {
            Resolution::Microseconds => 1_000,
            Resolution::Nanoseconds => 1,
        }
    }
}

/// The unit that a magic number tells.
#[tactic(auto, unfolding(crate::specs::Capture::resolution_of))]
fn resolution_of(magic: u32) -> Option<Resolution>
    ensures { result ≡ resolution_of magic }
{
    if magic == MICROSECONDS_MAGIC {
        return Some(Resolution::Microseconds);
    }
    if magic == NANOSECONDS_MAGIC {
        return Some(Resolution::Nanoseconds);
    }
    None
}

/// The form whose magic number the bytes begin with, in this order.
#[tactic(auto, unfolding(crate::specs::Capture::form_in))]
fn form_in(order: Order, bytes: &[u8]) -> Option<Form>
    requires { 4 ≤ length bytes.now }
    ensures { result ≡ form_in order bytes.now }
{
    let resolution = resolution_of(order.number(bytes))?;
    Some(Form { order, resolution })
}

/// The form whose magic number the bytes begin with.
#[tactic(auto, unfolding(crate::specs::Capture::form_of))]
pub fn form_of(bytes: &[u8]) -> Option<Form>
    requires { 4 ≤ length bytes.now }
    ensures { result ≡ form_of bytes.now }
{
    form_in(Order::Little, bytes).or_else(|| form_in(Order::Big, bytes))
}
