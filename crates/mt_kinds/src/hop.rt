//! The entries of a route table.
ghost use Rattle.std.specs.Prelude.{◌≡◌};
ghost use Rattle.std.specs.List.{All};
ghost use Rattle.mt_kinds.specs.Outputs.{HopInRange};

use std::marker::Model;

/// An entry of a route table. Addresses are 32 bits in network order.
#[derive(Clone, Copy, Debug, PartialEq, Eq)]
pub struct Hop {
    /// The address of the prefix; as an entry is read, its bits past the length are 0.
    pub address: u32,
    /// How many high bits of the address the prefix has, 0 to 32; the others do not count.
    pub length: u8,
    /// The next address on the way, where it is not the packet's own.
    pub gateway: Option<u32>,
    /// The output.
    pub out: u32,
}

/// The entries of a route table in their order; each names an output from 0 to 511. A contract sees the list of
/// them.
#[derive(Drop)]
pub struct Hops {
    list: Vec<Hop>,
}

impl Model for Hops {
    ghost use Rattle.std.specs.Prelude.{List};
    ghost use Rattle.std.specs.List.{All};
    ghost use Rattle.mt_kinds.specs.declared.hop.Hop.{Hop};
    ghost use Rattle.mt_kinds.specs.Outputs.{HopInRange};

    ghost Value = { List Hop };

    ghost view = { λ h. h.list.items };

    ghost invariant = { λ h. All HopInRange h.list.items };
}

impl Hops {
    /// These entries.
    pub fn new(list: Vec<Hop>) -> Hops
        requires { All HopInRange list.items }
        ensures { result ≡ list.items }
    {
        Hops { list }
    }

    /// The entries, in their order.
    pub fn as_slice(&self) -> &[Hop]
        ensures hops { result.now ≡ self.now }
        ensures outputs { All HopInRange self.now }
    {
        &self.list
    }
}
