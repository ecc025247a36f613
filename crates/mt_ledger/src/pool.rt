//! Pools of ports, and the token of one port.
ghost use Rattle.std.specs.Prelude.{◌≡◌};

use std::marker::Model;

/// The range of a pool: its least and its greatest port. A range whose least port is above its greatest
/// has none.
#[derive(Clone, Copy, Debug, Drop, PartialEq, Eq)]
pub struct PortRange {
    pub lo: u16,
    pub hi: u16,
}

/// The right to one port of a pool, which is named by its number. Only a share gives one, and who has it is
/// the only one who has the port.
#[derive(Debug, Drop)]
pub struct PortToken {
    pool: u32,
    port: u16,
}

impl Model for PortToken {
    ghost use Rattle.mt_ledger.specs.Ports.{HeldPort};

    ghost Value = { HeldPort };

    ghost view = { λ t. record { pool = t.pool; port = t.port } };
}

impl PortToken {
    pub(crate) fn new(pool: u32, port: u16) -> PortToken
        ensures { result ≡ record { pool = pool; port = port } }
    {
        PortToken { pool, port }
    }

    /// The number of the pool.
    pub fn pool(&self) -> u32
        ensures { result ≡ self.now.pool }
    {
        self.pool
    }

    /// The port.
    pub fn port(&self) -> u16
        ensures { result ≡ self.now.port }
    {
        self.port
    }
}
