//! Input ports by number.
ghost use Rattle.std.specs.Prelude.{IfOk, OnOk};
ghost use Rattle.mt_wiring.specs.Numbers.{StandsAt, AreApart, Grows, AreTargets};

use indexmap::IndexSet;
use mt_graph::Wire;
use std::alloc::{AllocError, Global};

/// The input ports that wires lead to, as elements and inputs, each with its index as its number, and for each wire the
/// number of the port that it leads to.
#[derive(Drop)]
pub struct Ports {
    pub keys: IndexSet<(u32, u32)>,
    pub targets: Vec<usize>,
}

// The number of a port, which is a new one where it has none.
fn number(keys: &mut IndexSet<(u32, u32)>, port: (u32, u32)) -> Result<usize, AllocError>
    ensures number { IfOk result (λ n. StandsAt keys.new.keys n port) }
    ensures grows { OnOk result (Grows keys.old.keys keys.new.keys) }
    ensures apart { OnOk result (AreApart keys.new.keys) }
{
    let (number, _) = keys.insert_full(port)?;
    Ok(number)
}

/// The input ports that wires lead to.
pub fn ports_of(alloc: Global, wires: &[Wire]) -> Result<Ports, AllocError>
    ensures { IfOk result (λ p. AreTargets p.keys.keys wires.now p.targets.items) }
{
    let mut keys = IndexSet::new(alloc);
    let mut targets = Vec::new(alloc);
    for at in 0..wires.len() {
        let wire = wires[at];
        let target = number(&mut keys, (wire.to, wire.into))?;
        targets.push(target)?;
    }
    Ok(Ports { keys, targets })
}
