//! What was done to tables in the run of a packet, so that it can be taken back.
ghost use Rattle.std.specs.Prelude.{◌≡◌, [], None, IfSome, OnOk};
ghost use Rattle.mt_rewriter.specs.Mappings.{meets_forward, taken_back, with_opened, with_turn};
ghost use Rattle.mt_rewriter.specs.Passages.{remembered};

use crate::passage::Decision;
use crate::tables::Tables;
use crate::translation::Translation;
use mt_flow::ForwardKey;
use std::alloc::{AllocError, Global};
use std::marker::Model;

/// What takes one change back.
#[derive(Clone, Copy, Debug)]
pub(crate) enum Undo {
    /// The mapping of this key is closed.
    Close(ForwardKey),
    /// The turn of a mapper is this one again.
    Turn(u32, u32),
}

/// The changes of tables in the run of a packet, in their order.
#[derive(Drop)]
pub struct Log {
    changes: Vec<Undo>,
}

impl Model for Log {
    ghost use Rattle.std.specs.Prelude.{List};
    ghost use Rattle.mt_rewriter.specs.declared.log.Undo.{Undo};

    ghost Value = { List Undo };

    ghost view = { λ l. l.changes.items };
}

impl Log {
    /// No change.
    pub fn new(alloc: Global) -> Log
        ensures { result ≡ [] }
    {
        Log {
            changes: Vec::new(alloc),
        }
    }
}

impl Tables {
    /// Moves the turn of a mapper.
    fn move_turn(&mut self, moved: Option<(u32, u32)>, log: &mut Log) -> Result<(), AllocError>
        ensures done { OnOk result (self.new ≡ record self.old { turns = with_turn moved self.old.turns }) }
        ensures mappings { self.new.mappings ≡ self.old.mappings }
        ensures back { taken_back log.new self.new ≡ taken_back log.old self.old }
    {
        let Some((mapper, turn)) = moved else {
            return Ok(());
        };
        log.changes.push(Undo::Turn(mapper, self.turn(mapper)))?;
        self.set_turn(mapper, turn);
        Ok(())
    }

    /// Opens a mapping.
    fn enter(
        &mut self,
        opened: Option<(ForwardKey, Translation)>,
        log: &mut Log,
    ) -> Result<(), AllocError>
        requires fresh { IfSome opened (λ mapping. meets_forward self.old.mappings mapping.0 ≡ None) }
        ensures done { OnOk result (self.new ≡ record self.old { mappings = with_opened opened self.old.mappings }) }
        ensures back { taken_back log.new self.new ≡ taken_back log.old self.old }
    {
        let Some((key, translation)) = opened else {
            return Ok(());
        };
        log.changes.push(Undo::Close(key))?;
        self.open(key, translation)
    }

    /// Does what was decided. What has been logged takes back whatever was done, also where memory ran out.
    pub fn remember(&mut self, decision: &Decision, log: &mut Log) -> Result<(), AllocError>
        requires fresh { IfSome decision.now.opened (λ mapping. meets_forward self.old.mappings mapping.0 ≡ None) }
        ensures done { OnOk result (self.new ≡ remembered decision.now self.old) }
        ensures back { taken_back log.new self.new ≡ taken_back log.old self.old }
    {
        self.move_turn(decision.moved, log)?;
        self.enter(decision.opened, log)
    }

    /// Takes back what was logged, the last first.
    pub fn take_back(&mut self, log: Log)
        ensures { self.new ≡ taken_back log self.old }
    {
        let mut changes = log.changes;
        while let Some(change) = changes.pop() {
            match change {
                Undo::Close(key) => self.close(&key),
                Undo::Turn(mapper, turn) => self.set_turn(mapper, turn),
            }
        }
    }
}
