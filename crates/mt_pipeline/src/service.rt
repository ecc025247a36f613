//! What became of a frame.
ghost use Rattle.std.specs.Prelude.{◌≡◌};

use mt_chain::Fate;
use std::marker::Model;

/// What became of a frame that a server served. Only a turn makes one.
#[derive(Drop)]
pub struct Service {
    pub(crate) number: u32,
    pub(crate) fate: Fate,
    pub(crate) picks: Vec<u16>,
}

impl Model for Service {
    ghost use Rattle.mt_pipeline.specs.Turns.{ServiceState};

    ghost Value = { ServiceState };

    ghost view = { λ s. record { number = s.number; fate = s.fate; picks = s.picks.items } };
}

impl Service {
    /// The number of the frame, from 0.
    pub fn number(&self) -> u32
        ensures { result ≡ self.now.number }
    {
        self.number
    }

    /// Its fate.
    pub fn fate(&self) -> &Fate
        ensures { result.now ≡ self.now.fate }
    {
        &self.fate
    }

    /// The ports that were picked for it, in their order.
    pub fn picks(&self) -> &[u16]
        ensures { result.now ≡ self.now.picks }
    {
        &self.picks
    }

    /// Its fate, handed out.
    pub fn into_fate(self) -> Fate
        ensures { result ≡ self.fate }
    {
        self.fate
    }
}
