//! What a turn did is taken back.
ghost use Rattle.std.specs.Prelude.{◌≡◌, ◌∷◌, ◌++◌, [], ℕ, List, length, slice_index, slice_set};
ghost use Rattle.mt_ledger.specs.Ledger.{turn_before};
ghost use Rattle.mt_pipeline.specs.Passing.{IsReady};
ghost use Rattle.mt_pipeline.specs.Standing.{IsSince, turns_back};
ghost use Rattle.mt_pipeline.specs.Trying.{IsOpenedSince, with_turns};

use crate::context::Given;
use crate::journal::Journal;
use crate::ports::give_back;
use crate::resources::Resources;
use mt_ledger::Ledger;

/// Closes the mapping that was opened last. Its port goes back to its share; the ledger stays as it is.
fn close_one(given: &Given<'_>, resources: &mut Resources, ledger: &Ledger)
    requires ready { IsReady given.now.rewriters.now given.now.gone.now resources.old ledger.now }
    ensures ready { IsReady given.now.rewriters.now given.now.gone.now resources.new ledger.now }
    ensures closed { (front : _) (last : _) → resources.old.store ≡ front ++ last ∷ [] → resources.new.store ≡ front }
{
    let Some(mapping) = resources.store.undo() else {
        return;
    };
    give_back(&given.rewriters.pools, &mut resources.shares, mapping.port);
}

/// Closes the last so many mappings.
fn close_last(given: &Given<'_>, resources: &mut Resources, ledger: &Ledger, count: usize)
    requires ready { IsReady given.now.rewriters.now given.now.gone.now resources.old ledger.now }
    ensures ready { IsReady given.now.rewriters.now given.now.gone.now resources.new ledger.now }
    ensures closed { (mappings : _) → IsOpenedSince mappings count resources.old.store → resources.new.store ≡ mappings }
{
    for _ in 0..count {
        close_one(given, resources, ledger);
    }
}

/// Moves the turn of a mapper one back, where the mapper is there.
fn retreat(given: &Given<'_>, ledger: &mut Ledger, mapper: u32)
    requires { length ledger.old.turns ≡ length given.now.rewriters.now.mappers.items }
    ensures { ledger.new ≡ with_turns ledger.old (slice_set ledger.old.turns mapper (turn_before (slice_index ledger.old.patterns mapper) (slice_index ledger.old.turns mapper))) }
{
    if (mapper as usize) < given.rewriters.mappers.len() {
        ledger.retreat(mapper);
    }
}

/// Moves the turns of mappers back, the last first.
fn turn_back(given: &Given<'_>, ledger: &mut Ledger, mut moved: Vec<u32>)
    requires { length ledger.old.turns ≡ length given.now.rewriters.now.mappers.items }
    ensures { ledger.new ≡ with_turns ledger.old (turns_back ledger.old.patterns moved.items ledger.old.turns) }
{
    while let Some(mapper) = moved.pop() {
        retreat(given, ledger, mapper);
    }
}

/// Takes back what was done since a turn began.
pub(crate) fn take_back(
    given: &Given<'_>,
    resources: &mut Resources,
    ledger: &mut Ledger,
    journal: Journal,
)
    requires ready { IsReady given.now.rewriters.now given.now.gone.now resources.old ledger.old }
    ensures ready { IsReady given.now.rewriters.now given.now.gone.now resources.new ledger.new }
    ensures mappings { (mappings : _) (turns : List ℕ) → IsSince mappings turns journal.opened journal.moved.items resources.old.store ledger.old → resources.new.store ≡ mappings }
    ensures turns { (mappings : _) (turns : List ℕ) → IsSince mappings turns journal.opened journal.moved.items resources.old.store ledger.old → ledger.new.turns ≡ turns }
    ensures stocks { ledger.new.stocks ≡ ledger.old.stocks }
{
    close_last(given, resources, ledger, journal.opened);
    turn_back(given, ledger, journal.moved);
}
