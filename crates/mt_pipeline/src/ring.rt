//! The ring of a mapper: its templates are tried from the one whose turn it is on.
ghost use Rattle.std.specs.Prelude.{◌≡◌, ◌<◌, ◌^◌, length, Some, IfOk, OnOk, slice_get};
ghost use Rattle.mt_flow.specs.Mappings.{StandsForward};
ghost use Rattle.mt_pipeline.specs.Passing.{IsReady, IsStep};
ghost use Rattle.mt_pipeline.specs.Standing.{entries_of};
ghost use Rattle.mt_pipeline.specs.Trying.{EndsBy, HasTurned, led_by, none_made, ring_decision};

use crate::context::Given;
use crate::journal::Journal;
use crate::passage::Passed;
use crate::resources::Resources;
use crate::tries::{Tried, try_template};
use mt_flow::ForwardKey;
use mt_kinds::Template;
use mt_ledger::Ledger;
use mt_packet::Cause;
use mt_rewriter::Passage;
use std::alloc::AllocError;

/// Where a try leads.
pub(crate) enum Led {
    /// The passage ends.
    Ends(Passed),
    /// The ring goes on: whether a try clashed.
    Along(bool),
}

/// Where a try leads, behind others of which one clashed or none.
fn led_by(clashed: bool, tried: Tried) -> Led
    ensures { result ≡ led_by clashed tried }
{
    match tried {
        Tried::Made(meeting) => Led::Ends(Passed::Through(Passage::Rewritten(meeting))),
        Tried::Clashed => Led::Along(true),
        Tried::Exhausted => Led::Along(clashed),
        Tried::Starved(pool) => Led::Ends(Passed::Starved(pool)),
    }
}

/// Tries the template of a mapper whose turn it is. The turn moves on.
fn try_next(
    given: &Given<'_>,
    resources: &mut Resources,
    ledger: &mut Ledger,
    journal: &mut Journal,
    key: &ForwardKey,
    mapper: u32,
    templates: &[Template],
) -> Result<Tried, AllocError>
    requires ready { IsReady given.now.rewriters.now given.now.gone.now resources.old ledger.old }
    requires unmet { StandsForward resources.old.store key.now → ⊥ }
    requires at { slice_get given.now.rewriters.now.mappers.items mapper ≡ Some templates.now }
    ensures step { IsStep given.now.rewriters.now given.now.gone.now resources.old resources.new ledger.old ledger.new journal.old journal.new }
    ensures turned { OnOk result (HasTurned given.now.rewriters.now given.now.gone.now key.now mapper templates.now resources.old resources.new ledger.old ledger.new journal.old.picks.items journal.new.picks.items result) }
{
    let turn = ledger.turn(mapper);
    journal.moved.push(mapper)?;
    ledger.advance(mapper);
    try_template(
        given,
        resources,
        ledger,
        journal,
        key,
        &templates[turn as usize],
    )
}

/// What becomes of a packet for which no template of a ring made a mapping.
fn none_made(clashed: bool) -> Passed
    ensures { result ≡ none_made clashed }
{
    let cause = if clashed {
        Cause::Clash
    } else {
        Cause::Exhausted
    };
    Passed::Through(Passage::Dropped(cause))
}

/// Tries the templates of a mapper from the one whose turn it is on, each at most once, until one makes a mapping.
pub(crate) fn ring(
    given: &Given<'_>,
    resources: &mut Resources,
    ledger: &mut Ledger,
    journal: &mut Journal,
    key: &ForwardKey,
    mapper: u32,
    templates: &[Template],
) -> Result<Passed, AllocError>
    requires ready { IsReady given.now.rewriters.now given.now.gone.now resources.old ledger.old }
    requires unmet { StandsForward resources.old.store key.now → ⊥ }
    requires at { slice_get given.now.rewriters.now.mappers.items mapper ≡ Some templates.now }
    requires count { length templates.now < 2 ^ 32 }
    ensures step { IsStep given.now.rewriters.now given.now.gone.now resources.old resources.new ledger.old ledger.new journal.old journal.new }
    ensures ends { IfOk result (EndsBy (ring_decision given.now.rewriters.now.pools.items (entries_of resources.old.store) key.now mapper templates.now ledger.old journal.old.picks.items)
        given.now.rewriters.now given.now.gone.now resources.old resources.new ledger.old ledger.new journal.new.picks.items) }
{
    let mut clashed = false;
    for _ in 0..templates.len() {
        match try_next(given, resources, ledger, journal, key, mapper, templates) {
            Ok(tried) => match led_by(clashed, tried) {
                Led::Ends(passed) => return Ok(passed),
                Led::Along(whether) => clashed = whether,
            },
            Err(error) => return Err(error),
        }
    }
    Ok(none_made(clashed))
}
