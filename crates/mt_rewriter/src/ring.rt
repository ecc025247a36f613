//! The ring of a mapper: its templates are tried from the one whose turn it is on.
ghost use Rattle.std.specs.Prelude.{◌≡◌, ◌<◌, ◌^◌, length, false};
ghost use Rattle.mt_rewriter.specs.Tries.{try_template, turn_behind, after_try, ring};

use crate::attempt::{Attempt, try_template};
use crate::passage::Given;
use crate::tables::Tables;
use crate::translation::Translation;
use mt_flow::ForwardKey;
use mt_kinds::Template;

/// How the templates of a mapper were tried.
#[derive(Clone, Copy)]
pub(crate) struct Round {
    /// What the mapping makes that was opened.
    pub opened: Option<Translation>,
    /// The template whose turn it is now.
    pub turn: u32,
    /// Whether a try clashed.
    pub clashed: bool,
    /// How many picks the packet's run has taken.
    pub used: usize,
}

/// Where a try leads.
#[derive(Clone, Copy)]
enum Tried {
    /// The ring is over.
    Ends(Round),
    /// It goes on: whether a try clashed, and the count of picks.
    Along(bool, usize),
}

fn turn_behind(count: u32, turn: u32) -> u32
    requires { turn < count }
    ensures { result ≡ turn_behind count turn }
{
    if turn + 1 == count { 0 } else { turn + 1 }
}

/// Where a try leads, behind which it is that turn.
fn after_try(turn: u32, clashed: bool, used: usize, attempt: Attempt) -> Result<Tried, usize>
    ensures { result ≡ after_try turn clashed used attempt }
{
    match attempt {
        Attempt::Made(translation, taken) => Ok(Tried::Ends(Round {
            opened: Some(translation),
            turn,
            clashed,
            used: taken,
        })),
        Attempt::Clashed(taken) => Ok(Tried::Along(true, taken)),
        Attempt::Exhausted => Ok(Tried::Along(clashed, used)),
        Attempt::BadPick(place) => Err(place),
    }
}

/// Tries templates from the one whose turn it is on, each at most once, until one makes a mapping.
pub(crate) fn ring(
    given: &Given<'_>,
    tables: &Tables,
    key: &ForwardKey,
    templates: &[Template],
    start: u32,
    used: usize,
) -> Result<Round, usize>
    requires { length templates.now < 2 ^ 32 }
    ensures { result ≡ ring (try_template given.now.pools.now given.now.picks.now tables.now.mappings key.now) templates.now (length templates.now) start false used }
{
    let count = templates.len() as u32;
    let mut turn = start;
    let mut clashed = false;
    let mut used = used;
    for _ in 0..count {
        if turn >= count {
            break;
        }
        let attempt = try_template(given, tables, key, used, &templates[turn as usize]);
        turn = turn_behind(count, turn);
        match after_try(turn, clashed, used, attempt) {
            Ok(Tried::Ends(round)) => return Ok(round),
            Ok(Tried::Along(whether, taken)) => {
                clashed = whether;
                used = taken;
            }
            Err(place) => return Err(place),
        }
    }
    Ok(Round {
        opened: None,
        turn,
        clashed,
        used,
    })
}
