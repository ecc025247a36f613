//! A try to open a mapping for a flow by a template.
ghost use Rattle.std.specs.Prelude.{◌≡◌, slice_get};
ghost use Rattle.mt_rewriter.specs.Tries.{is_in, picked, from_pool, source_of, rewritten, made_or_clashed, try_template};

use crate::passage::Given;
use crate::tables::Tables;
use crate::translation::{HeldPort, Translation};
use mt_flow::{ForwardKey, reversed};
use mt_kinds::{Pool, SourcePort, Template};
use mt_packet::Flow;

/// How a try ends. A count is that of the picks that the packet's run has taken.
#[derive(Clone, Copy)]
pub(crate) enum Attempt {
    /// It makes a mapping.
    Made(Translation, usize),
    /// A mapping of the rewriter has these replies.
    Clashed(usize),
    /// No port of the pool is free.
    Exhausted,
    /// The pick with that index is missing, or is no free port of the pool.
    BadPick(usize),
}

/// The source port that a flow gets, the port that its mapping then holds, and the count of picks.
#[derive(Clone, Copy)]
pub(crate) struct Source {
    port: u16,
    held: Option<HeldPort>,
    used: usize,
}

/// Why a flow gets no source port.
#[derive(Clone, Copy)]
pub(crate) enum NoSource {
    Exhausted,
    BadPick(usize),
}

fn is_in(pool: &Pool, port: u16) -> bool
    ensures { result ≡ is_in pool.now port }
{
    pool.lo <= port && port <= pool.hi
}

/// The port that the next pick names, which has to be a free one of the pool.
fn picked(
    tables: &Tables,
    number: u32,
    pool: &Pool,
    picks: &[u16],
    used: usize,
) -> Result<Source, NoSource>
    ensures { result ≡ picked tables.now.mappings number pool.now used (slice_get picks.now used) }
{
    match picks.get(used) {
        Some(port) if is_in(pool, *port) && tables.is_free(number, *port) => Ok(Source {
            port: *port,
            held: Some(HeldPort {
                pool: number,
                port: *port,
            }),
            used: used + 1,
        }),
        _ => Err(NoSource::BadPick(used)),
    }
}

/// A port of the pool with that number.
fn from_pool(
    tables: &Tables,
    pools: &[Pool],
    picks: &[u16],
    used: usize,
    number: u32,
) -> Result<Source, NoSource>
    ensures { result ≡ from_pool tables.now.mappings picks.now used number (slice_get pools.now number) }
{
    match pools.get(number as usize) {
        Some(pool) if tables.has_free(number, pool) => picked(tables, number, pool, picks, used),
        _ => Err(NoSource::Exhausted),
    }
}

/// The source port that a flow gets whose own is `own`.
fn source_of(
    given: &Given<'_>,
    tables: &Tables,
    used: usize,
    own: u16,
    wanted: SourcePort,
) -> Result<Source, NoSource>
    ensures { result ≡ source_of given.now.pools.now given.now.picks.now tables.now.mappings used own wanted }
{
    let port = match wanted {
        SourcePort::Same => own,
        SourcePort::One(port) => port,
        SourcePort::Pool(number) => return from_pool(
            tables,
            given.pools,
            given.picks,
            used,
            number,
        ),
    };
    Ok(Source {
        port,
        held: None,
        used,
    })
}

/// A flow by a template, with that source port.
fn rewritten(template: &Template, flow: &Flow, port: u16) -> Flow
    ensures { result ≡ rewritten template.now flow.now port }
{
    Flow {
        proto: flow.proto,
        sa: template.sa.unwrap_or(flow.sa),
        sp: port,
        da: template.da.unwrap_or(flow.da),
        dp: template.dp.unwrap_or(flow.dp),
    }
}

/// The mapping that a try makes, unless the rewriter has one with these replies.
fn made_or_clashed(tables: &Tables, element: u32, translation: Translation, used: usize) -> Attempt
    ensures { result ≡ made_or_clashed tables.now.mappings element translation used }
{
    if tables
        .meets_reply(element, &reversed(&translation.after))
        .is_some()
    {
        return Attempt::Clashed(used);
    }
    Attempt::Made(translation, used)
}

/// Tries a template for the flow of a key at its rewriter, behind so many picks.
#[tactic(auto, unfolding(crate::specs::Tries::try_template))]
pub(crate) fn try_template(
    given: &Given<'_>,
    tables: &Tables,
    key: &ForwardKey,
    used: usize,
    template: &Template,
) -> Attempt
    ensures { result ≡ try_template given.now.pools.now given.now.picks.now tables.now.mappings key.now used template.now }
{
    match source_of(given, tables, used, key.before.sp, template.sp) {
        Ok(source) => {
            let translation = Translation {
                after: rewritten(template, &key.before, source.port),
                fout: template.fout,
                rout: template.rout,
                held: source.held,
            };
            made_or_clashed(tables, key.element, translation, source.used)
        }
        Err(NoSource::Exhausted) => Attempt::Exhausted,
        Err(NoSource::BadPick(place)) => Attempt::BadPick(place),
    }
}
