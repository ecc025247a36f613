//! A try to open a mapping for a flow by a template.
ghost use Rattle.std.specs.Prelude.{◌≡◌, ◌≢◌, ◌≤◌, AllPairs};
ghost use Rattle.mt_flow.specs.Mappings.{StandsForward, forward_key, refused_of, reply_key};
ghost use Rattle.mt_rewriter.specs.Tries.{rewritten};
ghost use Rattle.mt_pipeline.specs.Passing.{IsReady, IsStep};
ghost use Rattle.mt_pipeline.specs.Trying.{EndsOpening, EndsSourced, EndsTry, IsGivable, IsGivenBack, IsRefusal, IsTry, mapping_of, opened_by, opened_in, token_of};

use crate::context::Given;
use crate::journal::Journal;
use crate::ports::{Sourced, give_back, source_of};
use crate::resources::Resources;
use mt_flow::{ForwardKey, Mapping, Meeting, OpenFault, Store};
use mt_kinds::{Pool, Template};
use mt_ledger::{Ledger, PortToken, Shares};
use mt_packet::Flow;
use std::alloc::AllocError;

/// How a try ends.
pub(crate) enum Tried {
    /// It made a mapping, which the packet meets.
    Made(Meeting),
    /// A mapping of the rewriter has these replies.
    Clashed,
    /// No port of the pool is free.
    Exhausted,
    /// The pool of this number is not gone, but its share and its stock are empty.
    Starved(u32),
}

/// A flow by a template, with that source port.
fn rewritten(template: &Template, flow: &Flow, port: u16) -> Flow
    ensures { result ≡ rewritten template.now flow.now port }
{
    Flow {
        proto: flow.proto,
        sa: template.sa.unwrap_or(flow.sa),
        sp: port,
        da: template.da.unwrap_or(flow.da),
        dp: template.dp.unwrap_or(flow.dp),
    }
}

/// The mapping that a template makes, with that source port.
fn mapping_of(key: &ForwardKey, template: &Template, port: u16, held: Option<PortToken>) -> Mapping
    ensures { result ≡ mapping_of key.now template.now port held }
{
    Mapping {
        element: key.element,
        input: key.input,
        before: key.before,
        after: rewritten(template, &key.before, port),
        fout: template.fout,
        rout: template.rout,
        group: 0,
        bucket: 0,
        port: held,
    }
}

/// Forward keys of the mappings of a store differ, and so do their reply keys.
pub(crate) fn keys_differ(store: &Store)
    ensures forward { AllPairs (λ x y. forward_key x ≢ forward_key y) store.now }
    ensures reply { AllPairs (λ x y. reply_key x ≢ reply_key y) store.now }
{
    store.by_forward();
    store.by_reply();
}

/// What a refusal to open a mapping makes of a try. Its port is given back.
fn refused(pools: &[Pool], shares: &mut Shares, fault: OpenFault) -> Result<Tried, AllocError>
    requires givable { IsGivable pools.now shares.old (refused_of fault).port }
    ensures back { IsGivenBack pools.now shares.old shares.new (refused_of fault).port }
    ensures why { IsRefusal fault result }
{
    match fault {
        OpenFault::Clash(clashing) => {
            give_back(pools, shares, clashing.port);
            Ok(Tried::Clashed)
        }
        OpenFault::NoMemory(mapping) => {
            give_back(pools, shares, mapping.port);
            Err(AllocError)
        }
    }
}

/// Opens a mapping, unless the rewriter has one with its replies.
fn open(pools: &[Pool], resources: &mut Resources, mapping: Mapping) -> Result<Tried, AllocError>
    requires unmet { StandsForward resources.old.store (forward_key mapping) → ⊥ }
    requires givable { IsGivable pools.now resources.old.shares mapping.port }
    ensures { EndsOpening pools.now mapping resources.old resources.new result }
{
    let meeting = Meeting {
        after: mapping.after,
        output: mapping.fout,
    };
    match resources.store.open(mapping) {
        Ok(()) => Ok(Tried::Made(meeting)),
        Err(fault) => refused(pools, &mut resources.shares, fault),
    }
}

/// Makes the mapping of a source port, where one was found.
fn open_for(
    pools: &[Pool],
    resources: &mut Resources,
    key: &ForwardKey,
    template: &Template,
    sourced: Sourced,
) -> Result<Tried, AllocError>
    requires unmet { StandsForward resources.old.store key.now → ⊥ }
    requires givable { IsGivable pools.now resources.old.shares (token_of sourced) }
    ensures { EndsSourced pools.now key.now template.now sourced resources.old resources.new result }
{
    match sourced {
        Sourced::Port(port, held) => open(pools, resources, mapping_of(key, template, port, held)),
        Sourced::Exhausted => Ok(Tried::Exhausted),
        Sourced::Starved(pool) => Ok(Tried::Starved(pool)),
    }
}

/// Tries a template for the flow of a key, which no mapping has.
fn attempt(
    given: &Given<'_>,
    resources: &mut Resources,
    ledger: &mut Ledger,
    picks: &mut Vec<u16>,
    key: &ForwardKey,
    template: &Template,
) -> Result<Tried, AllocError>
    requires ready { IsReady given.now.rewriters.now given.now.gone.now resources.old ledger.old }
    requires unmet { StandsForward resources.old.store key.now → ⊥ }
    ensures kept { IsTry given.now.rewriters.now given.now.gone.now resources.old resources.new ledger.old ledger.new picks.old.items picks.new.items (opened_in result) }
    ensures ends { EndsTry given.now.rewriters.now given.now.gone.now key.now template.now resources.old resources.new ledger.new picks.old.items picks.new.items result }
{
    keys_differ(&resources.store);
    match source_of(
        given,
        &mut resources.shares,
        ledger,
        picks,
        key.before.sp,
        template.sp,
    ) {
        Ok(sourced) => open_for(&given.rewriters.pools, resources, key, template, sourced),
        Err(error) => Err(error),
    }
}

/// How many mappings a try opened.
fn opened_by(tried: &Tried) -> usize
    ensures count { result ≡ opened_by tried.now }
    ensures few { result ≤ 1 }
{
    match tried {
        Tried::Made(_) => 1,
        Tried::Clashed => 0,
        Tried::Exhausted => 0,
        Tried::Starved(_) => 0,
    }
}

/// Tries a template for the flow of a key, which no mapping has, and counts the mapping that it makes.
pub(crate) fn try_template(
    given: &Given<'_>,
    resources: &mut Resources,
    ledger: &mut Ledger,
    journal: &mut Journal,
    key: &ForwardKey,
    template: &Template,
) -> Result<Tried, AllocError>
    requires ready { IsReady given.now.rewriters.now given.now.gone.now resources.old ledger.old }
    requires unmet { StandsForward resources.old.store key.now → ⊥ }
    ensures step { IsStep given.now.rewriters.now given.now.gone.now resources.old resources.new ledger.old ledger.new journal.old journal.new }
    ensures kept { IsTry given.now.rewriters.now given.now.gone.now resources.old resources.new ledger.old ledger.new journal.old.picks.items journal.new.picks.items (opened_in result) }
    ensures ends { EndsTry given.now.rewriters.now given.now.gone.now key.now template.now resources.old resources.new ledger.new journal.old.picks.items journal.new.picks.items result }
{
    // A count that can't rise is want of memory, as in the store.
    if journal.opened == usize::MAX {
        return Err(AllocError);
    }
    match attempt(given, resources, ledger, &mut journal.picks, key, template) {
        Ok(tried) => {
            journal.opened += opened_by(&tried);
            Ok(tried)
        }
        Err(error) => Err(error),
    }
}
