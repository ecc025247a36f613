//! A passage at a rewriter.
ghost use Rattle.std.specs.Prelude.{◌≡◌, false, None, IfOk};
ghost use Rattle.mt_flow.specs.Mappings.{StandsForward};
ghost use Rattle.mt_kinds.specs.Ports.{mapper_at};
ghost use Rattle.mt_rewriter.specs.Mappings.{key_of, meets_forward, meets_reply};
ghost use Rattle.mt_rewriter.specs.Passages.{by_spec, by_mapper, is_reply, meets};
ghost use Rattle.mt_rewriter.specs.Tries.{keeping};
ghost use Rattle.mt_pipeline.specs.Passing.{EndsPassage, IsReady, IsStep};
ghost use Rattle.mt_pipeline.specs.Standing.{entries_of, tables_of};
ghost use Rattle.mt_pipeline.specs.Trying.{EndsBy, ended_by, mapper_decision, once_decision, spec_decision};

use crate::context::Given;
use crate::journal::Journal;
use crate::resources::Resources;
use crate::ring::ring;
use crate::tries::{Tried, keys_differ, try_template};
use mt_flow::{ForwardKey, Meeting, Store};
use mt_kinds::{SourcePort, Spec, Template};
use mt_ledger::Ledger;
use mt_packet::{Cause, Flow};
use mt_rewriter::Passage;
use std::alloc::AllocError;

/// How a passage ends.
pub(crate) enum Passed {
    /// The packet goes on or is dropped.
    Through(Passage),
    /// A try met the pool of this number, which is not gone, while its share and its stock were empty.
    Starved(u32),
}

/// Whether packets of an input are replies.
fn is_reply(spec: Spec) -> bool
    ensures { result ≡ is_reply spec }
{
    matches!(spec, Spec::Drop | Spec::Pass(_))
}

/// The template by which a mapping keeps the flow as it is.
fn keeping(fout: u32, rout: u32) -> Template
    ensures { result ≡ keeping fout rout }
{
    Template {
        sa: None,
        sp: SourcePort::Same,
        da: None,
        dp: None,
        fout,
        rout,
    }
}

/// What a packet becomes that is a reply to a mapping.
fn meet_reply(store: &Store, key: &ForwardKey) -> Option<Meeting>
    ensures { result ≡ meets_reply (entries_of store.now) key.now.element key.now.before }
{
    keys_differ(store);
    store.meet_reply(key.element, &key.before)
}

/// What a packet becomes whose key a mapping has.
fn meet_forward(store: &Store, key: &ForwardKey) -> Option<Meeting>
    ensures meets { result ≡ meets_forward (entries_of store.now) key.now }
    ensures unmet { result ≡ None → StandsForward store.now key.now → ⊥ }
{
    keys_differ(store);
    store.meet_forward(key.element, key.input, &key.before)
}

/// What a packet becomes that belongs to a mapping.
fn meet(store: &Store, key: &ForwardKey, spec: Spec) -> Option<Meeting>
    ensures meets { result ≡ meets (entries_of store.now) key.now (is_reply spec) }
    ensures unmet { result ≡ None → is_reply spec ≡ false → StandsForward store.now key.now → ⊥ }
{
    if is_reply(spec) {
        meet_reply(store, key)
    } else {
        meet_forward(store, key)
    }
}

/// How a passage ends for which one template was tried.
fn ended_by(tried: Tried) -> Passed
    ensures { result ≡ ended_by tried }
{
    match tried {
        Tried::Made(meeting) => Passed::Through(Passage::Rewritten(meeting)),
        Tried::Clashed => Passed::Through(Passage::Dropped(Cause::Clash)),
        Tried::Exhausted => Passed::Through(Passage::Dropped(Cause::Exhausted)),
        Tried::Starved(pool) => Passed::Starved(pool),
    }
}

/// Tries one template.
fn try_once(
    given: &Given<'_>,
    resources: &mut Resources,
    ledger: &mut Ledger,
    journal: &mut Journal,
    key: &ForwardKey,
    template: &Template,
) -> Result<Passed, AllocError>
    requires ready { IsReady given.now.rewriters.now given.now.gone.now resources.old ledger.old }
    requires unmet { StandsForward resources.old.store key.now → ⊥ }
    ensures step { IsStep given.now.rewriters.now given.now.gone.now resources.old resources.new ledger.old ledger.new journal.old journal.new }
    ensures ends { IfOk result (EndsBy (once_decision given.now.rewriters.now.pools.items (entries_of resources.old.store) key.now template.now journal.old.picks.items)
        given.now.rewriters.now given.now.gone.now resources.old resources.new ledger.old ledger.new journal.new.picks.items) }
{
    match try_template(given, resources, ledger, journal, key, template) {
        Ok(tried) => Ok(ended_by(tried)),
        Err(error) => Err(error),
    }
}

/// Tries the templates of a mapper.
fn by_mapper(
    given: &Given<'_>,
    resources: &mut Resources,
    ledger: &mut Ledger,
    journal: &mut Journal,
    key: &ForwardKey,
    mapper: u32,
) -> Result<Passed, AllocError>
    requires ready { IsReady given.now.rewriters.now given.now.gone.now resources.old ledger.old }
    requires unmet { StandsForward resources.old.store key.now → ⊥ }
    ensures step { IsStep given.now.rewriters.now given.now.gone.now resources.old resources.new ledger.old ledger.new journal.old journal.new }
    ensures ends { IfOk result (EndsBy (mapper_decision given.now.rewriters.now (tables_of resources.old.store ledger.old) key.now mapper journal.old.picks.items)
        given.now.rewriters.now given.now.gone.now resources.old resources.new ledger.old ledger.new journal.new.picks.items) }
{
    match given.rewriters.mappers.get(mapper as usize) {
        Some(templates) => ring(
            given,
            resources,
            ledger,
            journal,
            key,
            mapper,
            templates.as_slice(),
        ),
        None => Ok(Passed::Through(Passage::Dropped(Cause::Exhausted))),
    }
}

/// What an input says of a packet that meets no mapping.
fn by_spec(
    given: &Given<'_>,
    resources: &mut Resources,
    ledger: &mut Ledger,
    journal: &mut Journal,
    key: &ForwardKey,
    spec: Spec,
) -> Result<Passed, AllocError>
    requires ready { IsReady given.now.rewriters.now given.now.gone.now resources.old ledger.old }
    requires unmet { is_reply spec ≡ false → StandsForward resources.old.store key.now → ⊥ }
    ensures step { IsStep given.now.rewriters.now given.now.gone.now resources.old resources.new ledger.old ledger.new journal.old journal.new }
    ensures ends { IfOk result (EndsBy (spec_decision given.now.rewriters.now (tables_of resources.old.store ledger.old) key.now spec journal.old.picks.items)
        given.now.rewriters.now given.now.gone.now resources.old resources.new ledger.old ledger.new journal.new.picks.items) }
{
    match spec {
        Spec::Keep(fout, rout) => {
            let template = keeping(fout, rout);
            try_once(given, resources, ledger, journal, key, &template)
        }
        Spec::Pattern(template) => try_once(given, resources, ledger, journal, key, &template),
        Spec::Mapper(mapper) => by_mapper(given, resources, ledger, journal, key, mapper),
        Spec::Pass(out) => Ok(Passed::Through(Passage::Passed(out))),
        Spec::Drop => Ok(Passed::Through(Passage::Dropped(Cause::Unmapped))),
    }
}

/// What becomes of a flow at an input of a rewriter, given by its element and input.
pub(crate) fn pass(
    given: &Given<'_>,
    resources: &mut Resources,
    ledger: &mut Ledger,
    journal: &mut Journal,
    port: (u32, u32),
    spec: Spec,
    flow: Flow,
) -> Result<Passed, AllocError>
    requires ready { IsReady given.now.rewriters.now given.now.gone.now resources.old ledger.old }
    ensures step { IsStep given.now.rewriters.now given.now.gone.now resources.old resources.new ledger.old ledger.new journal.old journal.new }
    ensures passed { IfOk result (EndsPassage given.now.rewriters.now given.now.gone.now port.0 port.1 spec flow
        resources.old resources.new ledger.old ledger.new journal.old.picks.items journal.new.picks.items) }
{
    let key = ForwardKey {
        element: port.0,
        input: port.1,
        before: flow,
    };
    match meet(&resources.store, &key, spec) {
        Some(meeting) => Ok(Passed::Through(Passage::Rewritten(meeting))),
        None => by_spec(given, resources, ledger, journal, &key, spec),
    }
}
