//! What becomes of a packet at a rewriter.
ghost use Rattle.std.specs.Prelude.{◌≡◌, ◌≤◌, true, None, Ok, length, IfOk, IfSome, IsSome};
ghost use Rattle.mt_kinds.specs.Ports.{mapper_at};
ghost use Rattle.mt_rewriter.specs.Mappings.{forward_meeting, meets_forward};
ghost use Rattle.mt_rewriter.specs.Passages.{unported, settled, is_reply, is_rewritten, by_attempt, round_passage, by_round, by_mapper, by_spec, decide, decide_for};
ghost use Rattle.mt_rewriter.specs.Tries.{keeping};

use crate::attempt::{Attempt, try_template};
use crate::ring::{Round, ring};
use crate::tables::Tables;
use crate::translation::Translation;
use mt_flow::{ForwardKey, Meeting};
use mt_kinds::{Pool, SourcePort, Spec, Template, Templates};
use mt_packet::{Cause, Flow};

/// What the rewriters of a chain share, and the ports to be picked for a packet, in their order.
#[derive(Clone, Copy)]
pub struct Given<'a> {
    /// The patterns of each mapper.
    pub mappers: &'a [Templates],
    pub pools: &'a [Pool],
    pub picks: &'a [u16],
}

/// What becomes of a packet.
#[derive(Clone, Copy, Debug, PartialEq, Eq)]
pub enum Passage {
    /// It gets another flow, and leaves by an output.
    Rewritten(Meeting),
    /// It leaves by an output as it is.
    Passed(u32),
    Dropped(Cause),
}

/// What becomes of a packet, and what the tables then have.
#[derive(Clone, Copy)]
pub struct Decision {
    pub passage: Passage,
    /// The mapping that is opened for its flow.
    pub opened: Option<(ForwardKey, Translation)>,
    /// A mapper whose turn moves, and the pattern whose turn it is then.
    pub moved: Option<(u32, u32)>,
    /// How many picks the packet's run has taken, this passage among them.
    pub used: usize,
}

/// What becomes of a packet without visible ports at an input with a specification.
fn unported(spec: Spec) -> Passage
    ensures { result ≡ unported spec }
{
    match spec {
        Spec::Pass(out) => Passage::Passed(out),
        _ => Passage::Dropped(Cause::Unported),
    }
}

/// What becomes of a packet for which nothing is opened.
fn settled(used: usize, passage: Passage) -> Decision
    ensures { result ≡ settled used passage }
{
    Decision {
        passage,
        opened: None,
        moved: None,
        used,
    }
}

fn forward_meeting(translation: &Translation) -> Meeting
    ensures { result ≡ forward_meeting translation.now }
{
    Meeting {
        after: translation.after,
        output: translation.fout,
    }
}

/// What becomes of a packet for which a template was tried, behind so many picks.
fn by_attempt(key: &ForwardKey, used: usize, attempt: Attempt) -> Result<Decision, usize>
    ensures { result ≡ by_attempt key.now used attempt }
{
    match attempt {
        Attempt::Made(translation, taken) => Ok(Decision {
            passage: Passage::Rewritten(forward_meeting(&translation)),
            opened: Some((*key, translation)),
            moved: None,
            used: taken,
        }),
        Attempt::Clashed(taken) => Ok(settled(taken, Passage::Dropped(Cause::Clash))),
        Attempt::Exhausted => Ok(settled(used, Passage::Dropped(Cause::Exhausted))),
        Attempt::BadPick(place) => Err(place),
    }
}

fn round_passage(opened: &Option<Translation>, clashed: bool) -> Passage
    ensures { result ≡ round_passage opened.now clashed }
{
    match opened {
        Some(translation) => Passage::Rewritten(forward_meeting(translation)),
        None if clashed => Passage::Dropped(Cause::Clash),
        None => Passage::Dropped(Cause::Exhausted),
    }
}

/// What becomes of a packet for which the templates of a mapper were tried.
fn by_round(key: &ForwardKey, mapper: u32, round: Round) -> Decision
    ensures { Ok result ≡ by_round key.now mapper (Ok round) }
{
    Decision {
        passage: round_passage(&round.opened, round.clashed),
        opened: match round.opened {
            Some(translation) => Some((*key, translation)),
            None => None,
        },
        moved: Some((mapper, round.turn)),
        used: round.used,
    }
}

/// Tries the templates of a mapper.
#[tactic(auto, unfolding(crate::specs::Tries::ring))]
fn by_mapper(
    given: &Given<'_>,
    tables: &Tables,
    key: &ForwardKey,
    used: usize,
    mapper: u32,
) -> Result<Decision, usize>
    ensures { result ≡ by_mapper given.now.mappers.now given.now.pools.now given.now.picks.now tables.now key.now used mapper (mapper_at given.now.mappers.now mapper) }
{
    let turn = tables.turn(mapper);
    let round = match given.mappers.get(mapper as usize) {
        Some(templates) => ring(given, tables, key, templates.as_slice(), turn, used)?,
        None => Round {
            opened: None,
            turn,
            clashed: false,
            used,
        },
    };
    Ok(by_round(key, mapper, round))
}

/// Tries what a forward input says.
fn by_spec(
    given: &Given<'_>,
    tables: &Tables,
    key: &ForwardKey,
    used: usize,
    spec: Spec,
) -> Result<Decision, usize>
    ensures { result ≡ by_spec given.now.mappers.now given.now.pools.now given.now.picks.now tables.now key.now used spec }
{
    match spec {
        Spec::Keep(fout, rout) => {
            let template = keeping(fout, rout);
            by_attempt(key, used, try_template(given, tables, key, used, &template))
        }
        Spec::Pattern(template) => by_attempt(
            key,
            used,
            try_template(given, tables, key, used, &template),
        ),
        Spec::Mapper(mapper) => by_mapper(given, tables, key, used, mapper),
        Spec::Pass(out) => Ok(settled(used, Passage::Passed(out))),
        Spec::Drop => Ok(settled(used, Passage::Dropped(Cause::Unmapped))),
    }
}

/// Whether packets of an input are replies.
fn is_reply(spec: Spec) -> bool
    ensures { result ≡ is_reply spec }
{
    matches!(spec, Spec::Drop | Spec::Pass(_))
}

/// The template by which a mapping keeps the flow as it is.
fn keeping(fout: u32, rout: u32) -> Template
    ensures { result ≡ keeping fout rout }
{
    Template {
        sa: None,
        sp: SourcePort::Same,
        da: None,
        dp: None,
        fout,
        rout,
    }
}

/// What becomes of a packet with a key at an input with a specification, behind so many picks. The index of the
/// pick that is missing, or is no free port of its pool, where there is one.
#[tactic(auto, unfolding(crate::specs::Passages::decide))]
fn decide(
    given: &Given<'_>,
    tables: &Tables,
    key: &ForwardKey,
    used: usize,
    spec: Spec,
) -> Result<Decision, usize>
    ensures { result ≡ decide given.now.mappers.now given.now.pools.now given.now.picks.now tables.now key.now used spec }
{
    let meeting = if is_reply(spec) {
        tables.meets_reply(key.element, &key.before)
    } else {
        tables.meets_forward(key)
    };
    match meeting {
        Some(meeting) => Ok(settled(used, Passage::Rewritten(meeting))),
        None => by_spec(given, tables, key, used, spec),
    }
}

/// What becomes of a packet of a flow at an input of a rewriter, behind so many picks; without visible ports the packet
/// has no flow. The index of the pick that is missing, or is no free port of its pool, where there is one.
pub fn decide_for(
    given: &Given<'_>,
    tables: &Tables,
    port: (u32, u32),
    used: usize,
    spec: Spec,
    flow: Option<Flow>,
) -> Result<Decision, usize>
    ensures decided { result ≡ decide_for given.now.mappers.now given.now.pools.now given.now.picks.now tables.now port.0 port.1 used spec flow }
    // A mapping is opened only where none has its key, and a flow is changed only where there is one.
    ensures fresh { IfOk result (λ d. IfSome d.opened (λ mapping. meets_forward tables.now.mappings mapping.0 ≡ None)) }
    ensures within { used ≤ length given.now.picks.now → IfOk result (λ d. d.used ≤ length given.now.picks.now) }
    ensures ported { IfOk result (λ d. is_rewritten d.passage ≡ true → IsSome flow) }
{
    match flow {
        Some(before) => {
            let key = ForwardKey {
                element: port.0,
                input: port.1,
                before,
            };
            decide(given, tables, &key, used, spec)
        }
        None => Ok(settled(used, unported(spec))),
    }
}
