//! The walk over a whole configuration.
ghost use Rattle.std.specs.Prelude.{◌≡◌, ◌+◌, ◌++◌, ◌≤◌, ◌<◌, List, [], false, length, drop, map, IfOk, OnOk};
ghost use Rattle.mt_syntax.specs.Reading.{Gives};
ghost use Rattle.mt_click.specs.Elements.{top, empty, State};
ghost use Rattle.mt_click.specs.Walk.{bound, body_of, bodies_in, enter, entering, walk_all, walked};
ghost use Rattle.mt_click.specs.Stacks.{bodies, state};
ghost use Rattle.mt_click.specs.Runs.{is_done, run_all, cost_all, use_cost, used, moved_on, Continues};

use crate::action::{Action, Built};
use crate::perform::{Activation, PendingUse, WalkInput, body_from, body_index, perform};
use mt_syntax::{Binding, ReadError, word_bytes};
use mt_text::Text;
use std::alloc::{AllocError, Global};

// Where the body of each class begins in the actions.
fn class_indices(alloc: Global, actions: &[Action]) -> Result<Vec<usize>, AllocError>
    ensures { IfOk result (λ v. map (λ at. drop at actions.now) v.items ≡ bodies_in actions.now) }
{
    let mut indices = Vec::new(alloc);
    for at in 0..actions.len() {
        if matches!(actions[at], Action::Class) {
            indices.push(at + 1)?;
        }
    }
    Ok(indices)
}

// A parameter without its `$`.
fn behind_first(bytes: &[u8]) -> &[u8]
    ensures { result.now ≡ drop 1 bytes.now }
{
    if bytes.is_empty() { bytes } else { &bytes[1..] }
}

// A parameter, given with its `$`, with its argument.
fn binding_of(alloc: Global, name: &[u8], argument: &[u8]) -> Result<Binding, AllocError>
    ensures name { IfOk result (λ b. b.name ≡ drop 1 name.now) }
    ensures argument { IfOk result (λ b. b.argument ≡ argument.now) }
{
    Ok(Binding {
        name: Text::copy_of(alloc, behind_first(name))?,
        argument: Text::copy_of(alloc, argument)?,
    })
}

// What the parameters of a class stand for at a use of it.
fn bindings_of(
    alloc: Global,
    text: &[u8],
    body: &[Action],
    arguments: &[Text],
) -> Result<Vec<Binding>, AllocError>
    ensures { IfOk result (λ v. v.items ≡ bound text.now body.now arguments.now) }
{
    let mut bindings = Vec::new(alloc);
    let mut actions = body;
    let mut rest = arguments;
    while let [argument, after @ ..] = rest {
        match actions {
            [Action::Parameter(word), behind @ ..] => {
                bindings.push(binding_of(alloc, word_bytes(text, *word), argument.bytes())?)?;
                actions = behind;
            }
            _ => return Ok(bindings),
        }
        rest = after;
    }
    Ok(bindings)
}

// The use of a class as it begins.
fn activation_of(
    alloc: Global,
    input: &WalkInput<'_>,
    pending: PendingUse,
) -> Result<Activation, AllocError>
    ensures at { IfOk result (λ f. drop f.at input.now.actions.now ≡ body_of (bodies input.now) pending.class) }
    ensures class_count { IfOk result (λ f. f.class_count ≡ pending.class) }
    ensures number { IfOk result (λ f. f.number ≡ pending.number) }
    ensures enclosing { IfOk result (λ f. f.enclosing ≡ pending.enclosing) }
    ensures bindings { IfOk result (λ f. f.bindings.items ≡ bound input.now.text.now (body_of (bodies input.now) pending.class) pending.arguments) }
{
    let PendingUse {
        class,
        number,
        enclosing,
        arguments,
    } = pending;
    let body = body_from(input, class);
    let at = body_index(input, class);
    let bindings = bindings_of(alloc, input.text, body, arguments.as_slice())?;
    Ok(Activation {
        at,
        class_count: class,
        number,
        enclosing,
        bindings,
    })
}

// A use that was created is walked next.
fn push_use(
    alloc: Global,
    input: &WalkInput<'_>,
    class_count: usize,
    pending: Option<PendingUse>,
    activations: &mut Vec<Activation>,
) -> Result<(), AllocError>
    ensures run { OnOk result ((es : State) → run_all input.now activations.new.items es ≡ used input.now class_count activations.old.items pending es) }
    ensures cost { OnOk result (cost_all input.now activations.new.items ≡ cost_all input.now activations.old.items + use_cost input.now class_count pending) }
{
    match pending {
        Some(pending) => {
            if pending.class < class_count {
                activations.push(activation_of(alloc, input, pending)?)?;
            }
            Ok(())
        }
        None => Ok(()),
    }
}

// Whether a body ends at an index of the actions.
fn is_end(input: &WalkInput<'_>, at: usize) -> bool
    ensures { result ≡ is_done (drop at input.now.actions.now) }
{
    at >= input.actions.len() || matches!(input.actions[at], Action::Close)
}

// Walks over one action of the innermost use.
fn step(
    alloc: Global,
    input: &WalkInput<'_>,
    activations: &mut Vec<Activation>,
    built: &mut Built,
) -> Result<(), ReadError>
    requires bound { length input.now.text.now ≤ 1048576 }
    requires some { 0 < length activations.old.items }
    ensures run { Continues result (run_all input.now activations.old.items (state built.old)) (run_all input.now activations.new.items (state built.new)) }
    ensures cost { OnOk result (cost_all input.now activations.new.items < cost_all input.now activations.old.items) }
{
    let Some(activation) = activations.pop() else {
        return Ok(());
    };
    let Activation {
        at,
        class_count,
        number,
        enclosing,
        bindings,
    } = activation;
    if is_end(input, at) {
        return Ok(());
    }
    activations.push(Activation {
        at: at + 1,
        class_count,
        number,
        enclosing,
        bindings,
    })?;
    let pending = match perform(alloc, input, activations, input.actions[at], built) {
        Ok(pending) => pending,
        Err(fault) => return Err(fault),
    };
    push_use(alloc, input, class_count, pending, activations)?;
    Ok(())
}

// Walks over the use of a class, and all uses in it.
fn walk_use(
    alloc: Global,
    input: &WalkInput<'_>,
    class_count: usize,
    pending: Option<PendingUse>,
    built: &mut Built,
) -> Result<(), ReadError>
    requires { length input.now.text.now ≤ 1048576 }
    ensures { Gives (λ _. (state built.new)) result (entering (enter input.now.text.now (bodies input.now) class_count) top ((state built.old), pending)) }
{
    let mut activations = Vec::new(alloc);
    push_use(alloc, input, class_count, pending, &mut activations)?;
    'uses: while !activations.is_empty() {
        step(alloc, input, &mut activations, built)?;
    }
    Ok(())
}

// Walks over an action outside classes.
fn walk_top(
    alloc: Global,
    input: &WalkInput<'_>,
    class_count: usize,
    action: Action,
    built: &mut Built,
) -> Result<(), ReadError>
    requires { length input.now.text.now ≤ 1048576 }
    ensures { Gives (λ _. (state built.new)) result (moved_on input.now class_count (state built.old) action) }
{
    let pending = perform(alloc, input, &[], action, built)?;
    walk_use(alloc, input, class_count, pending, built)
}

// Walks over all actions.
#[tactic(auto, unfolding(crate::specs::Walk::walk_all))]
fn walk_input(alloc: Global, input: &WalkInput<'_>) -> Result<Built, ReadError>
    requires { length input.now.text.now ≤ 1048576 }
    ensures { Gives state result (walk_all input.now.text.now (bodies input.now) 0 false input.now.actions.now empty) }
{
    let mut built = Built {
        elements: Vec::new(alloc),
        created: Vec::new(alloc),
        connected: Vec::new(alloc),
    };
    let mut class_count = 0;
    let mut inside = false;
    let mut rest = input.actions;
    while let [action, after @ ..] = rest {
        match action {
            Action::Class => {
                class_count += 1;
                inside = true;
            }
            Action::Close => inside = false,
            Action::Name(fault) => return Err(ReadError::Fault(*fault)),
            _ => {
                if !inside {
                    walk_top(alloc, input, class_count, *action, &mut built)?;
                }
            }
        }
        rest = after;
    }
    Ok(built)
}

/// What a configuration of these actions makes, or the first fault that the walk meets.
pub fn built_of(alloc: Global, text: &[u8], actions: &[Action]) -> Result<Built, ReadError>
    requires { length text.now ≤ 1048576 }
    ensures { Gives state result (walked text.now actions.now) }
{
    let classes = class_indices(alloc, actions)?;
    let input = WalkInput {
        text,
        actions,
        classes: &classes,
    };
    walk_input(alloc, &input)
}
