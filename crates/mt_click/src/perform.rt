//! The moves of the walk: what each action adds to the elements that are there.
ghost use Rattle.std.specs.Prelude.{◌≡◌, ◌+◌, ◌++◌, ◌≤◌, ◌<◌, [], length, drop, map, true, IfOk, OnOk};
ghost use Rattle.std.specs.List.{prefix_len};
ghost use Rattle.mt_syntax.specs.Comment.{bare};
ghost use Rattle.mt_syntax.specs.Reading.{Gives};
ghost use Rattle.mt_syntax.specs.Words.{bytes_of, inner};
ghost use Rattle.mt_click.specs.Elements.{arguments_in, scope_text, own_name, element_of, with_connection};
ghost use Rattle.mt_click.specs.Walk.{unknown_offset, known_names, is_parameter_action, body_of, parameters, counted, element_moved, roomed, entered, moved};
ghost use Rattle.mt_click.specs.Stacks.{bodies, numbers, top_bindings, top_enclosing, context_of, state};

use crate::action::{Action, Built, Connected, Created, CreatedItem, Side};
use crate::resolving::offset_of_own;
use mt_graph::Element;
use mt_syntax::{
    Binding, ClickWhy, Fault, ReadError, Use, Word, arguments_of, first_unknown, index_shown,
    inner_bytes, line_and_column, replaced, shown_of, word_bytes,
};
use mt_text::{Text, Texts};
use std::alloc::{AllocError, Global};

/// The most elements that a configuration may have.
pub const MOST_ELEMENTS: usize = 512;

/// A text, the actions of the walk over it, and where the body of each class begins in them.
#[derive(Clone, Copy)]
pub struct WalkInput<'a> {
    pub text: &'a [u8],
    pub actions: &'a [Action],
    pub classes: &'a [usize],
}

/// A use of a class that is walked next: its class, the number of its first element, its arguments.
#[derive(Drop)]
pub struct PendingUse {
    pub class: usize,
    pub number: usize,
    /// The number of the use.
    pub enclosing: usize,
    pub arguments: Texts,
}

/// A use of a class that is being walked: the action that is next, how many classes its body may use,
/// the number of its first element, and what the parameters of its class stand for.
#[derive(Drop)]
pub struct Activation {
    pub at: usize,
    pub class_count: usize,
    pub number: usize,
    /// The number of the use.
    pub enclosing: usize,
    pub bindings: Vec<Binding>,
}

/// The arguments of a use, with each parameter of the enclosing compound class replaced before they are
/// separated.
#[tactic(auto, unfolding(crate::specs::Elements::arguments_in))]
fn arguments_of_use(
    alloc: Global,
    text: &[u8],
    bindings: &[Binding],
    used: Use,
) -> Result<Texts, AllocError>
    ensures { IfOk result (λ t. t ≡ arguments_in text.now bindings.now used) }
{
    let shown = shown_of(alloc, inner_bytes(text, used.arguments))?;
    let whole = replaced(alloc, bindings, &shown)?;
    Ok(Texts::new(arguments_of(alloc, &whole)?))
}

// Where a `$` name stands that is no parameter.
fn offset_unknown(text: &[u8], arguments: Option<Word>, number: usize) -> usize
    requires bound { length text.now ≤ 1048576 }
    requires inside { 0 < length (inner text.now arguments) }
    ensures { result ≡ unknown_offset arguments (inner text.now arguments) number }
{
    match arguments {
        Some(word) => {
            let body = inner_bytes(text, Some(word));
            word.from + 1 + index_shown(body, number)
        }
        None => 0,
    }
}

// Whether each `$` name of an argument text is a parameter of the enclosing compound class.
#[tactic(auto, unfolding(crate::specs::Walk::known_names))]
fn check_names(alloc: Global, text: &[u8], bindings: &[Binding], used: Use) -> Result<(), ReadError>
    requires { length text.now ≤ 1048576 }
    ensures { Gives (λ _. true) result (known_names text.now bindings.now used) }
{
    let body = inner_bytes(text, used.arguments);
    if body.is_empty() {
        return Ok(());
    }
    let shown = shown_of(alloc, body)?;
    match first_unknown(bindings, &shown) {
        Some(number) => Err(ReadError::Fault(Fault {
            why: ClickWhy::UnknownName,
            at: offset_unknown(text, used.arguments, number),
        })),
        None => Ok(()),
    }
}

// The numbers of the uses that enclose an element, each with its `/`.
fn push_numbers(
    alloc: Global,
    name: &mut Vec<u8>,
    activations: &[Activation],
) -> Result<(), AllocError>
    ensures { OnOk result (name.new.items ≡ name.old.items ++ scope_text (numbers activations.now)) }
{
    let mut rest = activations;
    while let [activation, after @ ..] = rest {
        let number = activation.number;
        let text = format!(in alloc; "{number}/")?;
        name.extend_from_slice(text.as_bytes())?;
        rest = after;
    }
    Ok(())
}

// An element's own name, where it has one.
fn push_own(name: &mut Vec<u8>, text: &[u8], own: Option<Word>) -> Result<(), AllocError>
    ensures { OnOk result (name.new.items ≡ name.old.items ++ own_name text.now own) }
{
    match own {
        Some(word) => name.extend_from_slice(word_bytes(text, word)),
        None => Ok(()),
    }
}

// The element of a use, in the scope of the enclosing uses.
#[tactic(auto, unfolding(crate::specs::Elements::element_of))]
fn element(
    alloc: Global,
    text: &[u8],
    activations: &[Activation],
    bindings: &[Binding],
    own: Option<Word>,
    used: Use,
) -> Result<Element, AllocError>
    requires { length text.now ≤ 1048576 }
    ensures { IfOk result (λ e. e ≡ element_of text.now (numbers activations.now) bindings.now own used) }
{
    let args = arguments_of_use(alloc, text, bindings, used)?;
    let mut name = Vec::new(alloc);
    push_numbers(alloc, &mut name, activations)?;
    push_own(&mut name, text, own)?;
    let class = Text::copy_of(alloc, word_bytes(text, used.class))?;
    let (line, _) = line_and_column(text, offset_of_own(own, used));
    Ok(Element {
        class,
        args,
        name: Text::new(name),
        line,
    })
}

// The number of the innermost use, which is 0 outside classes.
fn enclosing_use(activations: &[Activation]) -> usize
    ensures { result ≡ top_enclosing activations.now }
{
    match activations.last() {
        Some(activation) => activation.enclosing,
        None => 0,
    }
}

// What the parameters stand for in the innermost use.
fn enclosing_bindings(activations: &[Activation]) -> &[Binding]
    ensures { result.now ≡ top_bindings activations.now }
{
    match activations.last() {
        Some(activation) => &activation.bindings,
        None => &[],
    }
}

/// The index at which the body of a compound class begins; the end of the actions where there is none.
pub fn body_index(input: &WalkInput<'_>, class: usize) -> usize
    ensures body { drop result input.now.actions.now ≡ body_of (bodies input.now) class }
    ensures within { result ≤ length input.now.actions.now }
{
    match input.classes.get(class) {
        Some(offset) => {
            if *offset < input.actions.len() {
                *offset
            } else {
                input.actions.len()
            }
        }
        None => input.actions.len(),
    }
}

/// The body of a class, from its parameters on; nothing where there is none.
pub fn body_from<'a>(input: &WalkInput<'a>, class: usize) -> &'a [Action]
    ensures { result.now ≡ body_of (bodies input.now) class }
{
    &input.actions[body_index(input, class)..]
}

// How many parameters stand in front of a body.
fn parameter_count(actions: &[Action]) -> usize
    ensures { result ≡ prefix_len is_parameter_action actions.now }
{
    actions
        .iter()
        .take_while(|m| matches!(**m, Action::Parameter(_)))
        .count()
}

// Whether a use has as many arguments as its compound class has parameters.
#[tactic(auto, unfolding(crate::specs::Walk::counted))]
fn count(
    alloc: Global,
    input: &WalkInput<'_>,
    bindings: &[Binding],
    class: usize,
    used: Use,
) -> Result<(), ReadError>
    ensures { Gives (λ _. true) result (counted input.now.text.now (bodies input.now) bindings.now class used) }
{
    let args = arguments_of_use(alloc, input.text, bindings, used)?;
    if args.as_slice().len() == parameter_count(body_from(input, class)) {
        Ok(())
    } else {
        Err(ReadError::Fault(Fault {
            why: ClickWhy::Arity,
            at: used.class.from,
        }))
    }
}

// Creates an element, where there is room for it.
#[tactic(auto, unfolding(crate::specs::Walk::element_moved))]
fn push_element(
    alloc: Global,
    input: &WalkInput<'_>,
    activations: &[Activation],
    own: Option<Word>,
    used: Use,
    built: &mut Built,
) -> Result<Option<PendingUse>, ReadError>
    requires { length input.now.text.now ≤ 1048576 }
    ensures { Gives (λ e. (state built.new, e)) result (element_moved input.now.text.now (context_of activations.now) (state built.old) own used) }
{
    if built.elements.len() >= MOST_ELEMENTS {
        return Err(ReadError::Fault(Fault {
            why: ClickWhy::TooManyElements,
            at: used.class.from,
        }));
    }
    let bindings = enclosing_bindings(activations);
    check_names(alloc, input.text, bindings, used)?;
    let new = element(alloc, input.text, activations, bindings, own, used)?;
    built.created.push(Created {
        enclosing: enclosing_use(activations),
        offset: offset_of_own(own, used),
        item: CreatedItem::Element(built.elements.len() as u32),
    })?;
    built.elements.push(new)?;
    Ok(None)
}

// Whether so many more elements have room.
#[tactic(auto, unfolding(crate::specs::Walk::roomed))]
fn check_room(built: &Built, number: usize, used: Use) -> Result<Option<PendingUse>, ReadError>
    ensures { Gives (λ e. (state built.now, e)) result (roomed (state built.now) number used) }
{
    if number > MOST_ELEMENTS || built.elements.len() > MOST_ELEMENTS - number {
        return Err(ReadError::Fault(Fault {
            why: ClickWhy::TooManyElements,
            at: used.class.from,
        }));
    }
    Ok(None)
}

// Creates the use of a compound class, of which the body is walked next.
#[tactic(auto, unfolding(crate::specs::Walk::entered))]
fn enter(
    alloc: Global,
    input: &WalkInput<'_>,
    activations: &[Activation],
    class: usize,
    used: Use,
    offset: usize,
    built: &mut Built,
) -> Result<Option<PendingUse>, ReadError>
    requires { length input.now.text.now ≤ 1048576 }
    ensures { Gives (λ e. (state built.new, e)) result (entered input.now.text.now (context_of activations.now) (state built.old) class used offset) }
{
    let bindings = enclosing_bindings(activations);
    check_names(alloc, input.text, bindings, used)?;
    let arguments = arguments_of_use(alloc, input.text, bindings, used)?;
    let number = built.created.len() + 1;
    built.created.push(Created {
        enclosing: enclosing_use(activations),
        offset,
        item: CreatedItem::Use(number),
    })?;
    Ok(Some(PendingUse {
        class,
        number: built.elements.len(),
        enclosing: number,
        arguments,
    }))
}

// Adds a connection of the enclosing use.
fn connect(
    activations: &[Activation],
    arrow: usize,
    from: Side,
    to: Side,
    built: &mut Built,
) -> Result<(), AllocError>
    ensures { OnOk result (state built.new ≡ with_connection (context_of activations.now) (state built.old) arrow from to) }
{
    built.connected.push(Connected {
        enclosing: enclosing_use(activations),
        arrow,
        from,
        to,
    })?;
    Ok(())
}

/// What an action adds to the elements, and the use that is walked next. `activations` are the uses that enclose it.
#[tactic(auto, unfolding(crate::specs::Walk::moved))]
pub fn perform(
    alloc: Global,
    input: &WalkInput<'_>,
    activations: &[Activation],
    action: Action,
    built: &mut Built,
) -> Result<Option<PendingUse>, ReadError>
    requires { length input.now.text.now ≤ 1048576 }
    ensures { Gives (λ e. (state built.new, e)) result (moved input.now.text.now (bodies input.now) (context_of activations.now) (state built.old) action) }
{
    match action {
        Action::MissingPort(fault) => Err(ReadError::Fault(fault)),
        Action::Count(class, used) => {
            count(alloc, input, enclosing_bindings(activations), class, used)?;
            Ok(None)
        }
        Action::Room(number, used) => check_room(built, number, used),
        Action::Element(own, used) => { push_element(alloc, input, activations, own, used, built) }
        Action::Enter(class, used, offset) => {
            enter(alloc, input, activations, class, used, offset, built)
        }
        Action::Connect(arrow, from, to) => {
            connect(activations, arrow, from, to, built)?;
            Ok(None)
        }
        _ => Ok(None),
    }
}
