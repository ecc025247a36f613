//! The actions of the walk: what each phrase does or has at fault, each name told as what it stands for.
ghost use Rattle.std.specs.Prelude.{◌≡◌, ◌+◌, ◌++◌, ◌^◌, ◌<◌, IfOk, OnOk, None, []};
ghost use Rattle.mt_click.specs.Scopes.{outside};
ghost use Rattle.mt_click.specs.Tables.{AreTables, names};
ghost use Rattle.mt_click.specs.Elements.{own_offset};
ghost use Rattle.mt_click.specs.Actions.{naming, using, counting_of, counting, making_of, making, connecting, reaching, written, first_offset, left_out, leaving_out, unnamed, named, item_actions, whole_endpoint, endpoint_actions, rooming, group_actions, class_actions, phrase_actions, actions_from, actions_in};

use crate::action::{Action, Side};
use crate::names::{is_followed, wait};
use crate::sides::{side_of_phrase, sink_of};
use crate::symbols::{
    Scope, Symbols, class_of_word, has_port, item_class, makes_new, redeclares, scope_behind,
    symbols_in, uses_itself,
};
use mt_syntax::{ClickWhy, Endpoint, Fault, Item, Phrase, PortNumber, Use, Word};
use std::alloc::{AllocError, Global};

/// An end of a connection, the class of what it stands for, where that is a use of one, and whether a
/// `->` stands before the end and behind it.
#[derive(Clone, Copy)]
struct Visited {
    end: Endpoint,
    class: Option<usize>,
    next: bool,
    followed: bool,
}

// A name is declared: a fault where its scope has it before.
#[tactic(auto, unfolding(crate::specs::Actions::naming))]
fn push_naming(
    out: &mut Vec<Action>,
    symbols: &Symbols<'_>,
    scope: Scope,
    word: Word,
) -> Result<(), AllocError>
    requires tables { AreTables symbols.now }
    requires bound { scope.class_count < 2 ^ 63 }
    ensures { OnOk result (out.new.items ≡ out.old.items ++ naming (names symbols.now) scope word) }
{
    if redeclares(symbols, scope, word) {
        out.push(Action::Name(Fault {
            why: ClickWhy::Redeclared,
            at: word.from,
        }))?;
    }
    Ok(())
}

// A class is used: a fault where it is the compound class that this body is of.
#[tactic(auto, unfolding(crate::specs::Actions::using))]
fn push_using(
    out: &mut Vec<Action>,
    symbols: &Symbols<'_>,
    scope: Scope,
    word: Word,
) -> Result<(), AllocError>
    ensures { OnOk result (out.new.items ≡ out.old.items ++ using (names symbols.now) scope word) }
{
    if uses_itself(symbols, scope, word) {
        out.push(Action::Name(Fault {
            why: ClickWhy::Recursive,
            at: word.from,
        }))?;
    }
    Ok(())
}

// The arguments of a use of a compound class are counted.
#[tactic(auto, unfolding(crate::specs::Actions::counting))]
fn push_counting(
    out: &mut Vec<Action>,
    symbols: &Symbols<'_>,
    scope: Scope,
    used: Use,
) -> Result<(), AllocError>
    requires { AreTables symbols.now }
    ensures { OnOk result (out.new.items ≡ out.old.items ++ counting (names symbols.now) scope used) }
{
    match class_of_word(symbols, scope, used.class) {
        Some(class) => {
            out.push(Action::Count(class, used))?;
            Ok(())
        }
        None => Ok(()),
    }
}

/// Where what a use makes is declared: at its name, or else at its class.
pub fn offset_of_own(own: Option<Word>, used: Use) -> usize
    ensures { result ≡ own_offset own used }
{
    match own {
        Some(word) => word.from,
        None => used.class.from,
    }
}

// A use creates an element, or the use of a compound class.
fn created_action(name: Option<Word>, used: Use, class: Option<usize>) -> Action
    ensures { result ≡ making_of name used class }
{
    match class {
        Some(class) => Action::Enter(class, used, offset_of_own(name, used)),
        None => Action::Element(name, used),
    }
}

// What a use creates, under the name where it has one.
#[tactic(auto, unfolding(crate::specs::Actions::making))]
fn push_making(
    out: &mut Vec<Action>,
    symbols: &Symbols<'_>,
    scope: Scope,
    name: Option<Word>,
    used: Use,
) -> Result<(), AllocError>
    requires { AreTables symbols.now }
    ensures { OnOk result (out.new.items ≡ out.old.items ++ making (names symbols.now) scope name used) }
{
    out.push(created_action(name, used, class_of_word(symbols, scope, used.class)))?;
    Ok(())
}

// A connection comes to a port, or leaves one: a fault where the body of the compound class does not name it.
#[tactic(auto, unfolding(crate::specs::Actions::reaching))]
fn push_reaching(
    out: &mut Vec<Action>,
    symbols: &Symbols<'_>,
    class: Option<usize>,
    side: &[u8],
    number: u32,
    at: usize,
) -> Result<(), AllocError>
    requires { AreTables symbols.now }
    ensures { OnOk result (out.new.items ≡ out.old.items ++ reaching (names symbols.now) class side.now number at) }
{
    match class {
        Some(class) => {
            if !has_port(symbols, class, side, number) {
                out.push(Action::MissingPort(Fault {
                    why: ClickWhy::NoPort,
                    at,
                }))?;
            }
            Ok(())
        }
        None => Ok(()),
    }
}

// The same for a port that is written out.
#[tactic(auto, unfolding(crate::specs::Actions::written))]
fn push_written(
    out: &mut Vec<Action>,
    symbols: &Symbols<'_>,
    class: Option<usize>,
    side: &[u8],
    port: Option<PortNumber>,
) -> Result<(), AllocError>
    requires { AreTables symbols.now }
    ensures { OnOk result (out.new.items ≡ out.old.items ++ written (names symbols.now) class side.now port) }
{
    match port {
        Some(port) => push_reaching(out, symbols, class, side, port.number, port.at),
        None => Ok(()),
    }
}

// The byte of the first word of an item.
fn offset_of_item(item: Item) -> usize
    ensures { result ≡ first_offset item }
{
    match item {
        Item::Name(name) => name.from,
        Item::Declared(name, _) => name.from,
        Item::Made(used) => used.class.from,
    }
}

// The same for port 0 that is left out, where a `->` stands on that side.
#[tactic(auto, unfolding(crate::specs::Actions::left_out))]
fn push_left_out(
    out: &mut Vec<Action>,
    symbols: &Symbols<'_>,
    class: Option<usize>,
    side: &[u8],
    followed: bool,
    port: Option<PortNumber>,
    at: usize,
) -> Result<(), AllocError>
    requires { AreTables symbols.now }
    ensures { OnOk result (out.new.items ≡ out.old.items ++ left_out (names symbols.now) class side.now followed port at) }
{
    if followed && port.is_none() {
        push_reaching(out, symbols, class, side, 0, at)
    } else {
        Ok(())
    }
}

// The ports of an endpoint that are left out.
#[tactic(auto, unfolding(crate::specs::Actions::leaving_out))]
fn push_leaving_out(
    out: &mut Vec<Action>,
    symbols: &Symbols<'_>,
    visited: Visited,
) -> Result<(), AllocError>
    requires { AreTables symbols.now }
    ensures { OnOk result (out.new.items ≡ out.old.items ++ leaving_out (names symbols.now) visited.class visited.next visited.followed visited.end) }
{
    let at = offset_of_item(visited.end.item);
    push_left_out(
        out,
        symbols,
        visited.class,
        b"input",
        visited.next,
        visited.end.input,
        at,
    )?;
    push_left_out(
        out,
        symbols,
        visited.class,
        b"output",
        visited.followed,
        visited.end.output,
        at,
    )
}

// An endpoint that is a class: an unnamed element or use.
#[tactic(auto, unfolding(crate::specs::Actions::unnamed))]
fn push_unnamed(
    out: &mut Vec<Action>,
    symbols: &Symbols<'_>,
    scope: Scope,
    visited: Visited,
    used: Use,
) -> Result<(), AllocError>
    requires { AreTables symbols.now }
    ensures { OnOk result (out.new.items ≡ out.old.items ++ unnamed (names symbols.now) scope visited.class visited.next visited.followed visited.end used) }
{
    push_using(out, symbols, scope, used.class)?;
    push_counting(out, symbols, scope, used)?;
    push_leaving_out(out, symbols, visited)?;
    push_making(out, symbols, scope, None, used)
}

// An endpoint that declares a name.
#[tactic(auto, unfolding(crate::specs::Actions::named))]
fn push_named(
    out: &mut Vec<Action>,
    symbols: &Symbols<'_>,
    scope: Scope,
    visited: Visited,
    name: Word,
    used: Use,
) -> Result<(), AllocError>
    requires tables { AreTables symbols.now }
    requires bound { scope.class_count < 2 ^ 63 }
    ensures { OnOk result (out.new.items ≡ out.old.items ++ named (names symbols.now) scope visited.class visited.next visited.followed visited.end name used) }
{
    push_naming(out, symbols, scope, name)?;
    push_leaving_out(out, symbols, visited)?;
    push_using(out, symbols, scope, used.class)?;
    push_counting(out, symbols, scope, used)?;
    push_making(out, symbols, scope, Some(name), used)
}

// What an endpoint does between its ports.
#[tactic(auto, unfolding(crate::specs::Actions::item_actions))]
fn push_item(
    out: &mut Vec<Action>,
    symbols: &Symbols<'_>,
    scope: Scope,
    visited: Visited,
) -> Result<(), AllocError>
    requires tables { AreTables symbols.now }
    requires bound { scope.class_count < 2 ^ 63 }
    ensures { OnOk result (out.new.items ≡ out.old.items ++ item_actions (names symbols.now) scope visited.class visited.next visited.followed visited.end visited.end.item) }
{
    match visited.end.item {
        Item::Declared(name, used) => { push_named(out, symbols, scope, visited, name, used) }
        Item::Made(used) => push_unnamed(out, symbols, scope, visited, used),
        Item::Name(word) => {
            if makes_new(symbols, scope, word) {
                let used = Use {
                    class: word,
                    arguments: None,
                };
                push_unnamed(out, symbols, scope, visited, used)
            } else {
                push_leaving_out(out, symbols, visited)
            }
        }
    }
}

// What an endpoint does: its input port, its item, its output port.
#[tactic(auto, unfolding(crate::specs::Actions::whole_endpoint))]
fn push_whole_endpoint(
    out: &mut Vec<Action>,
    symbols: &Symbols<'_>,
    scope: Scope,
    visited: Visited,
) -> Result<(), AllocError>
    requires tables { AreTables symbols.now }
    requires bound { scope.class_count < 2 ^ 63 }
    ensures { OnOk result (out.new.items ≡ out.old.items ++ whole_endpoint (names symbols.now) scope visited.class visited.next visited.followed visited.end) }
{
    push_written(out, symbols, visited.class, b"input", visited.end.input)?;
    push_item(out, symbols, scope, visited)?;
    push_written(out, symbols, visited.class, b"output", visited.end.output)
}

// The same, with the compound class of the item looked up once.
#[tactic(auto, unfolding(crate::specs::Actions::endpoint_actions))]
fn push_endpoint(
    out: &mut Vec<Action>,
    symbols: &Symbols<'_>,
    scope: Scope,
    next: bool,
    followed: bool,
    end: Endpoint,
) -> Result<(), AllocError>
    requires tables { AreTables symbols.now }
    requires bound { scope.class_count < 2 ^ 63 }
    ensures { OnOk result (out.new.items ≡ out.old.items ++ endpoint_actions (names symbols.now) scope next followed end) }
{
    let visited = Visited {
        end,
        class: item_class(symbols, scope, end.item),
        next,
        followed,
    };
    push_whole_endpoint(out, symbols, scope, visited)
}

// The elements of one `::` have room together, or none has.
#[tactic(auto, unfolding(crate::specs::Actions::rooming))]
fn push_rooming(
    out: &mut Vec<Action>,
    symbols: &Symbols<'_>,
    scope: Scope,
    used: Use,
    waiting: &[Word],
) -> Result<(), AllocError>
    requires { AreTables symbols.now }
    ensures { OnOk result (out.new.items ≡ out.old.items ++ rooming (names symbols.now) scope used waiting.now) }
{
    if class_of_word(symbols, scope, used.class).is_none() {
        out.push(Action::Room(waiting.len(), used))?;
    }
    Ok(())
}

// What the names before one `::` create, in their order.
#[tactic(auto, unfolding(crate::specs::Actions::group_actions))]
fn push_group(
    out: &mut Vec<Action>,
    symbols: &Symbols<'_>,
    scope: Scope,
    used: Use,
    waiting: &[Word],
) -> Result<(), AllocError>
    requires { AreTables symbols.now }
    ensures { OnOk result (out.new.items ≡ out.old.items ++ group_actions (names symbols.now) scope used waiting.now) }
{
    let mut rest = waiting;
    while let [word, after @ ..] = rest {
        push_counting(out, symbols, scope, used)?;
        push_making(out, symbols, scope, Some(*word), used)?;
        rest = after;
    }
    Ok(())
}

// The declaration of a compound class: a fault where there is one of its name before.
#[tactic(auto, unfolding(crate::specs::Actions::class_actions))]
fn push_class(
    out: &mut Vec<Action>,
    symbols: &Symbols<'_>,
    scope: Scope,
    word: Word,
) -> Result<(), AllocError>
    requires { AreTables symbols.now }
    ensures { OnOk result (out.new.items ≡ out.old.items ++ class_actions (names symbols.now) scope word) }
{
    if class_of_word(symbols, scope, word).is_some() {
        out.push(Action::Name(Fault {
            why: ClickWhy::Redeclared,
            at: word.from,
        }))?;
    }
    out.push(Action::Class)?;
    Ok(())
}

// A connection, where both its ends are there.
fn push_connecting(
    out: &mut Vec<Action>,
    arrow: usize,
    from: Option<Side>,
    to: Option<Side>,
) -> Result<(), AllocError>
    ensures { OnOk result (out.new.items ≡ out.old.items ++ connecting arrow from to) }
{
    if let (Some(from), Some(to)) = (from, to) {
        out.push(Action::Connect(arrow, from, to))?;
    }
    Ok(())
}

// The actions of a phrase.
#[tactic(auto, unfolding(crate::specs::Actions::phrase_actions))]
fn push_phrase(
    out: &mut Vec<Action>,
    symbols: &Symbols<'_>,
    scope: Scope,
    waiting: &[Word],
    before: Option<Side>,
    followed: bool,
    phrase: Phrase,
) -> Result<(), AllocError>
    requires tables { AreTables symbols.now }
    requires bound { scope.class_count < 2 ^ 63 }
    ensures { OnOk result (out.new.items ≡ out.old.items ++ phrase_actions (names symbols.now) scope waiting.now before followed phrase) }
{
    match phrase {
        Phrase::Class(word) => push_class(out, symbols, scope, word),
        Phrase::Parameter(word) => {
            out.push(Action::Parameter(word))?;
            Ok(())
        }
        Phrase::Close => {
            out.push(Action::Close)?;
            Ok(())
        }
        Phrase::Declared(word) => push_naming(out, symbols, scope, word),
        Phrase::Made(used) => {
            push_using(out, symbols, scope, used.class)?;
            push_rooming(out, symbols, scope, used, waiting)?;
            push_group(out, symbols, scope, used, waiting)
        }
        Phrase::First(end) => push_endpoint(out, symbols, scope, false, followed, end),
        Phrase::Next(arrow, end) => {
            push_endpoint(out, symbols, scope, true, followed, end)?;
            push_connecting(out, arrow, before, sink_of(symbols, scope, end))
        }
    }
}

// Phrase after phrase, with the scope, the names that wait for `::` and the end before a `->`.
#[tactic(auto, unfolding(crate::specs::Actions::actions_from))]
fn resolved(
    alloc: Global,
    symbols: &Symbols<'_>,
    phrases: &[Phrase],
) -> Result<Vec<Action>, AllocError>
    requires { AreTables symbols.now }
    ensures { IfOk result (λ v. v.items ≡ actions_from (names symbols.now) outside [] None phrases.now) }
{
    let mut out = Vec::new(alloc);
    let mut waiting = Vec::new(alloc);
    let mut before = None;
    let mut scope = Scope {
        inside: false,
        class_count: 0,
    };
    let mut rest = phrases;
    while let [phrase, after @ ..] = rest {
        push_phrase(
            &mut out,
            symbols,
            scope,
            &waiting,
            before,
            is_followed(after),
            *phrase,
        )?;
        wait(&mut waiting, *phrase)?;
        before = side_of_phrase(symbols, scope, *phrase);
        scope = scope_behind(scope, *phrase);
        rest = after;
    }
    Ok(out)
}

/// The actions of the walk over a configuration.
pub fn actions_of(alloc: Global, text: &[u8], phrases: &[Phrase]) -> Result<Vec<Action>, AllocError>
    ensures { IfOk result (λ v. v.items ≡ actions_in text.now phrases.now) }
{
    let symbols = symbols_in(alloc, text, phrases)?;
    resolved(alloc, &symbols, phrases)
}
