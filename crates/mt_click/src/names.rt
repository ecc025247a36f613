//! What is declared in a configuration: classes, names, and the ports that bodies name.
ghost use Rattle.std.specs.Prelude.{◌≡◌, ◌++◌, ◌^◌, ◌<◌, map, IfOk, OnOk, []};
ghost use Rattle.mt_click.specs.Scopes.{scope_number, outside};
ghost use Rattle.mt_click.specs.Names.{entry, class_at, classes_in, class_of, waiting_behind, declared_in, declared_at, names_from, number_of, is_followed, port_at, input_at, output_at, ports_at, ports_from};
ghost use Rattle.mt_click.specs.Tables.{IsTable};

use crate::symbols::{Entry, Scope, Table, number_of, scope_behind};
use mt_syntax::{Endpoint, Item, Phrase, PortNumber, Word, word_bytes};
use std::alloc::{AllocError, Global};

// The entry of a compound class, where a phrase declares one. Classes have no scope of their own.
fn push_class(entries: &mut Vec<Entry>, phrase: Phrase) -> Result<(), AllocError>
    ensures { OnOk result (entries.new.items ≡ entries.old.items ++ class_at phrase) }
{
    match phrase {
        Phrase::Class(word) => {
            entries.push(Entry {
                scope: 0,
                number: 0,
                word,
                class: None,
            })?;
            Ok(())
        }
        _ => Ok(()),
    }
}

/// The classes, in the order of their declarations.
#[tactic(auto, unfolding(crate::specs::Names::classes_in))]
pub fn classes_of(alloc: Global, phrases: &[Phrase]) -> Result<Vec<Entry>, AllocError>
    ensures { IfOk result (λ v. v.items ≡ classes_in phrases.now) }
{
    let mut entries = Vec::new(alloc);
    let mut rest = phrases;
    while let [phrase, after @ ..] = rest {
        push_class(&mut entries, *phrase)?;
        rest = after;
    }
    Ok(entries)
}

/// The class of a name, among those declared before.
#[tactic(auto, unfolding(crate::specs::Names::class_of))]
pub fn class_in(classes: &Table<'_>, scope: Scope, name: &[u8]) -> Option<usize>
    requires { IsTable classes.now }
    ensures { result ≡ class_of classes.now.text.now classes.now.entries.items scope name.now }
{
    match classes.find(0, 0, name) {
        Some(class) => {
            if class < scope.class_count {
                Some(class)
            } else {
                None
            }
        }
        None => None,
    }
}

/// Keeps the names that wait for the use behind their `::`.
pub fn wait(waiting: &mut Vec<Word>, phrase: Phrase) -> Result<(), AllocError>
    ensures { OnOk result (waiting.new.items ≡ waiting_behind waiting.old.items phrase) }
{
    match phrase {
        Phrase::Declared(word) => {
            waiting.push(word)?;
            Ok(())
        }
        _ => {
            waiting.clear();
            Ok(())
        }
    }
}

// An entry for each name before one `::`.
fn push_group(
    entries: &mut Vec<Entry>,
    scope: Scope,
    class: Option<usize>,
    waiting: &[Word],
) -> Result<(), AllocError>
    requires { scope.class_count < 2 ^ 63 }
    ensures { OnOk result (entries.new.items ≡ entries.old.items ++ map (λ w. entry (scope_number scope) 0 w class) waiting.now) }
{
    let scope = number_of(scope);
    let mut rest = waiting;
    while let [word, after @ ..] = rest {
        entries.push(Entry {
            scope,
            number: 0,
            word: *word,
            class,
        })?;
        rest = after;
    }
    Ok(())
}

// The entry of NAME "::" use as an endpoint.
#[tactic(auto, unfolding(crate::specs::Names::declared_in))]
fn push_declared(
    entries: &mut Vec<Entry>,
    classes: &Table<'_>,
    scope: Scope,
    item: Item,
) -> Result<(), AllocError>
    requires table { IsTable classes.now }
    requires bound { scope.class_count < 2 ^ 63 }
    ensures { OnOk result (entries.new.items ≡ entries.old.items ++ declared_in classes.now.text.now classes.now.entries.items scope item) }
{
    match item {
        Item::Declared(word, used) => {
            let class = class_in(classes, scope, word_bytes(classes.text, used.class));
            entries.push(Entry {
                scope: number_of(scope),
                number: 0,
                word,
                class,
            })?;
            Ok(())
        }
        _ => Ok(()),
    }
}

// The entries of the names that a phrase declares.
#[tactic(auto, unfolding(crate::specs::Names::declared_at))]
fn push_names(
    entries: &mut Vec<Entry>,
    classes: &Table<'_>,
    scope: Scope,
    waiting: &[Word],
    phrase: Phrase,
) -> Result<(), AllocError>
    requires table { IsTable classes.now }
    requires bound { scope.class_count < 2 ^ 63 }
    ensures { OnOk result (entries.new.items ≡ entries.old.items ++ declared_at classes.now.text.now classes.now.entries.items scope waiting.now phrase) }
{
    match phrase {
        Phrase::Made(used) => {
            let class = class_in(classes, scope, word_bytes(classes.text, used.class));
            push_group(entries, scope, class, waiting)
        }
        Phrase::First(end) => push_declared(entries, classes, scope, end.item),
        Phrase::Next(_, end) => push_declared(entries, classes, scope, end.item),
        _ => Ok(()),
    }
}

/// The names that are declared, in the order of their declarations.
#[tactic(auto, unfolding(crate::specs::Names::names_from))]
pub fn names_of(
    alloc: Global,
    classes: &Table<'_>,
    phrases: &[Phrase],
) -> Result<Vec<Entry>, AllocError>
    requires { IsTable classes.now }
    ensures { IfOk result (λ v. v.items ≡ names_from classes.now.text.now classes.now.entries.items outside [] phrases.now) }
{
    let mut entries = Vec::new(alloc);
    let mut waiting = Vec::new(alloc);
    let mut scope = Scope {
        inside: false,
        class_count: 0,
    };
    let mut rest = phrases;
    while let [phrase, after @ ..] = rest {
        push_names(&mut entries, classes, scope, &waiting, *phrase)?;
        wait(&mut waiting, *phrase)?;
        scope = scope_behind(scope, *phrase);
        rest = after;
    }
    Ok(entries)
}

/// The number of a port; one that is left out is 0.
pub fn port_number(port: Option<PortNumber>) -> u32
    ensures { result ≡ number_of port }
{
    match port {
        Some(port) => port.number,
        None => 0,
    }
}

/// Whether a `->` stands in front of the phrases.
pub fn is_followed(phrases: &[Phrase]) -> bool
    ensures { result ≡ is_followed phrases.now }
{
    match phrases {
        [Phrase::Next(_, _), ..] => true,
        _ => false,
    }
}

// The entry of a port that a body names, where an endpoint is `input` or `output` alone.
#[tactic(auto, unfolding(crate::specs::Names::port_at))]
fn push_port(
    entries: &mut Vec<Entry>,
    text: &[u8],
    scope: Scope,
    name: &[u8],
    port: Option<PortNumber>,
    item: Item,
) -> Result<(), AllocError>
    ensures { OnOk result (entries.new.items ≡ entries.old.items ++ port_at text.now scope name.now port item) }
{
    match item {
        Item::Name(word) => {
            if scope.inside && word_bytes(text, word) == name {
                entries.push(Entry {
                    scope: scope.class_count,
                    number: port_number(port),
                    word,
                    class: None,
                })?;
            }
            Ok(())
        }
        _ => Ok(()),
    }
}

// `input [k]` with a `->` behind it.
#[tactic(auto, unfolding(crate::specs::Names::input_at))]
fn push_input(
    entries: &mut Vec<Entry>,
    text: &[u8],
    scope: Scope,
    followed: bool,
    end: Endpoint,
) -> Result<(), AllocError>
    ensures { OnOk result (entries.new.items ≡ entries.old.items ++ input_at text.now scope followed end) }
{
    if followed {
        push_port(entries, text, scope, b"input", end.output, end.item)
    } else {
        Ok(())
    }
}

// `[k] output` with a `->` before it.
#[tactic(auto, unfolding(crate::specs::Names::output_at))]
fn push_output(
    entries: &mut Vec<Entry>,
    text: &[u8],
    scope: Scope,
    end: Endpoint,
) -> Result<(), AllocError>
    ensures { OnOk result (entries.new.items ≡ entries.old.items ++ output_at text.now scope end) }
{
    push_port(entries, text, scope, b"output", end.input, end.item)
}

// The entries of the ports that a phrase of a body names.
#[tactic(auto, unfolding(crate::specs::Names::ports_at))]
fn push_ports(
    entries: &mut Vec<Entry>,
    text: &[u8],
    scope: Scope,
    followed: bool,
    phrase: Phrase,
) -> Result<(), AllocError>
    ensures { OnOk result (entries.new.items ≡ entries.old.items ++ ports_at text.now scope followed phrase) }
{
    match phrase {
        Phrase::First(end) => push_input(entries, text, scope, followed, end),
        Phrase::Next(_, end) => {
            push_output(entries, text, scope, end)?;
            push_input(entries, text, scope, followed, end)
        }
        _ => Ok(()),
    }
}

/// The ports that the bodies of classes name.
#[tactic(auto, unfolding(crate::specs::Names::ports_from))]
pub fn ports_of(alloc: Global, text: &[u8], phrases: &[Phrase]) -> Result<Vec<Entry>, AllocError>
    ensures { IfOk result (λ v. v.items ≡ ports_from text.now outside phrases.now) }
{
    let mut entries = Vec::new(alloc);
    let mut scope = Scope {
        inside: false,
        class_count: 0,
    };
    let mut rest = phrases;
    while let [phrase, after @ ..] = rest {
        push_ports(&mut entries, text, scope, is_followed(after), *phrase)?;
        scope = scope_behind(scope, *phrase);
        rest = after;
    }
    Ok(entries)
}
