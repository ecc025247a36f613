//! Scopes, and what names stand for in them.
ghost use Rattle.std.specs.Prelude.{◌≡◌, ◌+◌, ◌<◌, ◌≤◌, ◌^◌, IfOk, is_some, Some};
ghost use Rattle.mt_click.specs.Scopes.{behind, scope_number};
ghost use Rattle.mt_click.specs.Names.{first_entry, names_in};
ghost use Rattle.mt_click.specs.Tables.{IsTable, AreTables, names};
ghost use Rattle.mt_click.specs.Actions.{is_pseudo, declared_index, class_at, class_named, is_new, class_of_name, class_of_item, is_before, is_redeclared, is_word, is_own};

use crate::names::{class_in, classes_of, names_of, ports_of};
use indexmap::IndexMap;
use mt_syntax::{Item, Phrase, Word, word_bytes};
use std::alloc::{AllocError, Global};

/// Where a phrase stands: whether it is in the body of a class, and how many classes end before it.
#[derive(Clone, Copy, Debug, PartialEq, Eq)]
pub struct Scope {
    pub inside: bool,
    pub class_count: usize,
}

/// The scope behind a phrase.
pub fn scope_behind(scope: Scope, phrase: Phrase) -> Scope
    requires { scope.class_count < 2 ^ 63 }
    ensures scope { result ≡ behind scope phrase }
    ensures bound { result.class_count ≤ scope.class_count + 1 }
{
    match phrase {
        Phrase::Class(_) => Scope {
            inside: true,
            class_count: scope.class_count,
        },
        Phrase::Close => Scope {
            inside: false,
            class_count: scope.class_count + 1,
        },
        _ => scope,
    }
}

/// The number of a scope: 0 outside classes, and one more than the class's in a body.
pub fn number_of(scope: Scope) -> usize
    requires { scope.class_count < 2 ^ 63 }
    ensures { result ≡ scope_number scope }
{
    if scope.inside {
        scope.class_count + 1
    } else {
        0
    }
}

/// What is declared under a word, in the scope of a number: a class, an element, or a port of a class
/// with its number. Of an element that is a use of a class, `class` is the number of that class.
#[derive(Clone, Copy, Debug, PartialEq, Eq)]
pub struct Entry {
    pub scope: usize,
    pub number: u32,
    pub word: Word,
    pub class: Option<usize>,
}

/// Entries, and under each scope, number and name the index of the first.
#[derive(Drop)]
pub struct Table<'a> {
    pub text: &'a [u8],
    pub entries: Vec<Entry>,
    pub indices: IndexMap<(usize, u32, &'a [u8]), usize>,
}

/// The table of some entries.
pub fn table_of<'a>(
    alloc: Global,
    text: &'a [u8],
    entries: Vec<Entry>,
) -> Result<Table<'a>, AllocError>
    ensures entries { IfOk result (λ t. t.entries ≡ entries) }
    ensures text { IfOk result (λ t. t.text.now ≡ text.now) }
    ensures table { IfOk result (λ t. IsTable t) }
{
    let mut indices = IndexMap::new(alloc);
    for at in 0..entries.len() {
        let entry = entries[at];
        let key = (entry.scope, entry.number, word_bytes(text, entry.word));
        if indices.get(&key).is_none() {
            indices.insert(key, at)?;
        }
    }
    Ok(Table {
        text,
        entries,
        indices,
    })
}

impl<'a> Table<'a> {
    /// The index of the first entry under a name.
    pub fn find(&self, scope: usize, number: u32, name: &[u8]) -> Option<usize>
        requires { IsTable self.now }
        ensures { result ≡ first_entry self.now.text.now self.now.entries.items scope number name.now }
    {
        match self.indices.get(&(scope, number, name)) {
            Some(index) => Some(*index),
            None => None,
        }
    }
}

/// The classes, the names of elements, and the ports that bodies name.
#[derive(Drop)]
pub struct Symbols<'a> {
    pub text: &'a [u8],
    pub classes: Table<'a>,
    pub names: Table<'a>,
    pub ports: Table<'a>,
}

/// What is declared in a configuration.
pub fn symbols_in<'a>(
    alloc: Global,
    text: &'a [u8],
    phrases: &[Phrase],
) -> Result<Symbols<'a>, AllocError>
    ensures names { IfOk result (λ k. names k ≡ names_in text.now phrases.now) }
    ensures tables { IfOk result (λ k. AreTables k) }
{
    let classes = table_of(alloc, text, classes_of(alloc, phrases)?)?;
    let names = table_of(alloc, text, names_of(alloc, &classes, phrases)?)?;
    let ports = table_of(alloc, text, ports_of(alloc, text, phrases)?)?;
    Ok(Symbols {
        text,
        classes,
        names,
        ports,
    })
}

/// Whether a name is `input` or `output` in a body.
#[tactic(auto, unfolding(crate::specs::Actions::is_pseudo))]
pub fn is_pseudo_name(scope: Scope, name: &[u8]) -> bool
    ensures { result ≡ is_pseudo scope name.now }
{
    scope.inside && (name == b"input".as_slice() || name == b"output".as_slice())
}

/// The class of a word, among those declared before.
#[tactic(auto, unfolding(crate::specs::Actions::class_named))]
pub fn class_of_word(symbols: &Symbols<'_>, scope: Scope, word: Word) -> Option<usize>
    requires { AreTables symbols.now }
    ensures { result ≡ class_named (names symbols.now) scope word }
{
    class_in(&symbols.classes, scope, word_bytes(symbols.text, word))
}

/// Where a name is declared first in its scope.
#[tactic(auto, unfolding(crate::specs::Actions::declared_index))]
pub fn index_declared(symbols: &Symbols<'_>, scope: Scope, name: &[u8]) -> Option<usize>
    requires tables { AreTables symbols.now }
    requires bound { scope.class_count < 2 ^ 63 }
    ensures { result ≡ declared_index (names symbols.now) scope name.now }
{
    symbols.names.find(number_of(scope), 0, name)
}

/// Whether a port of a side is named in the body of a class.
pub fn has_port(symbols: &Symbols<'_>, class: usize, side: &[u8], number: u32) -> bool
    requires { AreTables symbols.now }
    ensures { result ≡ is_some (first_entry (names symbols.now).text (names symbols.now).ports class number side.now) }
{
    symbols.ports.find(class, number, side).is_some()
}

// The compound class of what is declared at an index among the names.
fn class_declared(symbols: &Symbols<'_>, index: usize) -> Option<usize>
    ensures { result ≡ class_at (names symbols.now).names (Some index) }
{
    match symbols.names.entries.get(index) {
        Some(entry) => entry.class,
        None => None,
    }
}

/// Whether a name alone makes a new element or use: it is none of its scope.
#[tactic(auto, unfolding(crate::specs::Actions::is_new))]
pub fn makes_new(symbols: &Symbols<'_>, scope: Scope, word: Word) -> bool
    requires tables { AreTables symbols.now }
    requires bound { scope.class_count < 2 ^ 63 }
    ensures { result ≡ is_new (names symbols.now) scope word }
{
    let name = word_bytes(symbols.text, word);
    !is_pseudo_name(scope, name) && index_declared(symbols, scope, name).is_none()
}

// The compound class of what a name alone stands for, where that is a use of one.
#[tactic(auto, unfolding(crate::specs::Actions::class_of_name))]
fn name_class(symbols: &Symbols<'_>, scope: Scope, word: Word) -> Option<usize>
    requires tables { AreTables symbols.now }
    requires bound { scope.class_count < 2 ^ 63 }
    ensures { result ≡ class_of_name (names symbols.now) scope word }
{
    let name = word_bytes(symbols.text, word);
    if is_pseudo_name(scope, name) {
        return None;
    }
    match index_declared(symbols, scope, name) {
        Some(index) => class_declared(symbols, index),
        None => class_of_word(symbols, scope, word),
    }
}

/// The class of what an item stands for, where that is a use of one.
#[tactic(auto, unfolding(crate::specs::Actions::class_of_item))]
pub fn item_class(symbols: &Symbols<'_>, scope: Scope, item: Item) -> Option<usize>
    requires tables { AreTables symbols.now }
    requires bound { scope.class_count < 2 ^ 63 }
    ensures { result ≡ class_of_item (names symbols.now) scope item }
{
    match item {
        Item::Declared(_, used) => class_of_word(symbols, scope, used.class),
        Item::Made(used) => class_of_word(symbols, scope, used.class),
        Item::Name(word) => name_class(symbols, scope, word),
    }
}

// Whether the entry at an index is declared before a byte.
fn stands_before(symbols: &Symbols<'_>, at: usize, index: Option<usize>) -> bool
    ensures { result ≡ is_before (names symbols.now).names at index }
{
    match index {
        Some(index) => match symbols.names.entries.get(index) {
            Some(entry) => entry.word.from < at,
            None => false,
        },
        None => false,
    }
}

/// Whether a name may not be declared: it stands in its scope before, or is `input` or `output` in a
/// body.
#[tactic(auto, unfolding(crate::specs::Actions::is_redeclared))]
pub fn redeclares(symbols: &Symbols<'_>, scope: Scope, word: Word) -> bool
    requires tables { AreTables symbols.now }
    requires bound { scope.class_count < 2 ^ 63 }
    ensures { result ≡ is_redeclared (names symbols.now) scope word }
{
    let name = word_bytes(symbols.text, word);
    is_pseudo_name(scope, name)
        || stands_before(symbols, word.from, index_declared(symbols, scope, name))
}

/// Whether a word in the body of a class is the name of that class.
#[tactic(auto, unfolding(crate::specs::Actions::is_own))]
pub fn uses_itself(symbols: &Symbols<'_>, scope: Scope, word: Word) -> bool
    ensures { result ≡ is_own (names symbols.now) scope word }
{
    if !scope.inside {
        return false;
    }
    match symbols.classes.entries.get(scope.class_count) {
        Some(entry) => word_bytes(symbols.text, entry.word) == word_bytes(symbols.text, word),
        None => false,
    }
}
