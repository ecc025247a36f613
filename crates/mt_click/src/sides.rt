//! The ends of connections.
ghost use Rattle.std.specs.Prelude.{◌≡◌, ◌^◌, ◌<◌};
ghost use Rattle.mt_click.specs.Tables.{AreTables, names};
ghost use Rattle.mt_click.specs.Actions.{declared_index, offset_at, name_side, item_side, source, sink, side_behind};

use crate::action::Side;
use crate::names::port_number;
use crate::symbols::{Scope, Symbols, index_declared, is_pseudo_name};
use mt_syntax::{Endpoint, Item, Phrase, Word, word_bytes};

// The byte at which the name at an index among the names is declared, or else the byte that is given.
fn offset_created(symbols: &Symbols<'_>, at: usize, index: Option<usize>) -> usize
    ensures { result ≡ offset_at (names symbols.now).names at index }
{
    match index {
        Some(index) => match symbols.names.entries.get(index) {
            Some(entry) => entry.word.from,
            None => at,
        },
        None => at,
    }
}

// A name alone as the end of a connection; `border` is the pseudo element that may stand there in a body.
#[tactic(auto, unfolding(crate::specs::Actions::name_side))]
fn side_of_name(
    symbols: &Symbols<'_>,
    scope: Scope,
    border: &[u8],
    port: u32,
    word: Word,
) -> Option<Side>
    requires tables { AreTables symbols.now }
    requires bound { scope.class_count < 2 ^ 63 }
    ensures { result ≡ name_side (names symbols.now) scope border.now port word }
{
    let name = word_bytes(symbols.text, word);
    if is_pseudo_name(scope, name) {
        if name == border {
            Some(Side::Border(port))
        } else {
            None
        }
    } else {
        let index = index_declared(symbols, scope, name);
        Some(Side::Created(offset_created(symbols, word.from, index), port))
    }
}

// An item as the end of a connection.
#[tactic(auto, unfolding(crate::specs::Actions::item_side))]
fn side_of_item(
    symbols: &Symbols<'_>,
    scope: Scope,
    border: &[u8],
    port: u32,
    item: Item,
) -> Option<Side>
    requires tables { AreTables symbols.now }
    requires bound { scope.class_count < 2 ^ 63 }
    ensures { result ≡ item_side (names symbols.now) scope border.now port item }
{
    match item {
        Item::Declared(word, _) => Some(Side::Created(word.from, port)),
        Item::Made(used) => Some(Side::Created(used.class.from, port)),
        Item::Name(word) => side_of_name(symbols, scope, border, port, word),
    }
}

// What a connection leaves that begins at an endpoint.
#[tactic(auto, unfolding(crate::specs::Actions::source))]
fn source_of(symbols: &Symbols<'_>, scope: Scope, end: Endpoint) -> Option<Side>
    requires tables { AreTables symbols.now }
    requires bound { scope.class_count < 2 ^ 63 }
    ensures { result ≡ source (names symbols.now) scope end }
{
    side_of_item(symbols, scope, b"input", port_number(end.output), end.item)
}

/// What a connection to an end leads to.
#[tactic(auto, unfolding(crate::specs::Actions::sink))]
pub fn sink_of(symbols: &Symbols<'_>, scope: Scope, end: Endpoint) -> Option<Side>
    requires tables { AreTables symbols.now }
    requires bound { scope.class_count < 2 ^ 63 }
    ensures { result ≡ sink (names symbols.now) scope end }
{
    side_of_item(symbols, scope, b"output", port_number(end.input), end.item)
}

/// What a connection leads from that stands behind a phrase.
#[tactic(auto, unfolding(crate::specs::Actions::side_behind))]
pub fn side_of_phrase(symbols: &Symbols<'_>, scope: Scope, phrase: Phrase) -> Option<Side>
    requires tables { AreTables symbols.now }
    requires bound { scope.class_count < 2 ^ 63 }
    ensures { result ≡ side_behind (names symbols.now) scope phrase }
{
    match phrase {
        Phrase::First(end) => source_of(symbols, scope, end),
        Phrase::Next(_, end) => source_of(symbols, scope, end),
        _ => None,
    }
}
