//! Connections between the ports of elements and of uses of compound classes.
ghost use Rattle.std.specs.Prelude.{◌≡◌, ◌++◌, IfOk, OnOk};
ghost use Rattle.mt_click.specs.Connections.{item_created, item_from, left_at, reached_at, source_of, target_of, connection_between, connection_of, connections_from, connections_in};
ghost use Rattle.mt_click.specs.Created.{IsItemTable};
ghost use Rattle.mt_click.specs.Stacks.{state};

use crate::action::{Built, Connected, Created, CreatedItem, Side};
use indexmap::IndexMap;
use std::alloc::{AllocError, Global};

/// A port of an element or of a use of a class: the number of the element or use, and the port's own.
#[derive(Clone, Copy, Debug, PartialEq, Eq, Hash)]
pub enum Port {
    /// An output of an element.
    Output(u32, u32),
    /// An input of an element.
    Input(u32, u32),
    /// An output of a use.
    UseOutput(usize, u32),
    /// An input of a use.
    UseInput(usize, u32),
}

/// A connection; `arrow` is the byte of its `->`, counted from 0.
#[derive(Clone, Copy, Debug, PartialEq, Eq)]
pub struct Connection {
    pub arrow: usize,
    pub from: Port,
    pub to: Port,
}

/// A path of connections from an output of an element to an input of one, with the byte of the `->` at which
/// it leaves the output. Paths are ordered by their fields.
#[derive(Clone, Copy, Debug, PartialEq, Eq, PartialOrd, Ord)]
pub struct Path {
    pub arrow: usize,
    pub from: u32,
    pub out: u32,
    pub to: u32,
    pub into: u32,
}

/// What is created in each use, by the number of the use and the byte of the text.
#[derive(Drop)]
pub struct ItemTable<'a> {
    pub created: &'a [Created],
    pub items: IndexMap<(usize, usize), CreatedItem>,
}

// All items under their enclosing use and byte. No two have the same key.
fn item_table_of<'a>(alloc: Global, created: &'a [Created]) -> Result<ItemTable<'a>, AllocError>
    ensures created { IfOk result (λ p. p.created.now ≡ created.now) }
    ensures table { IfOk result (λ p. IsItemTable p) }
{
    let mut items = IndexMap::new(alloc);
    for at in 0..created.len() {
        let one = created[at];
        items.insert((one.enclosing, one.offset), one.item)?;
    }
    Ok(ItemTable { created, items })
}

// What is created in a use at a byte.
fn item(table: &ItemTable<'_>, enclosing: usize, offset: usize) -> Option<CreatedItem>
    requires { IsItemTable table.now }
    ensures { result ≡ item_created table.now.created.now enclosing offset }
{
    match table.items.get(&(enclosing, offset)) {
        Some(item) => Some(*item),
        None => None,
    }
}

// The port at which a connection leaves an item.
fn left(port: u32, item: Option<CreatedItem>) -> Option<Port>
    ensures { result ≡ left_at port item }
{
    match item {
        Some(CreatedItem::Element(number)) => Some(Port::Output(number, port)),
        Some(CreatedItem::Use(number)) => Some(Port::UseOutput(number, port)),
        None => None,
    }
}

// The port at which a connection comes to an item.
fn reached(port: u32, item: Option<CreatedItem>) -> Option<Port>
    ensures { result ≡ reached_at port item }
{
    match item {
        Some(CreatedItem::Element(number)) => Some(Port::Input(number, port)),
        Some(CreatedItem::Use(number)) => Some(Port::UseInput(number, port)),
        None => None,
    }
}

// The port that a connection leaves: in a body `input` is the input of the enclosing use.
#[tactic(auto, unfolding(crate::specs::Connections::source_of))]
fn source(table: &ItemTable<'_>, enclosing: usize, side: Side) -> Option<Port>
    requires { IsItemTable table.now }
    ensures { result ≡ source_of table.now.created.now enclosing side }
{
    match side {
        Side::Border(port) => Some(Port::UseInput(enclosing, port)),
        Side::Created(offset, port) => left(port, item(table, enclosing, offset)),
    }
}

// The port that a connection comes to: in a body `output` is the output of the enclosing use.
#[tactic(auto, unfolding(crate::specs::Connections::target_of))]
fn target(table: &ItemTable<'_>, enclosing: usize, side: Side) -> Option<Port>
    requires { IsItemTable table.now }
    ensures { result ≡ target_of table.now.created.now enclosing side }
{
    match side {
        Side::Border(port) => Some(Port::UseOutput(enclosing, port)),
        Side::Created(offset, port) => reached(port, item(table, enclosing, offset)),
    }
}

// Adds a connection where both its ports are there.
fn push_connection_between(
    connections: &mut Vec<Connection>,
    arrow: usize,
    from: Option<Port>,
    to: Option<Port>,
) -> Result<(), AllocError>
    ensures { OnOk result (connections.new.items ≡ connections.old.items ++ connection_between arrow from to) }
{
    if let (Some(from), Some(to)) = (from, to) {
        connections.push(Connection { arrow, from, to })?;
    }
    Ok(())
}

// Adds a connection of a use.
#[tactic(auto, unfolding(crate::specs::Connections::connection_of))]
fn push_connection(
    connections: &mut Vec<Connection>,
    table: &ItemTable<'_>,
    connected: Connected,
) -> Result<(), AllocError>
    requires { IsItemTable table.now }
    ensures { OnOk result (connections.new.items ≡ connections.old.items ++ connection_of table.now.created.now connected) }
{
    let from = source(table, connected.enclosing, connected.from);
    let to = target(table, connected.enclosing, connected.to);
    push_connection_between(connections, connected.arrow, from, to)
}

// Connection after connection, in the order of the walk.
#[tactic(auto, unfolding(crate::specs::Connections::connections_from))]
fn connections_at(
    alloc: Global,
    table: &ItemTable<'_>,
    all: &[Connected],
) -> Result<Vec<Connection>, AllocError>
    requires { IsItemTable table.now }
    ensures { IfOk result (λ v. v.items ≡ connections_from table.now.created.now all.now) }
{
    let mut connections = Vec::new(alloc);
    let mut rest = all;
    while let [connected, after @ ..] = rest {
        push_connection(&mut connections, table, *connected)?;
        rest = after;
    }
    Ok(connections)
}

/// The connections of a configuration, in the order of the walk.
pub fn connections_of(alloc: Global, built: &Built) -> Result<Vec<Connection>, AllocError>
    ensures { IfOk result (λ v. v.items ≡ connections_in (state built.now)) }
{
    let table = item_table_of(alloc, &built.created)?;
    connections_at(alloc, &table, &built.connected)
}
