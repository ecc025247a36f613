//! How a packet can leave an element, and as what.
ghost use Rattle.std.specs.Prelude.{◌≡◌, ◌≤◌, IfOk, map, slice_get, Some};
ghost use Rattle.mt_kinds.specs.declared.kind.Kind.{Kind};
ghost use Rattle.mt_chain.specs.Step.{address_of};
ghost use Rattle.mt_packet.specs.declared.field.Field.TheVariants.{Paint};
ghost use Rattle.mt_terms.specs.Terms.{const};
ghost use Rattle.mt_trees.specs.Symbols.{with_term, annotated, encapsulated, ethernet_swapped, stripped};
ghost use Rattle.mt_synth.specs.Symbols.{symbol_form};
ghost use Rattle.mt_synth.specs.Exits.{alone, both, check_exits, counted, exit_forms, exits_of, mirror_exits, route_exits, ttl_exits, with_gateway};

use crate::lists::by_length;
use crate::passages::passage_exits;
use crate::symbol::Symbol;
use mt_elements::Chain;
use mt_kinds::{End, Hop, Kind};
use mt_packet::{Field, Layer};
use mt_terms::Term;
use std::alloc::{AllocError, Global};

/// An output, and the packet that leaves by it.
#[derive(Drop)]
pub(crate) struct Exit {
    pub out: u32,
    pub symbol: Symbol,
}

/// The one exit of most elements.
fn alone(alloc: Global, out: u32, symbol: Symbol) -> Result<Vec<Exit>, AllocError>
    ensures { IfOk result (λ exits. exit_forms exits.items ≡ alone out (symbol_form symbol)) }
{
    let mut exits = Vec::new(alloc);
    exits.push(Exit { out, symbol })?;
    Ok(exits)
}

/// Two exits.
fn both(alloc: Global, one: (u32, Symbol), other: (u32, Symbol)) -> Result<Vec<Exit>, AllocError>
    ensures { IfOk result (λ exits. exit_forms exits.items ≡ both (one.0, symbol_form one.1) (other.0, symbol_form other.1)) }
{
    let mut exits = Vec::new(alloc);
    exits.push(Exit {
        out: one.0,
        symbol: one.1,
    })?;
    exits.push(Exit {
        out: other.0,
        symbol: other.1,
    })?;
    Ok(exits)
}

/// The packet as it is, by each of the first outputs.
fn counted(alloc: Global, count: u32, symbol: &Symbol) -> Result<Vec<Exit>, AllocError>
    ensures { IfOk result (λ exits. exit_forms exits.items ≡ counted count (symbol_form symbol.now)) }
{
    let mut exits = Vec::new(alloc);
    for out in 0..count {
        exits.push(Exit {
            out,
            symbol: symbol.copy(alloc)?,
        })?;
    }
    Ok(exits)
}

/// The packet by the output of each route entry, with its gateway, in the order in which they are looked at.
fn route_exits(alloc: Global, hops: &[Hop], symbol: &Symbol) -> Result<Vec<Exit>, AllocError>
    ensures { IfOk result (λ exits. exit_forms exits.items ≡ route_exits hops.now (symbol_form symbol.now)) }
{
    let sorted = by_length(alloc, hops)?;
    let mut exits = Vec::new(alloc);
    let mut rest = sorted.as_slice();
    while let [hop, after @ ..] = rest {
        let sent = with_gateway(alloc, symbol, hop.gateway)?;
        exits.push(Exit {
            out: hop.out,
            symbol: sent,
        })?;
        rest = after;
    }
    Ok(exits)
}

/// A gateway is the annotation.
fn with_gateway(alloc: Global, symbol: &Symbol, gateway: Option<u32>) -> Result<Symbol, AllocError>
    ensures { IfOk result (λ sent. symbol_form sent ≡ with_gateway (symbol_form symbol.now) gateway) }
{
    let mut sent = symbol.copy(alloc)?;
    if let Some(gateway) = gateway {
        sent.set(Field::Annotation, Term::Const(u64::from(gateway)));
    }
    Ok(sent)
}

/// The one exit of elements that write a number into a field.
fn written(
    alloc: Global,
    mut own: Symbol,
    field: Field,
    value: u64,
) -> Result<Vec<Exit>, AllocError>
    requires { field ≡ Paint → value ≤ 255 }
    ensures { IfOk result (λ exits. exit_forms exits.items ≡ alone 0 (with_term (symbol_form own) field (const value))) }
{
    own.set(field, Term::Const(value));
    alone(alloc, 0, own)
}

/// As checked, and as refused where it was not checked before.
fn check_exits(alloc: Global, symbol: &Symbol, mut own: Symbol) -> Result<Vec<Exit>, AllocError>
    requires { symbol_form own ≡ symbol_form symbol.now }
    ensures { IfOk result (λ exits. exit_forms exits.items ≡ check_exits (symbol_form symbol.now).layer (symbol_form symbol.now)) }
{
    own.check(alloc)?;
    if matches!(symbol.layer(), Layer::Ip) {
        return alone(alloc, 0, own);
    }
    let mut refused = symbol.copy(alloc)?;
    refused.refuse();
    both(alloc, (0, own), (1, refused))
}

/// As it is where its time is over, and with its time to live less 1.
fn ttl_exits(alloc: Global, symbol: &Symbol, mut own: Symbol) -> Result<Vec<Exit>, AllocError>
    requires { symbol_form own ≡ symbol_form symbol.now }
    ensures { IfOk result (λ exits. exit_forms exits.items ≡ ttl_exits (symbol_form symbol.now)) }
{
    let less = Term::less(alloc, own.term(Field::Ttl).copy(alloc)?, 1)?;
    own.set(Field::Ttl, less);
    both(alloc, (1, symbol.copy(alloc)?), (0, own))
}

/// Its ends exchanged, with its ports where they are visible, and without them.
fn mirror_exits(alloc: Global, mut own: Symbol) -> Result<Vec<Exit>, AllocError>
    ensures { IfOk result (λ exits. exit_forms exits.items ≡ mirror_exits (symbol_form own)) }
{
    own.swap(alloc, Field::Src, Field::Dst)?;
    let unported = own.copy(alloc)?;
    own.swap(alloc, Field::Sport, Field::Dport)?;
    both(alloc, (0, own), (0, unported))
}

/// Its Ethernet addresses exchanged.
fn swapped_exits(alloc: Global, mut own: Symbol) -> Result<Vec<Exit>, AllocError>
    ensures { IfOk result (λ exits. exit_forms exits.items ≡ alone 0 (ethernet_swapped (symbol_form own))) }
{
    own.swap(alloc, Field::EthDst, Field::EthSrc)?;
    alone(alloc, 0, own)
}

/// Without its Ethernet header.
fn stripped_exits(alloc: Global, mut own: Symbol) -> Result<Vec<Exit>, AllocError>
    ensures { IfOk result (λ exits. exit_forms exits.items ≡ alone 0 (stripped (symbol_form own))) }
{
    own.strip();
    alone(alloc, 0, own)
}

/// Behind a new Ethernet header.
fn framed_exits(
    alloc: Global,
    mut own: Symbol,
    ether_type: u16,
    src: u64,
    dst: u64,
) -> Result<Vec<Exit>, AllocError>
    ensures { IfOk result (λ exits. exit_forms exits.items ≡ alone 0 (encapsulated (symbol_form own) ether_type src dst)) }
{
    own.encapsulate(ether_type, src, dst);
    alone(alloc, 0, own)
}

/// Its destination as its annotation.
fn annotated_exits(alloc: Global, mut own: Symbol) -> Result<Vec<Exit>, AllocError>
    ensures { IfOk result (λ exits. exit_forms exits.items ≡ alone 0 (annotated (symbol_form own))) }
{
    own.annotate(alloc)?;
    alone(alloc, 0, own)
}

/// The address of an end.
fn address_of(end: End) -> Field
    ensures { result ≡ address_of end }
{
    match end {
        End::Src => Field::Src,
        End::Dst => Field::Dst,
    }
}

/// How a packet can leave an element that it entered by an input.
#[tactic(auto, unfolding(crate::specs::Exits::exits_of))]
pub(crate) fn exits_of(
    alloc: Global,
    chain: &Chain,
    at: (u32, u32),
    kind: &Kind,
    symbol: &Symbol,
) -> Result<Vec<Exit>, AllocError>
    requires there { slice_get chain.now.kinds at.0 ≡ Some kind.now }
    ensures { IfOk result (λ exits. map (λ exit. (exit.out, symbol_form exit.symbol)) exits.items ≡ exits_of chain.now at kind.now (symbol_form symbol.now)) }
{
    let own = symbol.copy(alloc)?;
    match kind {
        Kind::FromDevice(_) | Kind::Null | Kind::Counter | Kind::Queue => alone(alloc, 0, own),
        Kind::ToDevice(_) | Kind::Discard | Kind::RoundRobinIPMapper(_) => Ok(Vec::new(alloc)),
        Kind::Paint(paint) => written(alloc, own, Field::Paint, u64::from(*paint)),
        Kind::PaintSwitch => alone(alloc, symbol.paint(), own),
        Kind::Classifier(patterns) => counted(alloc, patterns.count(), symbol),
        Kind::EtherMirror => swapped_exits(alloc, own),
        Kind::Strip => stripped_exits(alloc, own),
        Kind::CheckIPHeader => check_exits(alloc, symbol, own),
        Kind::EtherEncap(ether_type, src, dst) => framed_exits(alloc, own, *ether_type, *src, *dst),
        Kind::DecIPTTL => ttl_exits(alloc, symbol, own),
        Kind::SetIPDSCP(point) => written(alloc, own, Field::Dscp, u64::from(*point)),
        Kind::StoreIPAddress(address, which) => {
            written(alloc, own, address_of(*which), u64::from(*address))
        }
        Kind::GetIPAddress => annotated_exits(alloc, own),
        Kind::IPMirror => mirror_exits(alloc, own),
        Kind::IPFilter(_) => counted(alloc, chain.outputs(at.0), symbol),
        Kind::IPClassifier(patterns) => counted(alloc, patterns.as_slice().len() as u32, symbol),
        Kind::Route(hops) => route_exits(alloc, hops.as_slice(), symbol),
        Kind::IPRewriter(specs) => passage_exits(alloc, chain, at, specs.as_slice(), symbol),
    }
}
