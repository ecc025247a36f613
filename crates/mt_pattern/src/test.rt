//! One test of a header, and how its words follow one another.
ghost use Rattle.std.specs.Prelude.{◌≡◌, ◌≤◌};
ghost use Rattle.mt_pattern.specs.Test.{equal_to, first_word, after_side, after_ip, tcp_flag, relation_of, related, whole, number_test, host_test, net_test, ports_test, related_ports, related_ttl, after_port, after_ttl, after_transport, after_option, next_word, further_word};

use crate::keyword::Keyword;
use crate::span::{ports, prefix};
use mt_packet::{Field, Span};
use mt_text::{ipv4_address, number_up_to};

/// On which side of a packet a test looks.
#[derive(Clone, Copy)]
pub(crate) enum Sides {
    Source,
    Destination,
    Either,
}

/// The protocol that a test of ports names.
#[derive(Clone, Copy)]
pub(crate) enum Transport {
    Unnamed,
    Tcp,
    Udp,
}

#[derive(Clone, Copy)]
pub(crate) enum Relation {
    More,
    Less,
    AtLeast,
    AtMost,
}

/// A test that is read whole.
#[derive(Clone, Copy)]
pub(crate) enum Test {
    Always,
    /// A relation that no value meets.
    Never,
    Value(Field, Span),
    Address(Sides, Span),
    Ports(Sides, Transport, Span),
    Fragment,
    Unfragmented,
}

/// How far a test is read.
#[derive(Clone, Copy)]
pub(crate) enum Stage {
    /// Nothing of it is read.
    Start,
    /// A direction.
    Side(Sides),
    /// A direction and a protocol.
    Transport(Sides, Transport),
    /// `host`.
    Host(Sides),
    /// `net`.
    Net(Sides),
    /// `port`.
    Port(Sides, Transport),
    /// `port` and a relation.
    PortRelation(Sides, Transport, Relation),
    /// `ip`.
    Ip,
    /// What stands before a number that is a value of the field, up to a greatest one.
    Number(Field, u64),
    /// `ip ttl`.
    Ttl,
    /// `ip ttl` and a relation.
    TtlRelation(Relation),
    /// `tcp opt`.
    TcpOption,
}

/// With what a test that is read whole may still go on.
#[derive(Clone, Copy)]
pub(crate) enum More {
    Nothing,
    /// `tcp`: with `port` or `opt`.
    Tcp,
    /// `udp`: with `port`.
    Udp,
    /// `icmp`: with `type`.
    Icmp,
}

/// What a word makes of a test.
#[derive(Clone, Copy)]
pub(crate) enum Next {
    /// It is no test so far, whatever follows.
    Wrong,
    /// It goes on.
    On(Stage),
    /// It is whole.
    Whole(Test, More),
}

fn value(field: Field, number: u64) -> Test
    ensures { result ≡ equal_to field number }
{
    Test::Value(
        field,
        Span {
            lo: number,
            hi: number,
        },
    )
}

/// What a test makes of its first word.
#[tactic(auto, unfolding(crate::specs::Test::first_word))]
fn first_word(keyword: Keyword) -> Next
    ensures { result ≡ first_word keyword }
{
    match keyword {
        Keyword::Always => Next::Whole(Test::Always, More::Nothing),
        Keyword::Src => Next::On(Stage::Side(Sides::Source)),
        Keyword::Dst => Next::On(Stage::Side(Sides::Destination)),
        Keyword::Host => Next::On(Stage::Host(Sides::Either)),
        Keyword::Net => Next::On(Stage::Net(Sides::Either)),
        Keyword::Port => Next::On(Stage::Port(Sides::Either, Transport::Unnamed)),
        Keyword::Tcp => Next::Whole(value(Field::Proto, 6), More::Tcp),
        Keyword::Udp => Next::Whole(value(Field::Proto, 17), More::Udp),
        Keyword::Icmp => Next::Whole(value(Field::Proto, 1), More::Icmp),
        Keyword::Ip => Next::On(Stage::Ip),
        _ => Next::Wrong,
    }
}

#[tactic(auto, unfolding(crate::specs::Test::after_side))]
fn after_side(sides: Sides, keyword: Keyword) -> Next
    ensures { result ≡ after_side sides keyword }
{
    match keyword {
        Keyword::Host => Next::On(Stage::Host(sides)),
        Keyword::Net => Next::On(Stage::Net(sides)),
        Keyword::Port => Next::On(Stage::Port(sides, Transport::Unnamed)),
        Keyword::Tcp => Next::On(Stage::Transport(sides, Transport::Tcp)),
        Keyword::Udp => Next::On(Stage::Transport(sides, Transport::Udp)),
        _ => Next::Wrong,
    }
}

#[tactic(auto, unfolding(crate::specs::Test::after_ip))]
fn after_ip(keyword: Keyword) -> Next
    ensures { result ≡ after_ip keyword }
{
    match keyword {
        Keyword::Proto => Next::On(Stage::Number(Field::Proto, 255)),
        Keyword::Dscp => Next::On(Stage::Number(Field::Dscp, 63)),
        Keyword::Ttl => Next::On(Stage::Ttl),
        Keyword::Frag => Next::Whole(Test::Fragment, More::Nothing),
        Keyword::Unfrag => Next::Whole(Test::Unfragmented, More::Nothing),
        _ => Next::Wrong,
    }
}

/// The flag that a word names.
#[tactic(auto, unfolding(crate::specs::Test::tcp_flag))]
fn tcp_flag(keyword: Keyword) -> Option<Field>
    ensures { result ≡ tcp_flag keyword }
{
    match keyword {
        Keyword::Syn => Some(Field::Syn),
        Keyword::Ack => Some(Field::Ack),
        Keyword::Fin => Some(Field::Fin),
        Keyword::Rst => Some(Field::Rst),
        _ => None,
    }
}

#[tactic(auto, unfolding(crate::specs::Test::relation_of))]
fn relation_word(keyword: Keyword) -> Option<Relation>
    ensures { result ≡ relation_of keyword }
{
    match keyword {
        Keyword::More => Some(Relation::More),
        Keyword::Less => Some(Relation::Less),
        Keyword::AtLeast => Some(Relation::AtLeast),
        Keyword::AtMost => Some(Relation::AtMost),
        _ => None,
    }
}

/// The values from 0 to `greatest` that are in the relation to a number, None where there are none.
#[tactic(auto, unfolding(crate::specs::Test::related))]
fn related(relation: Relation, number: u64, greatest: u64) -> Option<Span>
    requires { number ≤ greatest }
    ensures { result ≡ related relation number greatest }
{
    match relation {
        Relation::More if number == greatest => None,
        Relation::More => Some(Span {
            lo: number + 1,
            hi: greatest,
        }),
        Relation::Less if number == 0 => None,
        Relation::Less => Some(Span {
            lo: 0,
            hi: number - 1,
        }),
        Relation::AtLeast => Some(Span {
            lo: number,
            hi: greatest,
        }),
        Relation::AtMost => Some(Span { lo: 0, hi: number }),
    }
}

fn whole(test: Option<Test>) -> Next
    ensures { result ≡ whole test }
{
    match test {
        Some(test) => Next::Whole(test, More::Nothing),
        None => Next::Wrong,
    }
}

#[tactic(auto, unfolding(crate::specs::Test::number_test))]
fn number_test(field: Field, greatest: u64, word: &[u8]) -> Option<Test>
    ensures { result ≡ number_test field greatest word.now }
{
    Some(value(field, number_up_to(greatest, word)?))
}

#[tactic(auto, unfolding(crate::specs::Test::host_test))]
fn host_test(sides: Sides, word: &[u8]) -> Option<Test>
    ensures { result ≡ host_test sides word.now }
{
    let address = ipv4_address(word)?;
    Some(Test::Address(
        sides,
        Span {
            lo: address,
            hi: address,
        },
    ))
}

#[tactic(auto, unfolding(crate::specs::Test::net_test))]
fn net_test(sides: Sides, word: &[u8]) -> Option<Test>
    ensures { result ≡ net_test sides word.now }
{
    Some(Test::Address(sides, prefix(word)?))
}

#[tactic(auto, unfolding(crate::specs::Test::ports_test))]
fn ports_test(sides: Sides, transport: Transport, word: &[u8]) -> Option<Test>
    ensures { result ≡ ports_test sides transport word.now }
{
    Some(Test::Ports(sides, transport, ports(word)?))
}

#[tactic(auto, unfolding(crate::specs::Test::related_ports))]
fn related_ports(
    sides: Sides,
    transport: Transport,
    relation: Relation,
    word: &[u8],
) -> Option<Test>
    ensures { result ≡ related_ports sides transport relation word.now }
{
    let number = number_up_to(65_535, word)?;
    match related(relation, number, 65_535) {
        Some(span) => Some(Test::Ports(sides, transport, span)),
        None => Some(Test::Never),
    }
}

#[tactic(auto, unfolding(crate::specs::Test::related_ttl))]
fn related_ttl(relation: Relation, word: &[u8]) -> Option<Test>
    ensures { result ≡ related_ttl relation word.now }
{
    let number = number_up_to(255, word)?;
    match related(relation, number, 255) {
        Some(span) => Some(Test::Value(Field::Ttl, span)),
        None => Some(Test::Never),
    }
}

#[tactic(auto, unfolding(crate::specs::Test::after_port))]
fn after_port(sides: Sides, transport: Transport, keyword: Keyword, word: &[u8]) -> Next
    ensures { result ≡ after_port sides transport keyword word.now }
{
    match relation_word(keyword) {
        Some(relation) => Next::On(Stage::PortRelation(sides, transport, relation)),
        None => whole(ports_test(sides, transport, word)),
    }
}

#[tactic(auto, unfolding(crate::specs::Test::after_ttl))]
fn after_ttl(keyword: Keyword, word: &[u8]) -> Next
    ensures { result ≡ after_ttl keyword word.now }
{
    match relation_word(keyword) {
        Some(relation) => Next::On(Stage::TtlRelation(relation)),
        None => whole(number_test(Field::Ttl, 255, word)),
    }
}

#[tactic(auto, unfolding(crate::specs::Test::after_transport))]
fn after_transport(sides: Sides, transport: Transport, keyword: Keyword) -> Next
    ensures { result ≡ after_transport sides transport keyword }
{
    match keyword {
        Keyword::Port => Next::On(Stage::Port(sides, transport)),
        _ => Next::Wrong,
    }
}

#[tactic(auto, unfolding(crate::specs::Test::after_option))]
fn after_option(keyword: Keyword) -> Next
    ensures { result ≡ after_option keyword }
{
    match tcp_flag(keyword) {
        Some(flag) => Next::Whole(value(flag, 1), More::Nothing),
        None => Next::Wrong,
    }
}

/// What the next word makes of a test.
#[tactic(auto, unfolding(crate::specs::Test::next_word))]
pub(crate) fn next_word(stage: Stage, keyword: Keyword, word: &[u8]) -> Next
    ensures { result ≡ next_word stage keyword word.now }
{
    match stage {
        Stage::Start => first_word(keyword),
        Stage::Side(sides) => after_side(sides, keyword),
        Stage::Transport(sides, transport) => after_transport(sides, transport, keyword),
        Stage::Host(sides) => whole(host_test(sides, word)),
        Stage::Net(sides) => whole(net_test(sides, word)),
        Stage::Port(sides, transport) => after_port(sides, transport, keyword, word),
        Stage::PortRelation(sides, transport, relation) => {
            whole(related_ports(sides, transport, relation, word))
        }
        Stage::Ip => after_ip(keyword),
        Stage::Number(field, greatest) => whole(number_test(field, greatest, word)),
        Stage::Ttl => after_ttl(keyword, word),
        Stage::TtlRelation(relation) => whole(related_ttl(relation, word)),
        Stage::TcpOption => after_option(keyword),
    }
}

/// Where a test that is whole goes on with this word.
#[tactic(auto, unfolding(crate::specs::Test::further_word))]
pub(crate) fn further_word(more: More, keyword: Keyword) -> Option<Stage>
    ensures { result ≡ further_word more keyword }
{
    match (more, keyword) {
        (More::Tcp, Keyword::Port) => Some(Stage::Port(Sides::Either, Transport::Tcp)),
        (More::Tcp, Keyword::Opt) => Some(Stage::TcpOption),
        (More::Udp, Keyword::Port) => Some(Stage::Port(Sides::Either, Transport::Udp)),
        (More::Icmp, Keyword::MessageType) => Some(Stage::Number(Field::IcmpType, 255)),
        _ => None,
    }
}
