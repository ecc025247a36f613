//! What a token is, by its spelling.
ghost use Rattle.std.specs.Prelude.{◌≡◌};
ghost use Rattle.mt_pattern.specs.Keyword.{keyword_of, operator_of, head_of, detail_of};

/// What a token is. A sign and the word that stands for it are one keyword.
#[derive(Clone, Copy)]
pub(crate) enum Keyword {
    /// `(`
    Open,
    /// `)`
    Close,
    /// `!` and `not`
    Not,
    /// `&&` and `and`
    And,
    /// `||` and `or`
    Or,
    /// `>`
    More,
    /// `<`
    Less,
    /// `>=`
    AtLeast,
    /// `<=`
    AtMost,
    /// `-`, `true` and `all`
    Always,
    Src,
    Dst,
    Host,
    Net,
    Port,
    Tcp,
    Udp,
    Icmp,
    Ip,
    Proto,
    Dscp,
    Ttl,
    Frag,
    Unfrag,
    Opt,
    Syn,
    Ack,
    Fin,
    Rst,
    MessageType,
    /// Any other word, as a number or an address.
    Other,
}

/// What a token is.
#[tactic(auto, unfolding(crate::specs::Keyword::keyword_of))]
pub(crate) fn keyword_of(word: &[u8]) -> Keyword
    ensures { result ≡ keyword_of word.now }
{
    if let Some(keyword) = operator_of(word) {
        return keyword;
    }
    if let Some(keyword) = head_of(word) {
        return keyword;
    }
    match detail_of(word) {
        Some(keyword) => keyword,
        None => Keyword::Other,
    }
}

/// Signs and operators.
#[tactic(auto, unfolding(crate::specs::Keyword::operator_of))]
fn operator_of(word: &[u8]) -> Option<Keyword>
    ensures { result ≡ operator_of word.now }
{
    if word == b"(".as_slice() {
        return Some(Keyword::Open);
    }
    if word == b")".as_slice() {
        return Some(Keyword::Close);
    }
    if word == b"!".as_slice() || word == b"not".as_slice() {
        return Some(Keyword::Not);
    }
    if word == b"&&".as_slice() || word == b"and".as_slice() {
        return Some(Keyword::And);
    }
    if word == b"||".as_slice() || word == b"or".as_slice() {
        return Some(Keyword::Or);
    }
    if word == b">".as_slice() {
        return Some(Keyword::More);
    }
    if word == b"<".as_slice() {
        return Some(Keyword::Less);
    }
    if word == b">=".as_slice() {
        return Some(Keyword::AtLeast);
    }
    if word == b"<=".as_slice() {
        return Some(Keyword::AtMost);
    }
    None
}

/// What a test begins with, and its directions.
#[tactic(auto, unfolding(crate::specs::Keyword::head_of))]
fn head_of(word: &[u8]) -> Option<Keyword>
    ensures { result ≡ head_of word.now }
{
    if word == b"-".as_slice() || word == b"true".as_slice() || word == b"all".as_slice() {
        return Some(Keyword::Always);
    }
    if word == b"src".as_slice() {
        return Some(Keyword::Src);
    }
    if word == b"dst".as_slice() {
        return Some(Keyword::Dst);
    }
    if word == b"host".as_slice() {
        return Some(Keyword::Host);
    }
    if word == b"net".as_slice() {
        return Some(Keyword::Net);
    }
    if word == b"port".as_slice() {
        return Some(Keyword::Port);
    }
    if word == b"tcp".as_slice() {
        return Some(Keyword::Tcp);
    }
    if word == b"udp".as_slice() {
        return Some(Keyword::Udp);
    }
    if word == b"icmp".as_slice() {
        return Some(Keyword::Icmp);
    }
    if word == b"ip".as_slice() {
        return Some(Keyword::Ip);
    }
    None
}

/// What stands further on in a test.
#[tactic(auto, unfolding(crate::specs::Keyword::detail_of))]
fn detail_of(word: &[u8]) -> Option<Keyword>
    ensures { result ≡ detail_of word.now }
{
    if word == b"proto".as_slice() {
        return Some(Keyword::Proto);
    }
    if word == b"dscp".as_slice() {
        return Some(Keyword::Dscp);
    }
    if word == b"ttl".as_slice() {
        return Some(Keyword::Ttl);
    }
    if word == b"frag".as_slice() {
        return Some(Keyword::Frag);
    }
    if word == b"unfrag".as_slice() {
        return Some(Keyword::Unfrag);
    }
    if word == b"opt".as_slice() {
        return Some(Keyword::Opt);
    }
    if word == b"syn".as_slice() {
        return Some(Keyword::Syn);
    }
    if word == b"ack".as_slice() {
        return Some(Keyword::Ack);
    }
    if word == b"fin".as_slice() {
        return Some(Keyword::Fin);
    }
    if word == b"rst".as_slice() {
        return Some(Keyword::Rst);
    }
    if word == b"type".as_slice() {
        return Some(Keyword::MessageType);
    }
    None
}
