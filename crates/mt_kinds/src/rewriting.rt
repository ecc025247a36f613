//! The arguments of `IPRewriter` and `RoundRobinIPMapper`.
ghost use Rattle.std.specs.Prelude.{◌≡◌, ◌<◌, ◌^◌, length, map, IfOk, IfSome, option_map};
ghost use Rattle.std.specs.List.{All};
ghost use Rattle.mt_lists.specs.Cuts.{index_of};
ghost use Rattle.mt_lists.specs.Options.{each};
ghost use Rattle.mt_kinds.specs.Written.{PortStands, TemplateStands, SpecStands};
ghost use Rattle.mt_kinds.specs.Rewriters.{address_part, port_part, range_of, ports_at, source_port, template_in, behind_pattern, template_of, templates_of, pass_in, keep_in, one_word, more_words, spec_in, spec_of, specs_of};

use crate::argument::{GREATEST_OUTPUT, words};
use crate::written::{WrittenPort, WrittenSpec, WrittenSpecs, WrittenTemplate, WrittenTemplates};
use mt_text::{Text, index_of, ipv4_address, is_identifier, number_up_to};
use std::alloc::{AllocError, Global};

/// The greatest port.
const GREATEST_PORT: u64 = 65_535;

/// An address, or `-` for the one that stays.
#[tactic(auto, unfolding(crate::specs::Rewriters::address_part))]
fn address_part(word: &[u8]) -> Option<Option<u32>>
    ensures { result ≡ address_part word.now }
{
    if word == b"-".as_slice() {
        return Some(None);
    }
    let address = ipv4_address(word)?;
    Some(Some(address as u32))
}

/// A port, or `-` for the one that stays.
#[tactic(auto, unfolding(crate::specs::Rewriters::port_part))]
fn port_part(word: &[u8]) -> Option<Option<u16>>
    ensures { result ≡ port_part word.now }
{
    if word == b"-".as_slice() {
        return Some(None);
    }
    let port = number_up_to(GREATEST_PORT, word)?;
    Some(Some(port as u16))
}

/// The ports of an address from a first to a second, none where the address stays.
#[tactic(auto, unfolding(crate::specs::Rewriters::range_of))]
fn range(address: Option<u32>, first: &[u8], second: &[u8]) -> Option<WrittenPort>
    ensures value { result ≡ range_of address first.now second.now }
    ensures stands { IfSome result (PortStands address) }
{
    match address {
        Some(_) => {
            let lo = number_up_to(GREATEST_PORT, first)?;
            let hi = number_up_to(GREATEST_PORT, second)?;
            if lo <= hi {
                Some(WrittenPort::Range(lo as u16, hi as u16))
            } else {
                None
            }
        }
        None => None,
    }
}

/// A port or a range of ports of an address.
#[tactic(auto, unfolding(crate::specs::Rewriters::ports_at))]
fn ports(address: Option<u32>, word: &[u8]) -> Option<WrittenPort>
    ensures value { result ≡ ports_at address word.now (index_of 45 word.now) }
    ensures stands { IfSome result (PortStands address) }
{
    match index_of(b'-', word) {
        Some(dash) => range(address, &word[..dash], &word[dash + 1..]),
        None => {
            let port = number_up_to(GREATEST_PORT, word)?;
            Some(WrittenPort::One(port as u16))
        }
    }
}

/// A port or a range of ports of an address, or `-` for the one that stays.
#[tactic(auto, unfolding(crate::specs::Rewriters::source_port))]
fn source_port(address: Option<u32>, word: &[u8]) -> Option<WrittenPort>
    ensures value { result ≡ source_port address word.now }
    ensures stands { IfSome result (PortStands address) }
{
    if word == b"-".as_slice() {
        Some(WrittenPort::Same)
    } else {
        ports(address, word)
    }
}

/// A template by its words: `SADDR SPORT DADDR DPORT FOUT ROUT`.
#[tactic(auto, unfolding(crate::specs::Rewriters::template_in))]
fn template_in(words: &[&[u8]]) -> Option<WrittenTemplate>
    ensures value { result ≡ template_in (map (λ x. x.now) words.now) }
    ensures stands { IfSome result TemplateStands }
{
    match words {
        [saddr, sport, daddr, dport, first, second] => {
            let sa = address_part(saddr)?;
            let sp = source_port(sa, sport)?;
            let da = address_part(daddr)?;
            let dp = port_part(dport)?;
            let fout = number_up_to(GREATEST_OUTPUT, first)?;
            let rout = number_up_to(GREATEST_OUTPUT, second)?;
            Some(WrittenTemplate {
                sa,
                sp,
                da,
                dp,
                fout: fout as u32,
                rout: rout as u32,
            })
        }
        _ => None,
    }
}

/// The words of a template without the `pattern` that may stand before them.
#[tactic(auto, unfolding(crate::specs::Rewriters::behind_pattern))]
fn behind_pattern<'a, 'b>(words: &'a [&'b [u8]]) -> &'a [&'b [u8]]
    ensures { map (λ x. x.now) result.now ≡ behind_pattern (map (λ x. x.now) words.now) }
{
    match words {
        [word, rest @ ..] => {
            if *word == b"pattern".as_slice() {
                rest
            } else {
                words
            }
        }
        [] => words,
    }
}

/// A template of a mapper.
fn template(alloc: Global, argument: &[u8]) -> Result<Option<WrittenTemplate>, AllocError>
    ensures value { IfOk result (λ found. found ≡ template_of argument.now) }
    ensures stands { IfOk result (λ found. IfSome found TemplateStands) }
{
    let words = words(alloc, argument)?;
    Ok(template_in(behind_pattern(&words)))
}

/// The templates that arguments are, None where one is none.
fn each_template(
    alloc: Global,
    arguments: &[Text],
) -> Result<Option<Vec<WrittenTemplate>>, AllocError>
    ensures templates { IfOk result (λ found. option_map (λ v. v.items) found ≡ each template_of arguments.now) }
    ensures count { IfOk result (λ found. IfSome found (λ v. length v.items ≡ length arguments.now)) }
    ensures stand { IfOk result (λ found. IfSome found (λ v. All TemplateStands v.items)) }
{
    let mut templates = Vec::new(alloc);
    for argument in arguments {
        match template(alloc, argument.bytes())? {
            Some(found) => templates.push(found)?,
            None => return Ok(None),
        }
    }
    Ok(Some(templates))
}

/// The templates that a `RoundRobinIPMapper` has by its arguments. None where an argument is no template, or there
/// is none.
#[tactic(auto, unfolding(crate::specs::Rewriters::templates_of))]
pub(crate) fn templates_of(
    alloc: Global,
    arguments: &[Text],
) -> Result<Option<WrittenTemplates>, AllocError>
    requires { length arguments.now < 2 ^ 32 }
    ensures { IfOk result (λ found. found ≡ templates_of arguments.now) }
{
    if arguments.is_empty() {
        return Ok(None);
    }
    match each_template(alloc, arguments)? {
        Some(templates) => Ok(Some(WrittenTemplates::new(templates))),
        None => Ok(None),
    }
}

/// What stands behind `pass`: an output.
#[tactic(auto, unfolding(crate::specs::Rewriters::pass_in))]
fn pass_in(words: &[&[u8]]) -> Option<WrittenSpec>
    ensures value { result ≡ pass_in (map (λ x. x.now) words.now) }
    ensures stands { IfSome result SpecStands }
{
    match words {
        [word] => {
            let out = number_up_to(GREATEST_OUTPUT, word)?;
            Some(WrittenSpec::Pass(out as u32))
        }
        _ => None,
    }
}

/// What stands behind `keep`: an output for packets in the flow's direction, and one for replies.
#[tactic(auto, unfolding(crate::specs::Rewriters::keep_in))]
fn keep_in(words: &[&[u8]]) -> Option<WrittenSpec>
    ensures value { result ≡ keep_in (map (λ x. x.now) words.now) }
    ensures stands { IfSome result SpecStands }
{
    match words {
        [first, second] => {
            let fout = number_up_to(GREATEST_OUTPUT, first)?;
            let rout = number_up_to(GREATEST_OUTPUT, second)?;
            Some(WrittenSpec::Keep(fout as u32, rout as u32))
        }
        _ => None,
    }
}

/// A specification of one word: `drop`, or the name of a mapper.
#[tactic(auto, unfolding(crate::specs::Rewriters::one_word))]
fn one_word(alloc: Global, word: &[u8]) -> Result<Option<WrittenSpec>, AllocError>
    ensures value { IfOk result (λ found. found ≡ one_word word.now) }
    ensures stands { IfOk result (λ found. IfSome found SpecStands) }
{
    if word == b"drop".as_slice() {
        Ok(Some(WrittenSpec::Drop))
    } else if is_identifier(word) {
        Ok(Some(WrittenSpec::Mapper(Text::copy_of(alloc, word)?)))
    } else {
        Ok(None)
    }
}

/// A specification by a word and those behind it.
#[tactic(auto, unfolding(crate::specs::Rewriters::more_words))]
fn more_words(word: &[u8], words: &[&[u8]]) -> Option<WrittenSpec>
    ensures value { result ≡ more_words word.now (map (λ x. x.now) words.now) }
    ensures stands { IfSome result SpecStands }
{
    if word == b"pass".as_slice() {
        pass_in(words)
    } else if word == b"keep".as_slice() {
        keep_in(words)
    } else if word == b"pattern".as_slice() {
        let template = template_in(words)?;
        Some(WrittenSpec::Pattern(template))
    } else {
        None
    }
}

/// A specification by its words.
#[tactic(auto, unfolding(crate::specs::Rewriters::spec_in))]
fn spec_in(alloc: Global, words: &[&[u8]]) -> Result<Option<WrittenSpec>, AllocError>
    ensures value { IfOk result (λ found. found ≡ spec_in (map (λ x. x.now) words.now)) }
    ensures stands { IfOk result (λ found. IfSome found SpecStands) }
{
    match words {
        [] => Ok(None),
        [word] => one_word(alloc, word),
        [word, rest @ ..] => Ok(more_words(word, rest)),
    }
}

/// A specification of an input of a rewriter.
fn spec(alloc: Global, argument: &[u8]) -> Result<Option<WrittenSpec>, AllocError>
    ensures value { IfOk result (λ found. found ≡ spec_of argument.now) }
    ensures stands { IfOk result (λ found. IfSome found SpecStands) }
{
    let words = words(alloc, argument)?;
    spec_in(alloc, &words)
}

/// The specifications that arguments are, None where one is none.
fn each_spec(alloc: Global, arguments: &[Text]) -> Result<Option<Vec<WrittenSpec>>, AllocError>
    ensures specs { IfOk result (λ found. option_map (λ v. v.items) found ≡ each spec_of arguments.now) }
    ensures count { IfOk result (λ found. IfSome found (λ v. length v.items ≡ length arguments.now)) }
    ensures stand { IfOk result (λ found. IfSome found (λ v. All SpecStands v.items)) }
{
    let mut specs = Vec::new(alloc);
    for argument in arguments {
        match spec(alloc, argument.bytes())? {
            Some(found) => specs.push(found)?,
            None => return Ok(None),
        }
    }
    Ok(Some(specs))
}

/// The specifications that an `IPRewriter` has by its arguments. None where an argument is no specification, or
/// there is none.
#[tactic(auto, unfolding(crate::specs::Rewriters::specs_of))]
pub(crate) fn specs_of(
    alloc: Global,
    arguments: &[Text],
) -> Result<Option<WrittenSpecs>, AllocError>
    requires { length arguments.now < 2 ^ 32 }
    ensures { IfOk result (λ found. found ≡ specs_of arguments.now) }
{
    if arguments.is_empty() {
        return Ok(None);
    }
    match each_spec(alloc, arguments)? {
        Some(specs) => Ok(Some(WrittenSpecs::new(specs))),
        None => Ok(None),
    }
}
