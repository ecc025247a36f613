//! The patterns of a `Classifier`.
ghost use Rattle.std.specs.Prelude.{◌≡◌, IfOk, IfSome, ◌<◌, ◌^◌, length, map, option_map};
ghost use Rattle.std.specs.List.{list_any};
ghost use Rattle.mt_lists.specs.Options.{each};
ghost use Rattle.mt_kinds.specs.Patterns.{clause_of, is_operation, is_arp, may_stand, pattern_of, patterns_of};

use crate::argument::words;
use crate::{Clause, Patterns};
use mt_text::{Text, hexadecimal_of_length};
use std::alloc::{AllocError, Global};

/// A clause: `0/` and twelve hexadecimal digits, `6/` and twelve, `12/` and four, or `20/` and four.
#[tactic(auto, unfolding(crate::specs::Patterns::clause_of))]
fn clause(word: &[u8]) -> Option<Clause>
    ensures { result ≡ clause_of word.now }
{
    if word.starts_with(b"0/") {
        Some(Clause::EthDst(hexadecimal_of_length(12, &word[2..])?))
    } else if word.starts_with(b"6/") {
        Some(Clause::EthSrc(hexadecimal_of_length(12, &word[2..])?))
    } else if word.starts_with(b"12/") {
        Some(Clause::EthType(hexadecimal_of_length(4, &word[3..])? as u16))
    } else if word.starts_with(b"20/") {
        Some(Clause::ArpOp(hexadecimal_of_length(4, &word[3..])? as u16))
    } else {
        None
    }
}

/// Whether a clause asks for the operation of an ARP packet.
fn is_operation(clause: &Clause) -> bool
    ensures { result ≡ is_operation clause.now }
{
    matches!(clause, Clause::ArpOp(_))
}

/// Whether a clause asks for the EtherType of ARP, 0x0806.
fn is_arp(clause: &Clause) -> bool
    ensures { result ≡ is_arp clause.now }
{
    match clause {
        Clause::EthType(ether_type) => *ether_type == 0x0806,
        _ => false,
    }
}

fn has_operation(clauses: &[Clause]) -> bool
    ensures { result ≡ list_any is_operation clauses.now }
{
    clauses.iter().any(is_operation)
}

fn has_arp(clauses: &[Clause]) -> bool
    ensures { result ≡ list_any is_arp clauses.now }
{
    clauses.iter().any(is_arp)
}

/// Whether the operation of ARP is asked for only beside the EtherType of ARP.
#[tactic(auto, unfolding(crate::specs::Patterns::may_stand))]
fn may_stand(clauses: &[Clause]) -> bool
    ensures { result ≡ may_stand clauses.now }
{
    !has_operation(clauses) || has_arp(clauses)
}

/// The clauses that words are, None where one is none.
fn clauses(alloc: Global, words: &[&[u8]]) -> Result<Option<Vec<Clause>>, AllocError>
    ensures { IfOk result (λ found. option_map (λ v. v.items) found ≡ each clause_of (map (λ x. x.now) words.now)) }
{
    let mut clauses = Vec::new(alloc);
    for word in words {
        match clause(word) {
            Some(found) => clauses.push(found)?,
            None => return Ok(None),
        }
    }
    Ok(Some(clauses))
}

/// A pattern: `-`, which has no clause, or clauses separated by spaces.
#[tactic(auto, unfolding(crate::specs::Patterns::pattern_of, crate::specs::Patterns::together))]
fn pattern(alloc: Global, argument: &[u8]) -> Result<Option<Vec<Clause>>, AllocError>
    ensures { IfOk result (λ found. option_map (λ v. v.items) found ≡ pattern_of argument.now) }
{
    if argument == b"-".as_slice() {
        return Ok(Some(Vec::new(alloc)));
    }
    let words = words(alloc, argument)?;
    let Some(found) = clauses(alloc, &words)? else {
        return Ok(None);
    };
    if may_stand(&found) {
        Ok(Some(found))
    } else {
        Ok(None)
    }
}

/// The patterns that arguments are, None where one is none.
fn each_pattern(alloc: Global, arguments: &[Text]) -> Result<Option<Vec<Vec<Clause>>>, AllocError>
    ensures patterns { IfOk result (λ found. option_map (λ v. map (λ p. p.items) v.items) found ≡ each pattern_of arguments.now) }
    ensures count { IfOk result (λ found. IfSome found (λ v. length v.items ≡ length arguments.now)) }
{
    let mut patterns = Vec::new(alloc);
    for argument in arguments {
        match pattern(alloc, argument.bytes())? {
            Some(found) => patterns.push(found)?,
            None => return Ok(None),
        }
    }
    Ok(Some(patterns))
}

/// The patterns that a `Classifier` has by its arguments. None where an argument is no pattern, or there is
/// none.
#[tactic(auto, unfolding(crate::specs::Patterns::patterns_of))]
pub fn patterns_of(alloc: Global, arguments: &[Text]) -> Result<Option<Patterns>, AllocError>
    requires { length arguments.now < 2 ^ 32 }
    ensures { IfOk result (λ found. found ≡ patterns_of arguments.now) }
{
    if arguments.is_empty() {
        return Ok(None);
    }
    match each_pattern(alloc, arguments)? {
        Some(patterns) => Ok(Some(Patterns::new(patterns))),
        None => Ok(None),
    }
}
