//! Parameters in argument texts.
ghost use Rattle.std.specs.Prelude.{◌≡◌, IfOk};
ghost use Rattle.std.specs.Option.{option_map};
ghost use Rattle.mt_syntax.specs.Replacing.{argument_for, is_parameter, argument_at, replaced_in, is_unknown_at, unknown_in};

use crate::piece::name_length;
use mt_text::{Text, begins_name};
use std::alloc::{AllocError, Global};

/// A parameter of a class, without its `$`, and the argument that a use gives it.
#[derive(Debug, Drop)]
pub struct Binding {
    pub name: Text,
    pub argument: Text,
}

// The argument of a parameter.
fn argument_of<'a>(bindings: &'a [Binding], name: &[u8]) -> Option<&'a [u8]>
    ensures { option_map (λ x. x.now) result ≡ argument_for bindings.now name.now }
{
    for binding in bindings {
        if binding.name.bytes() == name {
            return Some(binding.argument.bytes());
        }
    }
    None
}

// Whether `$` and an identifier stand at the front.
fn is_at_parameter(bytes: &[u8]) -> bool
    ensures { result ≡ is_parameter bytes.now }
{
    bytes.len() > 1 && bytes[0] == b'$' && begins_name(bytes[1])
}

// The argument of the parameter at the front, where one stands there.
#[tactic(auto, unfolding(crate::specs::Replacing::argument_at))]
fn argument_behind<'a>(bindings: &'a [Binding], bytes: &[u8]) -> Option<&'a [u8]>
    ensures { option_map (λ x. x.now) result ≡ argument_at bindings.now bytes.now }
{
    if !is_at_parameter(bytes) {
        return None;
    }
    let rest = &bytes[1..];
    let len = name_length(rest);
    argument_of(bindings, &rest[..len])
}

/// The text with the argument in place of each parameter. A `$` name that is no parameter stays as
/// it is.
pub fn replaced(alloc: Global, bindings: &[Binding], text: &[u8]) -> Result<Vec<u8>, AllocError>
    ensures { IfOk result (λ v. v.items ≡ replaced_in bindings.now text.now) }
{
    let mut bytes = Vec::new(alloc);
    let mut skip = 0;
    for at in 0..text.len() {
        if skip > 0 {
            skip -= 1;
            continue;
        }
        match argument_behind(bindings, &text[at..]) {
            Some(argument) => {
                bytes.extend_from_slice(argument)?;
                skip = name_length(&text[at + 1..]);
            }
            None => bytes.push(text[at])?,
        }
    }
    Ok(bytes)
}

// Whether a `$` name that is no parameter stands at the front.
fn is_unknown(bindings: &[Binding], bytes: &[u8]) -> bool
    ensures { result ≡ is_unknown_at bindings.now bytes.now }
{
    is_at_parameter(bytes) && argument_behind(bindings, bytes).is_none()
}

/// Where the first `$` name stands that is no parameter, counted from 0.
pub fn first_unknown(bindings: &[Binding], text: &[u8]) -> Option<usize>
    ensures { result ≡ unknown_in bindings.now text.now }
{
    for at in 0..text.len() {
        if is_unknown(bindings, &text[at..]) {
            return Some(at);
        }
    }
    None
}
