//! What the class of an element and its arguments say, before devices, mappers and pools have numbers.
ghost use Rattle.std.specs.Prelude.{◌≡◌, ◌<◌, ◌^◌, length, IfOk};
ghost use Rattle.std.specs.List.{list_any};
ghost use Rattle.std.specs.Str.{bytes_eq};
ghost use Rattle.mt_kinds.specs.Descriptions.{is_class_name, device_of, described, description_of};

use crate::Kind;
use crate::class::{are_keywords, kind_of};
use crate::rewriting::{specs_of, templates_of};
use crate::written::{WrittenSpecs, WrittenTemplates};
use mt_text::{Text, is_identifier};
use std::alloc::{AllocError, Global};

/// What an element is, as it is written.
#[derive(Drop)]
pub enum Description {
    /// Frames that arrive on a device of that name enter by it.
    FromDevice(Text),
    /// Sends frames on a device of that name.
    ToDevice(Text),
    /// An `IPRewriter`, with the specifications of its inputs.
    Rewriter(WrittenSpecs),
    /// A `RoundRobinIPMapper`, with its templates.
    Mapper(WrittenTemplates),
    /// Any other element.
    Settled(Kind),
}

/// Why an element says nothing.
#[derive(Clone, Copy, Debug, PartialEq, Eq)]
pub enum Misread {
    /// No class has that name.
    UnknownClass,
    /// An argument has not its form, is missing or is one too many.
    BadArgs,
}

/// The names of the classes.
const CLASS_NAMES: [&str; 26] = [
    "FromDevice",
    "ToDevice",
    "Discard",
    "Null",
    "Counter",
    "Queue",
    "Paint",
    "PaintSwitch",
    "Classifier",
    "EtherMirror",
    "Strip",
    "CheckIPHeader",
    "EtherEncap",
    "DecIPTTL",
    "IPFilter",
    "IPClassifier",
    "LookupIPRoute",
    "StaticIPLookup",
    "LinearIPLookup",
    "RadixIPLookup",
    "SetIPDSCP",
    "StoreIPAddress",
    "GetIPAddress",
    "IPMirror",
    "IPRewriter",
    "RoundRobinIPMapper",
];

/// Whether a word is one of these names.
fn is_among(word: &[u8], names: &[&str]) -> bool
    ensures { result ≡ list_any (λ name. bytes_eq word.now name.now) names.now }
{
    names.iter().any(|name| word == name.as_bytes())
}

/// Whether a class has that name.
#[tactic(auto, unfolding(crate::specs::Descriptions::is_class_name))]
fn is_class_name(class: &[u8]) -> bool
    ensures { result ≡ is_class_name class.now }
{
    is_among(class, &CLASS_NAMES)
}

/// The name of the device that arguments give: the first of them, an identifier; the others begin with an upper-case
/// word and say nothing.
#[tactic(auto, unfolding(crate::specs::Descriptions::device_of))]
fn device_of(alloc: Global, arguments: &[Text]) -> Result<Option<Text>, AllocError>
    ensures { IfOk result (λ found. found ≡ device_of arguments.now) }
{
    match arguments {
        [name, others @ ..] => {
            if is_identifier(name.bytes()) && are_keywords(others) {
                Ok(Some(Text::copy_of(alloc, name.bytes())?))
            } else {
                Ok(None)
            }
        }
        [] => Ok(None),
    }
}

/// What a class says with arguments that it takes.
#[tactic(auto, unfolding(crate::specs::Descriptions::described))]
fn described(
    alloc: Global,
    class: &[u8],
    arguments: &[Text],
) -> Result<Option<Description>, AllocError>
    requires { length arguments.now < 2 ^ 32 }
    ensures { IfOk result (λ found. found ≡ described class.now arguments.now) }
{
    if class == b"FromDevice".as_slice() {
        Ok(device_of(alloc, arguments)?.map(Description::FromDevice))
    } else if class == b"ToDevice".as_slice() {
        Ok(device_of(alloc, arguments)?.map(Description::ToDevice))
    } else if class == b"IPRewriter".as_slice() {
        Ok(specs_of(alloc, arguments)?.map(Description::Rewriter))
    } else if class == b"RoundRobinIPMapper".as_slice() {
        Ok(templates_of(alloc, arguments)?.map(Description::Mapper))
    } else {
        Ok(kind_of(alloc, class, arguments)?.map(Description::Settled))
    }
}

/// What an element of that class says with these arguments. `UnknownClass` exactly where no class has that name;
/// `BadArgs` exactly where one has, and an argument has not its form, is missing or is one too many.
#[tactic(auto, unfolding(crate::specs::Descriptions::description_of))]
pub fn description_of(
    alloc: Global,
    class: &[u8],
    arguments: &[Text],
) -> Result<Result<Description, Misread>, AllocError>
    requires { length arguments.now < 2 ^ 32 }
    ensures exact { IfOk result (λ found. found ≡ description_of class.now arguments.now) }
{
    if !is_class_name(class) {
        return Ok(Err(Misread::UnknownClass));
    }
    match described(alloc, class, arguments)? {
        Some(description) => Ok(Ok(description)),
        None => Ok(Err(Misread::BadArgs)),
    }
}
