//! The elements of a graph by what their classes and arguments say, and the first with which something is wrong.
ghost use Rattle.std.specs.Prelude.{◌≡◌, ◌≤◌, ◌++◌, length, map, IfOk};
ghost use Rattle.std.specs.List.{list_any, list_all, flat_map, position_or_len};
ghost use Rattle.std.specs.Str.{bytes_eq};
ghost use Rattle.mt_elements.specs.Described.{scope_of, scope_length, is_mapper, mapper_names, is_known, entry_in, when, misfit};

use mt_graph::Element;
use mt_kinds::{Description, WrittenSpec};
use std::alloc::{AllocError, Global};

/// How many bytes of a name its scope has: all up to the last `/`.
fn scope_length(name: &[u8]) -> usize
    ensures length { result ≡ scope_length name.now }
    ensures within { result ≤ length name.now }
{
    let mut rest = name;
    while let [before @ .., last] = rest {
        if *last == b'/' {
            return rest.len();
        }
        rest = before;
    }
    0
}

/// The scope of an element, of its name.
pub(crate) fn scope_of(name: &[u8]) -> &[u8]
    ensures { result.now ≡ scope_of name.now }
{
    &name[..scope_length(name)]
}

/// Whether an element is a mapper.
fn is_mapper(element: &Element) -> bool
    ensures { result ≡ is_mapper element.now }
{
    element.class.bytes() == b"RoundRobinIPMapper".as_slice()
}

/// The names of the mappers, in the order of the elements.
pub(crate) fn mapper_names(alloc: Global, elements: &[Element]) -> Result<Vec<&[u8]>, AllocError>
    ensures { IfOk result (λ names. map (λ x. x.now) names.items ≡ mapper_names elements.now) }
{
    let mut names = Vec::new(alloc);
    let mut rest = elements;
    while let [element, after @ ..] = rest {
        if is_mapper(element) {
            names.push(element.name.bytes())?;
        }
        rest = after;
    }
    Ok(names)
}

/// The number of the mapper of that name in a scope, or the number of mappers.
pub(crate) fn mapper_number(
    alloc: Global,
    names: &[&[u8]],
    scope: &[u8],
    name: &[u8],
) -> Result<usize, AllocError>
    ensures place { IfOk result (λ number. number ≡ position_or_len (bytes_eq (scope.now ++ name.now)) (map (λ x. x.now) names.now)) }
    ensures within { IfOk result (λ number. number ≤ length names.now) }
{
    let mut full = Vec::from_slice(alloc, scope)?;
    full.extend_from_slice(name)?;
    Ok(index_of(names, &full))
}

/// The first index at which a name stands, or the number of names.
fn index_of(names: &[&[u8]], name: &[u8]) -> usize
    ensures place { result ≡ position_or_len (bytes_eq name.now) (map (λ x. x.now) names.now) }
    ensures within { result ≤ length names.now }
{
    let mut index = 0;
    let mut rest = names;
    while let [other, after @ ..] = rest {
        if name == *other {
            return index;
        }
        index += 1;
        rest = after;
    }
    index
}

/// Whether a specification names no mapper, or one that stands in the scope.
fn is_known(
    alloc: Global,
    names: &[&[u8]],
    scope: &[u8],
    spec: &WrittenSpec,
) -> Result<bool, AllocError>
    ensures { IfOk result (λ known. known ≡ is_known (map (λ x. x.now) names.now) scope.now spec.now) }
{
    match spec {
        WrittenSpec::Mapper(name) => {
            let number = mapper_number(alloc, names, scope, name.bytes())?;
            Ok(number < names.len())
        }
        _ => Ok(true),
    }
}

/// Whether each mapper that specifications name stands in the scope.
fn are_known(
    alloc: Global,
    names: &[&[u8]],
    scope: &[u8],
    specs: &[WrittenSpec],
) -> Result<bool, AllocError>
    ensures { IfOk result (λ known. known ≡ list_all (is_known (map (λ x. x.now) names.now) scope.now) specs.now) }
{
    let mut rest = specs;
    while let [spec, after @ ..] = rest {
        if !is_known(alloc, names, scope, spec)? {
            return Ok(false);
        }
        rest = after;
    }
    Ok(true)
}

/// Whether frames of a device enter at an element.
fn is_entry(device: &[u8], description: &Description) -> bool
    ensures { result ≡ list_any (bytes_eq device.now) (entry_in description.now) }
{
    match description {
        Description::FromDevice(name) => device == name.bytes(),
        _ => false,
    }
}

/// Whether frames of a device enter at one of the elements.
fn is_entered(device: &[u8], descriptions: &[Description]) -> bool
    ensures { result ≡ list_any (bytes_eq device.now) (flat_map entry_in descriptions.now) }
{
    let mut rest = descriptions;
    while let [description, after @ ..] = rest {
        if is_entry(device, description) {
            return true;
        }
        rest = after;
    }
    false
}

/// Whether an element that can be read by itself does not fit the others: a mapper of its arguments is not in
/// its scope, or frames of its device enter at an element before it.
pub(crate) fn is_misfit(
    alloc: Global,
    names: &[&[u8]],
    before: &[Description],
    scope: &[u8],
    description: &Description,
) -> Result<bool, AllocError>
    ensures { IfOk result (λ wrong. when wrong ≡ misfit (map (λ x. x.now) names.now) (flat_map entry_in before.now) scope.now description.now) }
{
    match description {
        Description::FromDevice(name) => Ok(is_entered(name.bytes(), before)),
        Description::Rewriter(specs) => Ok(!are_known(alloc, names, scope, specs.as_slice())?),
        _ => Ok(false),
    }
}
