//! What the elements of a graph are, or the first with which something is wrong.
ghost use Rattle.std.specs.Prelude.{◌≡◌, ◌≤◌, length, map, Ok, IfOk, IfErr};
ghost use Rattle.std.specs.List.{All, flat_map};
ghost use Rattle.std.specs.Result.{result_err};
ghost use Rattle.mt_elements.specs.Described.{AreFaultless, HasFewArguments, describe, entry_in, fault_in, scope_of};
ghost use Rattle.mt_elements.specs.Told.{IsUnread, Tells};

use crate::describing::{is_misfit, mapper_names, scope_of};
use crate::fault::{Refusal, cause_of, told_of};
use mt_graph::Element;
use mt_kinds::{Description, Misread, description_of};
use std::alloc::{AllocError, Global};

/// What an element says behind elements that say these, or what is wrong with it.
fn read(
    alloc: Global,
    names: &[&[u8]],
    before: &[Description],
    element: &Element,
) -> Result<Result<Description, Misread>, AllocError>
    requires { HasFewArguments element.now }
    ensures described { IfOk result (λ r. IfOk r (λ d. describe element.now ≡ Ok d)) }
    ensures fault { IfOk result (λ r. result_err r ≡ fault_in (map (λ x. x.now) names.now) (flat_map entry_in before.now) (scope_of element.now.name) (describe element.now)) }
{
    let read = description_of(alloc, element.class.bytes(), element.args.as_slice())?;
    let description = match read {
        Ok(description) => description,
        Err(why) => return Ok(Err(why)),
    };
    let scope = scope_of(element.name.bytes());
    if is_misfit(alloc, names, before, scope, &description)? {
        return Ok(Err(Misread::BadArgs));
    }
    Ok(Ok(description))
}

/// What the elements are. Refused is the first with which something is wrong.
pub(crate) fn described(alloc: Global, elements: &[Element]) -> Result<Vec<Description>, Refusal>
    requires few { length elements.now ≤ 512 }
    requires arguments { All HasFewArguments elements.now }
    ensures described { IfOk result (λ v. map describe elements.now ≡ map Ok v.items) }
    ensures faultless { IfOk result (λ _. AreFaultless elements.now) }
    ensures refused { IfErr result (Tells (IsUnread elements.now)) }
{
    let names = mapper_names(alloc, elements)?;
    let mut descriptions = Vec::new(alloc);
    for number in 0..elements.len() {
        match read(alloc, &names, &descriptions, &elements[number])? {
            Ok(description) => descriptions.push(description)?,
            Err(why) => return Err(told_of(elements, cause_of(why), number as u32)),
        }
    }
    Ok(descriptions)
}
