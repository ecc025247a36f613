//! Which files the devices of a chain have.
ghost use Rattle.std.specs.Prelude.{◌≡◌, ◌^◌, ◌<◌, map, length, find, position, IfOk, IfErr, IfSome, IfNone};
ghost use Rattle.std.specs.List.{list_any};
ghost use Rattle.std.specs.Option.{option_map};
ghost use Rattle.mt_command.specs.Devices.{has_side, is_of, is_known, is_unfit, is_unbound, file_for, bound_of, AreFit, IsFirstUnfit, IsBindFault, AreBound};
ghost use Rattle.mt_command.specs.Parts.{binding_view, device_view, bound_view};

use crate::binding::{Binding, Side};
use std::alloc::{AllocError, Global};
use thiserror::Error;

/// A device of a chain. Devices are numbered from 1, in the order in which they are given.
#[derive(Clone, Copy, Debug)]
pub struct Device<'a> {
    pub name: &'a [u8],
    /// Frames arrive on it.
    pub is_input: bool,
    /// Frames are sent on it.
    pub is_output: bool,
}

/// The files of one device.
#[derive(Clone, Copy, Debug)]
pub struct Bound<'a> {
    /// The capture of what arrives, exactly where the device is an input.
    pub input: Option<&'a str>,
    /// The capture that what is sent is written to, exactly where the device is an output.
    pub output: Option<&'a str>,
}

/// Why bindings don't fit devices.
#[derive(Clone, Copy, Debug, PartialEq, Eq, Error)]
pub enum BindFault {
    /// The binding in the word of this number is the first at fault: no device has its name and its side,
    /// or an earlier binding has them too.
    #[error("Word {0}")]
    Word(u32),
    /// No binding is at fault, and the device of this number is the lowest that has a side without one.
    #[error("Unbound {0}")]
    Unbound(u32),
    /// Memory ran out.
    #[error("NoMemory")]
    NoMemory,
}

impl From<AllocError> for BindFault {
    ghost use Rattle.std.specs.Prelude.{◌≡◌};
    ghost use Rattle.mt_command.specs.declared.devices.BindFault.TheVariants.{NoMemory as Memory};

    ghost from_gives = { λ _ fault. fault ≡ Memory };

    fn from(_: AllocError) -> BindFault {
        BindFault::NoMemory
    }
}

/// The files of each device, in the order of the devices. It takes time in the square of the number of
/// devices, however many bindings there are: once each side of each device has one, the next is at fault.
pub fn bind<'a>(
    alloc: Global,
    bindings: &[Binding<'a>],
    devices: &[Device<'_>],
) -> Result<Vec<Bound<'a>>, BindFault>
    requires { length devices.now < 2 ^ 32 }
    ensures bound { IfOk result (λ v. AreBound (map binding_view bindings.now) (map device_view devices.now) (map bound_view v.items)) }
    ensures fault { IfErr result (IsBindFault (map binding_view bindings.now) (map device_view devices.now)) }
{
    if let Some(word) = first_unfit(bindings, devices) {
        return Err(BindFault::Word(word));
    }
    if let Some(place) = first_unbound(bindings, devices) {
        return Err(BindFault::Unbound(place as u32 + 1));
    }
    Ok(bound_devices(alloc, bindings, devices)?)
}

// The first binding at fault: the number of its word.
fn first_unfit(bindings: &[Binding<'_>], devices: &[Device<'_>]) -> Option<u32>
    ensures found { IfSome result (IsFirstUnfit (map binding_view bindings.now) (map device_view devices.now)) }
    ensures none { IfNone result (AreFit (map device_view devices.now) (map binding_view bindings.now) (length (map binding_view bindings.now))) }
{
    for at in 0..bindings.len() {
        let binding = &bindings[at];
        if is_unfit(devices, &bindings[..at], binding) {
            return Some(binding.word);
        }
    }
    None
}

// The place, from 0, of the first device that has a side without a binding.
fn first_unbound(bindings: &[Binding<'_>], devices: &[Device<'_>]) -> Option<usize>
    ensures place { result ≡ position (is_unbound (map binding_view bindings.now)) (map device_view devices.now) }
    ensures bound { IfSome result (λ place. place < length devices.now) }
{
    for at in 0..devices.len() {
        if is_unbound(bindings, &devices[at]) {
            return Some(at);
        }
    }
    None
}

// The files of each device.
fn bound_devices<'a>(
    alloc: Global,
    bindings: &[Binding<'a>],
    devices: &[Device<'_>],
) -> Result<Vec<Bound<'a>>, AllocError>
    ensures { IfOk result (λ v. map bound_view v.items ≡ map (bound_of (map binding_view bindings.now)) (map device_view devices.now)) }
{
    let mut bound = Vec::new(alloc);
    let mut rest = devices;
    while let [device, after @ ..] = rest {
        bound.push(Bound {
            input: file_for(bindings, Side::In, device),
            output: file_for(bindings, Side::Out, device),
        })?;
        rest = after;
    }
    Ok(bound)
}

// Whether a device has a side.
fn has_side(device: &Device<'_>, side: Side) -> bool
    ensures { result ≡ has_side side (device_view device.now) }
{
    match side {
        Side::In => device.is_input,
        Side::Out => device.is_output,
    }
}

// Whether a binding is of a side of the device of a name.
fn is_of(binding: &Binding<'_>, side: Side, name: &[u8]) -> bool
    ensures { result ≡ is_of side name.now (binding_view binding.now) }
{
    side == binding.side && name == binding.device
}

// Whether a side of the device of a name has a binding.
fn any_of(bindings: &[Binding<'_>], side: Side, name: &[u8]) -> bool
    ensures { result ≡ list_any (is_of side name.now) (map binding_view bindings.now) }
{
    let mut rest = bindings;
    while let [binding, after @ ..] = rest {
        if is_of(binding, side, name) {
            return true;
        }
        rest = after;
    }
    false
}

// Whether a device has the name and the side of a binding.
fn is_known(devices: &[Device<'_>], binding: &Binding<'_>) -> bool
    ensures { result ≡ is_known (map device_view devices.now) (binding_view binding.now) }
{
    let mut rest = devices;
    while let [device, after @ ..] = rest {
        if device.name == binding.device && has_side(device, binding.side) {
            return true;
        }
        rest = after;
    }
    false
}

// Whether a binding behind others is at fault.
#[tactic(auto, unfolding(crate::specs::Devices::is_unfit))]
fn is_unfit(devices: &[Device<'_>], earlier: &[Binding<'_>], binding: &Binding<'_>) -> bool
    ensures { result ≡ is_unfit (map device_view devices.now) (map binding_view earlier.now) (binding_view binding.now) }
{
    !is_known(devices, binding) || any_of(earlier, binding.side, binding.device)
}

// Whether a device has a side without a binding.
#[tactic(auto, unfolding(crate::specs::Devices::is_unbound))]
fn is_unbound(bindings: &[Binding<'_>], device: &Device<'_>) -> bool
    ensures { result ≡ is_unbound (map binding_view bindings.now) (device_view device.now) }
{
    device.is_input && !any_of(bindings, Side::In, device.name)
        || device.is_output && !any_of(bindings, Side::Out, device.name)
}

// The file of the first binding of a side of the device of a name.
fn file_of<'a>(bindings: &[Binding<'a>], side: Side, name: &[u8]) -> Option<&'a str>
    ensures { option_map (λ f. f.now) result ≡ option_map (λ b. b.file) (find (is_of side name.now) (map binding_view bindings.now)) }
{
    let mut rest = bindings;
    while let [binding, after @ ..] = rest {
        if is_of(binding, side, name) {
            return Some(binding.file);
        }
        rest = after;
    }
    None
}

// The file for a side, where the device has it.
#[tactic(auto, unfolding(crate::specs::Devices::file_for))]
fn file_for<'a>(bindings: &[Binding<'a>], side: Side, device: &Device<'_>) -> Option<&'a str>
    ensures { option_map (λ f. f.now) result ≡ file_for (map binding_view bindings.now) side (device_view device.now) }
{
    if has_side(device, side) {
        file_of(bindings, side, device.name)
    } else {
        None
    }
}
