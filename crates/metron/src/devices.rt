//! The devices of a chain, and the files that a command gives them.
ghost use Rattle.std.specs.Prelude.{◌≡◌, length, map, IfOk, IfErr};
ghost use Rattle.std.specs.List.{list_any};
ghost use Rattle.mt_command.specs.Apart.{HaveNames};
ghost use Rattle.mt_command.specs.Devices.{AreBound};
ghost use Rattle.mt_command.specs.Parts.{binding_view, bound_view, device_view};
ghost use Rattle.metron.specs.Causes.{BindCause};
ghost use Rattle.metron.specs.Inputs.{devices_of, sends_on};

use crate::Fault;
use mt_command::{BindFault, Binding, Bound, Device, bind};
use mt_elements::Chain;
use mt_kinds::Kind;
use std::alloc::{AllocError, Global};

/// The files that bindings give the devices of a chain.
pub(crate) fn bind_devices<'a>(
    alloc: Global,
    chain: &Chain,
    bindings: &[Binding<'a>],
) -> Result<Vec<Bound<'a>>, Fault>
    requires { HaveNames (devices_of chain.now) }
    ensures ok { IfOk result (λ bound. AreBound (map binding_view bindings.now) (devices_of chain.now) (map bound_view bound.items)) }
    ensures err { IfErr result (BindCause (map binding_view bindings.now) (devices_of chain.now)) }
{
    chain.is_accepted();
    let devices = match devices_of(alloc, chain) {
        Ok(devices) => devices,
        Err(_) => return Err(Fault::Memory),
    };
    match bind(alloc, bindings, &devices) {
        Ok(bound) => Ok(bound),
        Err(BindFault::Word(word)) => Err(Fault::UsageWord(word)),
        Err(BindFault::Unbound(device)) => Err(Fault::Unbound(device)),
        Err(BindFault::NoMemory) => Err(Fault::Memory),
    }
}

/// The devices of a chain.
fn devices_of<'a>(alloc: Global, chain: &'a Chain) -> Result<Vec<Device<'a>>, AllocError>
    ensures { IfOk result (λ devices. map device_view devices.items ≡ devices_of chain.now) }
{
    let entries = chain.entries();
    let mut devices = Vec::new(alloc);
    let mut number = 1u32;
    let mut rest = chain.devices();
    while let [name, after @ ..] = rest {
        devices.push(Device {
            name: name.bytes(),
            is_input: number <= entries,
            is_output: is_sent_on(number, chain.kinds()),
        })?;
        number += 1;
        rest = after;
    }
    Ok(devices)
}

/// Whether one of the elements sends on a device.
fn is_sent_on(number: u32, kinds: &[Kind]) -> bool
    ensures { result ≡ list_any (sends_on number) kinds.now }
{
    let mut rest = kinds;
    while let [kind, after @ ..] = rest {
        if sends_on(number, kind) {
            return true;
        }
        rest = after;
    }
    false
}

fn sends_on(number: u32, kind: &Kind) -> bool
    ensures { result ≡ sends_on number kind.now }
{
    match kind {
        Kind::ToDevice(device) => *device == number,
        _ => false,
    }
}
