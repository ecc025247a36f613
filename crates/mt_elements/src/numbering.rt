//! Devices and pools by number.
ghost use Rattle.std.specs.Prelude.{◌≡◌, fold, IfOk, OnOk};
ghost use Rattle.std.specs.List.{flat_map, list_any};
ghost use Rattle.std.specs.Str.{bytes_eq};
ghost use Rattle.mt_elements.specs.Described.{added, firsts, entry_in, exit_in, is_pool, pool_in, spec_pool, pools_in};

use indexmap::IndexSet;
use mt_kinds::{Description, Pool, WrittenPort, WrittenSpec, WrittenTemplate};
use mt_text::Text;
use std::alloc::{AllocError, Global};

/// Whether a device is among others.
fn is_among(name: &[u8], devices: &[Text]) -> bool
    ensures { result ≡ list_any (bytes_eq name.now) devices.now }
{
    devices.iter().any(|device| name == device.bytes())
}

/// Puts a device behind others, where it is not among them.
fn add_device(alloc: Global, devices: &mut Vec<Text>, name: &[u8]) -> Result<(), AllocError>
    ensures { OnOk result (devices.new.items ≡ added bytes_eq devices.old.items name.now) }
{
    if !is_among(name, devices) {
        devices.push(Text::copy_of(alloc, name)?)?;
    }
    Ok(())
}

/// Adds the devices by which frames enter, in the order of the elements.
pub(crate) fn add_entries(
    alloc: Global,
    devices: &mut Vec<Text>,
    descriptions: &[Description],
) -> Result<(), AllocError>
    ensures { OnOk result (devices.new.items ≡ fold (added bytes_eq) devices.old.items (flat_map entry_in descriptions.now)) }
{
    let mut rest = descriptions;
    while let [description, after @ ..] = rest {
        if let Description::FromDevice(name) = description {
            add_device(alloc, devices, name.bytes())?;
        }
        rest = after;
    }
    Ok(())
}

/// Adds the devices on which frames are sent, in the order of the elements.
pub(crate) fn add_exits(
    alloc: Global,
    devices: &mut Vec<Text>,
    descriptions: &[Description],
) -> Result<(), AllocError>
    ensures { OnOk result (devices.new.items ≡ fold (added bytes_eq) devices.old.items (flat_map exit_in descriptions.now)) }
{
    let mut rest = descriptions;
    while let [description, after @ ..] = rest {
        if let Description::ToDevice(name) = description {
            add_device(alloc, devices, name.bytes())?;
        }
        rest = after;
    }
    Ok(())
}

/// Adds the pool of a template, where it has one that is not there.
fn add_pool(pools: &mut IndexSet<Pool>, template: &WrittenTemplate) -> Result<(), AllocError>
    ensures { OnOk result (pools.new.keys ≡ fold (added is_pool) pools.old.keys (pool_in template.now)) }
{
    let Some(address) = template.sa else {
        return Ok(());
    };
    if let WrittenPort::Range(lo, hi) = template.sp {
        pools.insert(Pool { address, lo, hi })?;
    }
    Ok(())
}

/// Adds the pools of specifications.
fn add_spec_pools(pools: &mut IndexSet<Pool>, specs: &[WrittenSpec]) -> Result<(), AllocError>
    ensures { OnOk result (pools.new.keys ≡ fold (added is_pool) pools.old.keys (flat_map spec_pool specs.now)) }
{
    let mut rest = specs;
    while let [spec, after @ ..] = rest {
        if let WrittenSpec::Pattern(template) = spec {
            add_pool(pools, template)?;
        }
        rest = after;
    }
    Ok(())
}

/// Adds the pools of templates.
fn add_template_pools(
    pools: &mut IndexSet<Pool>,
    templates: &[WrittenTemplate],
) -> Result<(), AllocError>
    ensures { OnOk result (pools.new.keys ≡ fold (added is_pool) pools.old.keys (flat_map pool_in templates.now)) }
{
    let mut rest = templates;
    while let [template, after @ ..] = rest {
        add_pool(pools, template)?;
        rest = after;
    }
    Ok(())
}

/// Adds the pools of an element.
fn add_pools(pools: &mut IndexSet<Pool>, description: &Description) -> Result<(), AllocError>
    ensures { OnOk result (pools.new.keys ≡ fold (added is_pool) pools.old.keys (pools_in description.now)) }
{
    match description {
        Description::Rewriter(specs) => add_spec_pools(pools, specs.as_slice()),
        Description::Mapper(templates) => add_template_pools(pools, templates.as_slice()),
        _ => Ok(()),
    }
}

/// All pools, in the order of their first appearance in the arguments of the elements.
pub(crate) fn pools_of(
    alloc: Global,
    descriptions: &[Description],
) -> Result<IndexSet<Pool>, AllocError>
    ensures pools { IfOk result (λ pools. pools.keys ≡ firsts is_pool (flat_map pools_in descriptions.now)) }
{
    let mut pools = IndexSet::new(alloc);
    let mut rest = descriptions;
    while let [description, after @ ..] = rest {
        add_pools(&mut pools, description)?;
        rest = after;
    }
    Ok(pools)
}
