//! Elements with the numbers of their devices, mappers and pools.
ghost use Rattle.std.specs.Prelude.{◌≡◌, ◌≤◌, length, map, IfOk};
ghost use Rattle.std.specs.List.{position_or_len};
ghost use Rattle.mt_elements.specs.Described.{is_pool, device_of, port_of, template_of, spec_of, kind_of, kinds_of};

use crate::describing::{mapper_number, scope_of};
use indexmap::IndexSet;
use mt_graph::Element;
use mt_kinds::{
    Description, Kind, Pool, SourcePort, Spec, Specs, Template, Templates, WrittenPort,
    WrittenSpec, WrittenTemplate,
};
use mt_text::Text;
use std::alloc::{AllocError, Global};

/// The number of a device.
fn device_of(devices: &[Text], name: &[u8]) -> u32
    requires { length devices.now ≤ 1024 }
    ensures { result ≡ device_of devices.now name.now }
{
    let mut number = 1;
    let mut rest = devices;
    while let [device, after @ ..] = rest {
        if name == device.bytes() {
            return number;
        }
        number += 1;
        rest = after;
    }
    number
}

/// The number of a pool.
fn pool_number(pools: &IndexSet<Pool>, pool: Pool) -> u32
    requires { length pools.now.keys ≤ 536870912 }
    ensures { result ≡ position_or_len (is_pool pool) pools.now.keys }
{
    pools.get_index_of(&pool).unwrap_or(pools.len()) as u32
}

/// A source port with the number of its pool.
fn port_of(pools: &IndexSet<Pool>, address: Option<u32>, port: WrittenPort) -> SourcePort
    requires { length pools.now.keys ≤ 536870912 }
    ensures { result ≡ port_of pools.now.keys address port }
{
    match port {
        WrittenPort::Same => SourcePort::Same,
        WrittenPort::One(number) => SourcePort::One(number),
        WrittenPort::Range(lo, hi) => match address {
            Some(address) => SourcePort::Pool(pool_number(pools, Pool { address, lo, hi })),
            None => SourcePort::Same,
        },
    }
}

/// A template with the number of its pool.
fn template_of(pools: &IndexSet<Pool>, template: &WrittenTemplate) -> Template
    requires { length pools.now.keys ≤ 536870912 }
    ensures { result ≡ template_of pools.now.keys template.now }
{
    Template {
        sa: template.sa,
        sp: port_of(pools, template.sa, template.sp),
        da: template.da,
        dp: template.dp,
        fout: template.fout,
        rout: template.rout,
    }
}

/// The templates of a mapper.
fn templates_of(
    alloc: Global,
    pools: &IndexSet<Pool>,
    written: &[WrittenTemplate],
) -> Result<Vec<Template>, AllocError>
    requires { length pools.now.keys ≤ 536870912 }
    ensures { IfOk result (λ v. v.items ≡ map (template_of pools.now.keys) written.now) }
{
    let mut templates = Vec::new(alloc);
    let mut rest = written;
    while let [template, after @ ..] = rest {
        templates.push(template_of(pools, template))?;
        rest = after;
    }
    Ok(templates)
}

/// A specification with the numbers of its pool or mapper. It names no mapper, or one that is there.
fn spec_of(
    alloc: Global,
    pools: &IndexSet<Pool>,
    names: &[&[u8]],
    scope: &[u8],
    written: &WrittenSpec,
) -> Result<Spec, AllocError>
    requires pools { length pools.now.keys ≤ 536870912 }
    requires names { length names.now ≤ 512 }
    ensures { IfOk result (λ s. s ≡ spec_of pools.now.keys (map (λ x. x.now) names.now) scope.now written.now) }
{
    match written {
        WrittenSpec::Drop => Ok(Spec::Drop),
        WrittenSpec::Pass(out) => Ok(Spec::Pass(*out)),
        WrittenSpec::Keep(fout, rout) => Ok(Spec::Keep(*fout, *rout)),
        WrittenSpec::Pattern(template) => Ok(Spec::Pattern(template_of(pools, template))),
        WrittenSpec::Mapper(name) => {
            let number = mapper_number(alloc, names, scope, name.bytes())?;
            Ok(Spec::Mapper(number as u32))
        }
    }
}

/// The specifications of a rewriter.
fn specs_of(
    alloc: Global,
    pools: &IndexSet<Pool>,
    names: &[&[u8]],
    scope: &[u8],
    written: &[WrittenSpec],
) -> Result<Vec<Spec>, AllocError>
    requires pools { length pools.now.keys ≤ 536870912 }
    requires names { length names.now ≤ 512 }
    ensures { IfOk result (λ v. v.items ≡ map (spec_of pools.now.keys (map (λ x. x.now) names.now) scope.now) written.now) }
{
    let mut specs = Vec::new(alloc);
    let mut rest = written;
    while let [spec, after @ ..] = rest {
        specs.push(spec_of(alloc, pools, names, scope, spec)?)?;
        rest = after;
    }
    Ok(specs)
}

/// An element of a scope by its description.
fn kind_of(
    alloc: Global,
    devices: &[Text],
    pools: &IndexSet<Pool>,
    names: &[&[u8]],
    scope: &[u8],
    description: Description,
) -> Result<Kind, AllocError>
    requires devices { length devices.now ≤ 1024 }
    requires pools { length pools.now.keys ≤ 536870912 }
    requires names { length names.now ≤ 512 }
    ensures { IfOk result (λ k. k ≡ kind_of devices.now pools.now.keys (map (λ x. x.now) names.now) scope.now description) }
{
    match description {
        Description::FromDevice(name) => Ok(Kind::FromDevice(device_of(devices, name.bytes()))),
        Description::ToDevice(name) => Ok(Kind::ToDevice(device_of(devices, name.bytes()))),
        Description::Rewriter(written) => {
            let specs = specs_of(alloc, pools, names, scope, written.as_slice())?;
            Ok(Kind::IPRewriter(Specs::new(specs)))
        }
        Description::Mapper(written) => {
            let templates = templates_of(alloc, pools, written.as_slice())?;
            Ok(Kind::RoundRobinIPMapper(Templates::new(templates)))
        }
        Description::Settled(kind) => Ok(kind),
    }
}

/// The elements by their descriptions.
pub(crate) fn kinds_of(
    alloc: Global,
    devices: &[Text],
    pools: &IndexSet<Pool>,
    names: &[&[u8]],
    elements: &[Element],
    descriptions: Vec<Description>,
) -> Result<Vec<Kind>, AllocError>
    requires devices { length devices.now ≤ 1024 }
    requires pools { length pools.now.keys ≤ 536870912 }
    requires names { length names.now ≤ 512 }
    ensures { IfOk result (λ v. v.items ≡ kinds_of devices.now pools.now.keys (map (λ x. x.now) names.now) elements.now descriptions.items) }
{
    let mut kinds = Vec::new(alloc);
    let mut rest = elements;
    for description in descriptions {
        let [element, after @ ..] = rest else {
            break;
        };
        let scope = scope_of(element.name.bytes());
        kinds.push(kind_of(alloc, devices, pools, names, scope, description)?)?;
        rest = after;
    }
    Ok(kinds)
}
