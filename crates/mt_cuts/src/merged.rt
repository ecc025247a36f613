//! Merges of trees.
ghost use Rattle.std.specs.Prelude.{◌≡◌, ℕ, true, IfOk, OnOk, min};
ghost use Rattle.mt_packet.specs.Header.{number_of};
ghost use Rattle.mt_packet.specs.declared.field.Field.{Field};
ghost use Rattle.mt_cuts.specs.Tree.{value_of};
ghost use Rattle.mt_cuts.specs.View.{tree_of};
ghost use Rattle.mt_cuts.specs.Canonical.{IsRest, IsCanonical, finishes};
ghost use Rattle.mt_cuts.specs.Walk.{IsPlace, first_end};

use crate::choice::{Choice, Combine, OfTwo};
use crate::chooser::{ByFunction, Chooser};
use crate::cursor::{Cursor, earlier};
use crate::cut::Cut;
use crate::domain::last_of;
use crate::parts::Parts;
use std::alloc::{AllocError, Global};

/// The least of the ends of the first parts.
fn least_end(x: &Cursor<'_>, y: &Cursor<'_>, z: &Cursor<'_>, last: u64) -> u64
    requires x { IsPlace x.now.ends.now x.now.parts.now }
    requires y { IsPlace y.now.ends.now y.now.parts.now }
    requires z { IsPlace z.now.ends.now z.now.parts.now }
    ensures { result ≡ min (first_end last x.now.ends.now x.now.parts.now)
        (min (first_end last y.now.ends.now y.now.parts.now) (first_end last z.now.ends.now z.now.parts.now)) }
{
    x.end(last).min(y.end(last).min(z.end(last)))
}

/// The merge of three trees that cut none of the first fields. It walks the parts of the field that one of
/// them cuts first side by side, so it costs what it makes.
pub(crate) fn merge_behind<F: Chooser>(
    alloc: Global,
    devices: u32,
    settled: usize,
    a: &Cut,
    b: &Cut,
    c: &Cut,
    choice: &mut F,
) -> Result<Cut, AllocError>
    requires first { IsRest devices settled 0 (tree_of a.now) }
    requires second { IsRest devices settled 0 (tree_of b.now) }
    requires third { IsRest devices settled 0 (tree_of c.now) }
    ensures canonical { IfOk result (λ tree. IsRest devices settled 0 (tree_of tree)) }
    ensures value { IfOk result (λ tree. (header : Field → ℕ) → F.chooses choice.new
        (value_of (tree_of a.now) header) (value_of (tree_of b.now) header) (value_of (tree_of c.now) header) (value_of (tree_of tree) header)) }
    ensures keeps { OnOk result ((x y z value : ℕ) → F.chooses choice.old x y z value → F.chooses choice.new x y z value) }
    ensures finishes { IfOk result (λ tree. finishes devices tree ≡ true) }
{
    let Some(field) = earlier(a.top(), earlier(b.top(), c.top())) else {
        let value = choice.choose(a.class(), b.class(), c.class())?;
        return Ok(Cut::Class(value));
    };
    let last = last_of(devices, field);
    let mut x = a.parts_at(field);
    let mut y = b.parts_at(field);
    let mut z = c.parts_at(field);
    let mut end = least_end(&x, &y, &z, last);
    let behind = field.number() + 1;
    let mut here = merge_behind(
        alloc,
        devices,
        behind,
        x.first(),
        y.first(),
        z.first(),
        choice,
    )?;
    let mut parts = Parts {
        ends: Vec::new(alloc),
        next: Vec::new(alloc),
    };
    while end < last {
        x = x.behind(end);
        y = y.behind(end);
        z = z.behind(end);
        let part = merge_behind(
            alloc,
            devices,
            behind,
            x.first(),
            y.first(),
            z.first(),
            choice,
        )?;
        here = parts.join(here, end, part)?;
        end = least_end(&x, &y, &z, last);
    }
    parts.finish(field, last, here)
}

/// The tree that gives each header what a choice makes of the values of three trees.
pub fn merge_three<F: Choice>(
    alloc: Global,
    devices: u32,
    a: &Cut,
    b: &Cut,
    c: &Cut,
    choice: &F,
) -> Result<Cut, AllocError>
    requires first { IsCanonical devices (tree_of a.now) }
    requires second { IsCanonical devices (tree_of b.now) }
    requires third { IsCanonical devices (tree_of c.now) }
    ensures canonical { IfOk result (λ tree. IsCanonical devices (tree_of tree)) }
    ensures value { IfOk result (λ tree. (header : Field → ℕ) → value_of (tree_of tree) header
        ≡ F.choice choice.now (value_of (tree_of a.now) header) (value_of (tree_of b.now) header) (value_of (tree_of c.now) header)) }
    ensures finishes { IfOk result (λ tree. finishes devices tree ≡ true) }
{
    let mut by_function = ByFunction { function: choice };
    merge_behind(alloc, devices, 0, a, b, c, &mut by_function)
}

/// The tree that gives each header what a function makes of the values of two trees.
pub fn merge<F: Combine>(
    alloc: Global,
    devices: u32,
    a: &Cut,
    b: &Cut,
    function: &F,
) -> Result<Cut, AllocError>
    requires first { IsCanonical devices (tree_of a.now) }
    requires second { IsCanonical devices (tree_of b.now) }
    ensures canonical { IfOk result (λ tree. IsCanonical devices (tree_of tree)) }
    ensures value { IfOk result (λ tree. (header : Field → ℕ) → value_of (tree_of tree) header
        ≡ F.combined function.now (value_of (tree_of a.now) header) (value_of (tree_of b.now) header)) }
    ensures finishes { IfOk result (λ tree. finishes devices tree ≡ true) }
{
    let none = Cut::leaf(0);
    merge_three(alloc, devices, a, b, &none, &OfTwo { function })
}
