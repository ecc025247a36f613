//! One of two trees, by the values of a third.
ghost use Rattle.std.specs.Prelude.{◌≡◌, ◌==◌, ℕ, true, IfOk, if◌then◌else◌, min};
ghost use Rattle.mt_packet.specs.declared.field.Field.{Field};
ghost use Rattle.mt_cuts.specs.Tree.{value_of};
ghost use Rattle.mt_cuts.specs.View.{tree_of};
ghost use Rattle.mt_cuts.specs.Canonical.{IsCanonical, IsRest, finishes};
ghost use Rattle.mt_cuts.specs.Walk.{IsPlace, first_end};

use crate::copies::copied;
use crate::cursor::{Cursor, before, earlier};
use crate::cut::Cut;
use crate::domain::last_of;
use crate::left::Left;
use crate::parts::Parts;
use std::alloc::{AllocError, Global};

/// The tree that is `yes` where the condition is 1, and `no` elsewhere. The parts of `no` where the condition
/// does not hold are moved, so that it costs what it changes.
pub fn select(
    alloc: Global,
    devices: u32,
    condition: &Cut,
    yes: &Cut,
    no: Cut,
) -> Result<Cut, AllocError>
    requires condition { IsCanonical devices (tree_of condition.now) }
    requires first { IsCanonical devices (tree_of yes.now) }
    requires second { IsCanonical devices (tree_of no) }
    requires finished { finishes devices no ≡ true }
    ensures canonical { IfOk result (λ tree. IsCanonical devices (tree_of tree)) }
    ensures value { IfOk result (λ tree. (header : Field → ℕ) → value_of (tree_of tree) header
        ≡ (if value_of (tree_of condition.now) header == 1 then value_of (tree_of yes.now) header else value_of (tree_of no) header)) }
    ensures finishes { IfOk result (λ tree. finishes devices tree ≡ true) }
{
    select_behind(alloc, devices, 0, condition, yes, no)
}

/// The least of the ends of the first parts, but for those of a tree that gives no value there.
fn seen_end(x: &Cursor<'_>, y: &Cursor<'_>, z: &Left, last: u64, fails: bool, holds: bool) -> u64
    requires x { IsPlace x.now.ends.now x.now.parts.now }
    requires y { IsPlace y.now.ends.now y.now.parts.now }
    requires z { IsPlace z.now.ends.items z.now.parts.items }
    ensures { result ≡ min (first_end last x.now.ends.now x.now.parts.now)
        (min (if fails then last else first_end last y.now.ends.now y.now.parts.now)
        (if holds then last else first_end last z.now.ends.items z.now.parts.items)) }
{
    let second = if fails { last } else { y.end(last) };
    let third = if holds { last } else { z.end(last) };
    x.end(last).min(second.min(third))
}

/// The same for trees that cut none of the first fields. It walks the parts of the field that one of them
/// cuts first side by side, but for those parts of `yes` and `no` whose values are not chosen.
fn select_behind(
    alloc: Global,
    devices: u32,
    settled: usize,
    condition: &Cut,
    yes: &Cut,
    no: Cut,
) -> Result<Cut, AllocError>
    requires condition { IsRest devices settled 0 (tree_of condition.now) }
    requires first { IsRest devices settled 0 (tree_of yes.now) }
    requires second { IsRest devices settled 0 (tree_of no) }
    requires finished { finishes devices no ≡ true }
    ensures canonical { IfOk result (λ tree. IsRest devices settled 0 (tree_of tree)) }
    ensures value { IfOk result (λ tree. (header : Field → ℕ) → value_of (tree_of tree) header
        ≡ (if value_of (tree_of condition.now) header == 1 then value_of (tree_of yes.now) header else value_of (tree_of no) header)) }
    ensures finishes { IfOk result (λ tree. finishes devices tree ≡ true) }
{
    let Some(own) = condition.top() else {
        if condition.class() == 1 {
            return copied(alloc, devices, settled, yes);
        }
        return Ok(no);
    };
    let field = before(own, earlier(yes.top(), no.top()));
    let last = last_of(devices, field);
    let behind = field.number() + 1;
    let mut x = condition.parts_at(field);
    let mut y = yes.parts_at(field);
    let mut z = Left::of(alloc, no, field)?;
    let test = x.first();
    let holds = test.holds();
    let mut end = seen_end(&x, &y, &z, last, test.fails(), holds);
    let taken = z.take(alloc, devices, behind, end, last, holds)?;
    let mut here = select_behind(alloc, devices, behind, test, y.first(), taken)?;
    let mut parts = Parts {
        ends: Vec::new(alloc),
        next: Vec::new(alloc),
    };
    while end < last {
        x = x.behind(end);
        y = y.past(end);
        let test = x.first();
        let holds = test.holds();
        let least = seen_end(&x, &y, &z, last, test.fails(), holds);
        let taken = z.take(alloc, devices, behind, least, last, holds)?;
        let part = select_behind(alloc, devices, behind, test, y.first(), taken)?;
        here = parts.join(here, end, part)?;
        end = least;
    }
    parts.finish(field, last, here)
}
