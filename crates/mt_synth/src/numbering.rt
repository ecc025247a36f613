//! Numbers of classes: values are numbered from 0 in the order in which leaves first show them.
ghost use Rattle.std.specs.Prelude.{◌≡◌, ◌<◌, ◌++◌, [], ◌∷◌, ℕ, List, IfOk, IfErr, OnOk, Some, length, map, slice_get};
ghost use Rattle.mt_synth.specs.Numbering.{IsNumbering, AreTooMany};
ghost use Rattle.mt_cuts.specs.declared.leaves.Leaf.{Leaf};

use crate::fault::SynthFault;
use mt_cuts::Leaf;
use std::alloc::Global;

/// How many classes can be numbered.
const MOST_CLASSES: usize = 65_535;

/// The numbers of values.
#[derive(Drop)]
pub(crate) struct Numbering {
    /// By value its number, where it has one.
    pub numbers: Vec<Option<u32>>,
    /// The values by number.
    pub order: Vec<u32>,
}

/// Gives a value the next number, where it has none.
fn number_value(
    numbers: &mut Vec<Option<u32>>,
    order: &mut Vec<u32>,
    value: u32,
) -> Result<(), SynthFault>
    requires there { value < length numbers.old.items }
    requires few { length order.old.items < 65536 }
    ensures numbering { OnOk result ((values : List ℕ) → IsNumbering values numbers.old.items order.old.items
        → IsNumbering (values ++ value ∷ []) numbers.new.items order.new.items) }
    ensures few { OnOk result (length order.new.items < 65536) }
    ensures as_many { length numbers.new.items ≡ length numbers.old.items }
    ensures many { IfErr result (λ fault. (values : List ℕ) → IsNumbering values numbers.old.items order.old.items
        → AreTooMany (values ++ value ∷ []) fault) }
{
    if numbers[value as usize].is_some() {
        return Ok(());
    }
    if order.len() == MOST_CLASSES {
        return Err(SynthFault::TooManyClasses(65_536));
    }
    numbers[value as usize] = Some(order.len() as u32);
    order.push(value)?;
    Ok(())
}

/// The numbers of the values of leaves, which are below a bound.
pub(crate) fn number_leaves(
    alloc: Global,
    leaves: &[Leaf],
    bound: usize,
) -> Result<Numbering, SynthFault>
    requires below { (at : ℕ) (leaf : Leaf) → slice_get leaves.now at ≡ Some leaf → leaf.value < bound }
    ensures numbering { IfOk result (λ made. IsNumbering (map (λ leaf. leaf.value) leaves.now) made.numbers.items made.order.items) }
    ensures few { IfOk result (λ made. length made.order.items < 65536) }
    ensures many { IfErr result (λ fault. AreTooMany (map (λ leaf. leaf.value) leaves.now) fault) }
{
    let mut numbers = vec![in alloc; None; bound]?;
    let mut order = Vec::new(alloc);
    let mut rest = leaves;
    while let [leaf, after @ ..] = rest {
        match number_value(&mut numbers, &mut order, leaf.value) {
            Ok(()) => {}
            Err(fault) => return Err(fault),
        }
        rest = after;
    }
    Ok(Numbering { numbers, order })
}
