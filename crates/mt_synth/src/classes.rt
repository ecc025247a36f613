//! The classes of a chain.
ghost use Rattle.std.specs.Prelude.{◌<◌, length, map, IfOk, IfErr};
ghost use Rattle.mt_trees.specs.Elements.{tree_of};
ghost use Rattle.mt_synth.specs.Classes.{AreClasses, IsFaultOf, class_form};

use crate::collecting::classes_of;
use crate::fault::SynthFault;
use crate::table::Trees;
use crate::walk::walked;
use mt_elements::Chain;
use mt_terms::Classes;
use mt_trees::laws::headers_have_trees;
use std::alloc::Global;

/// The classes of a chain: the headers on its devices that have one tree, numbered from 0 by their least headers, each
/// with its region, which is its boxes in the canonical boxes of the function from a header to its class, and its
/// tree. Errors: `TooManyClasses(65536)` where headers of the chain have 65,536 trees or more, and `NoMemory`.
pub fn synthesise(alloc: Global, chain: &Chain) -> Result<Classes, SynthFault>
    ensures classes { IfOk result (λ classes. AreClasses chain.now.entries (tree_of chain.now) (map class_form classes)) }
    ensures few { IfOk result (λ classes. length classes < 65536) }
    ensures many { IfErr result (IsFaultOf chain.now.entries (tree_of chain.now)) }
{
    headers_have_trees();
    chain.is_accepted();
    let _few = chain.devices();
    let mut trees = Trees::new(alloc);
    let cut = walked(alloc, chain, &mut trees)?;
    classes_of(alloc, chain.entries(), &cut, trees.as_slice())
}
