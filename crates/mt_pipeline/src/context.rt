//! What serving needs of a chain.
ghost use Rattle.std.specs.Prelude.{◌≡◌, ◌<◌, ◌≤◌, Some, IfOk, length, map, slice_get};
ghost use Rattle.mt_packet.specs.Header.{field_of};
ghost use Rattle.mt_packet.specs.declared.field.Field.TheVariants as of;
ghost use Rattle.mt_elements.specs.ChainState.{ChainState};
ghost use Rattle.mt_terms.specs.Trees.{tree_form};
ghost use Rattle.mt_trees.specs.Elements.{tree_of};
ghost use Rattle.mt_synth.specs.Classes.{AreClasses, class_form};
ghost use Rattle.mt_pipeline.specs.Contexts.{IsContextOf};

use mt_boxes::Region;
use mt_classes::Index;
use mt_elements::{Chain, Rewriters};
use mt_ledger::Policy;
use mt_packet::Header;
use mt_synth::laws::classes_are_a_partition;
use mt_terms::{Classes, Tree};
use std::alloc::{AllocError, Global};

/// What serving needs of a chain: its rewriters, its classes and their index, all made of that one chain, and the policy
/// by which ports are picked. It has no wires.
#[derive(Drop)]
pub struct Context {
    pub rewriters: Rewriters,
    pub classes: Classes,
    pub index: Index,
    pub policy: Policy,
}

/// What a passage needs: the rewriters, the policy, and the pools that no other share has ports of.
#[derive(Clone, Copy)]
pub(crate) struct Given<'a> {
    pub rewriters: &'a Rewriters,
    pub policy: &'a Policy,
    pub gone: &'a [u32],
}

/// The class of this number.
fn class_at(list: &[(Region, Tree)], class: u32) -> &(Region, Tree)
    requires { class < length list.now }
    ensures { slice_get list.now class ≡ Some result.now }
{
    &list[class as usize]
}

impl Context {
    /// What serving needs of a chain, by this policy, with its classes.
    pub fn of(
        alloc: Global,
        chain: Chain,
        classes: Classes,
        policy: Policy,
    ) -> Result<Context, AllocError>
        requires classes { AreClasses chain.entries (tree_of chain) (map class_form classes) }
        requires few { length classes < 65536 }
        ensures made { IfOk result (λ context. IsContextOf chain context.rewriters context.classes context.index) }
        ensures policy { IfOk result (λ context. context.policy ≡ policy) }
    {
        chain.is_accepted();
        chain.devices();
        classes_are_a_partition();
        let index = Index::build(alloc, &classes)?;
        Ok(Context {
            rewriters: chain.into_rewriters(),
            classes,
            index,
            policy,
        })
    }

    /// The tree of a header on a device on which frames arrive. It asks for no memory.
    pub fn tree_of(&self, header: &Header) -> &Tree
        requires { (chain : ChainState) × IsContextOf chain self.now.rewriters self.now.classes self.now.index × (0 < field_of header.now of.Device) × (field_of header.now of.Device ≤ chain.entries) }
        ensures { (chain : ChainState) → IsContextOf chain self.now.rewriters self.now.classes self.now.index → 0 < field_of header.now of.Device → field_of header.now of.Device ≤ chain.entries
            → tree_of chain header.now ≡ Some (tree_form result.now) }
    {
        header.values();
        let class = self.index.class_of(header);
        &class_at(self.classes.list(), class).1
    }
}
