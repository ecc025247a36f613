//! Classes.
ghost use Rattle.std.specs.Prelude.{◌≡◌};

use crate::tree::Tree;
use mt_boxes::Region;
use std::marker::Model;

/// The classes of a chain, by number: the headers of each, and what the chain does with their packets. A contract
/// sees the list of them.
#[derive(Drop)]
pub struct Classes {
    list: Vec<(Region, Tree)>,
}

impl Model for Classes {
    ghost use Rattle.std.specs.Prelude.{List};
    ghost use Rattle.mt_boxes.specs.declared.region.Region.{Region};
    ghost use Rattle.mt_terms.specs.declared.tree.Tree.{Tree};

    ghost Value = { List (Region × Tree) };

    ghost use Rattle.mt_terms.specs.contracts.tree.Tree as tree;
    ghost use Rattle.std.specs.Coded.{codes};

    ghost coded = { Prim.hlevel (codes, tree.the_row.coded) };

    ghost view = { λ c. c.list.items };
}

impl Classes {
    /// These classes.
    pub fn new(list: Vec<(Region, Tree)>) -> Classes
        ensures { result ≡ list.items }
    {
        Classes { list }
    }

    /// The classes.
    pub fn list(&self) -> &[(Region, Tree)]
        ensures { result.now ≡ self.now }
    {
        self.list.as_slice()
    }
}
