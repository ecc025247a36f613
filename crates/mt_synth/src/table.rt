//! Trees by number.
ghost use Rattle.std.specs.Prelude.{◌≡◌, [], IfOk, Some};
ghost use Rattle.mt_terms.specs.Trees.{tree_form};
ghost use Rattle.mt_synth.specs.Cuts.{AreApart, Grows, tree_numbered};

use mt_terms::Tree;
use std::alloc::{AllocError, Global};
use std::collections::BTreeMap;
use std::marker::Model;

/// Trees, no two of them equal, numbered from 0 as they were met. A contract sees the list of them.
#[derive(Drop)]
pub(crate) struct Trees {
    list: Vec<Tree>,
    numbers: BTreeMap<Tree, u32>,
}

impl Model for Trees {
    ghost use Rattle.std.specs.Prelude.{List};
    ghost use Rattle.mt_terms.specs.declared.tree.Tree.{Tree};
    ghost use Rattle.mt_synth.specs.Table.{IsTable};
    ghost use Rattle.mt_terms.specs.contracts.tree.Tree as tree;
    ghost use Rattle.std.specs.Coded.{codes};

    ghost Value = { List Tree };

    ghost coded = { Prim.hlevel (codes, tree.the_row.coded) };

    ghost view = { λ t. t.list.items };

    ghost invariant = { λ t. IsTable t.list.items t.numbers };
}

impl Trees {
    /// No tree.
    pub fn new(alloc: Global) -> Trees
        ensures { result ≡ [] }
    {
        Trees {
            list: Vec::new(alloc),
            numbers: BTreeMap::new(alloc),
        }
    }

    /// The trees, by number.
    pub fn as_slice(&self) -> &[Tree]
        ensures trees { result.now ≡ self.now }
        ensures apart { AreApart self.now }
    {
        &self.list
    }

    /// The number of a tree, a new one where it was not met before. A table of 2^32 trees would take more than 200
    /// GiB and is answered as want of memory.
    pub fn number(&mut self, alloc: Global, tree: Tree) -> Result<u32, AllocError>
        ensures number { IfOk result (λ n. tree_numbered self.new n ≡ Some (tree_form tree)) }
        ensures grows { Grows self.old self.new }
    {
        if let Some(number) = self.numbers.get(&tree) {
            return Ok(*number);
        }
        if self.list.len() >= u32::MAX as usize {
            return Err(AllocError);
        }
        let number = self.list.len() as u32;
        let key = tree.copy(alloc)?;
        self.list.try_reserve(1)?;
        self.numbers.insert(key, number)?;
        self.list.push_reserved(tree);
        Ok(number)
    }
}
