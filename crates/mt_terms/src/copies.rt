//! Copies of trees.
ghost use Rattle.std.specs.Prelude.{◌≡◌, IfOk, map};
ghost use Rattle.mt_terms.specs.Trees.{branch_form, op_form, rewrite_form, tree_form};
ghost use Rattle.mt_terms.specs.Writes.{write_form, write_forms};

use crate::tree::{OpCode, Rewrite, Tree};
use crate::writes::{FieldWrite, WriteList};
use std::alloc::{AllocError, Global};

impl FieldWrite {
    /// A copy.
    pub fn copy(&self, alloc: Global) -> Result<FieldWrite, AllocError>
        ensures { IfOk result (λ copy. write_form copy ≡ write_form self.now) }
    {
        Ok(FieldWrite {
            field: self.field,
            term: self.term.copy(alloc)?,
        })
    }
}

impl WriteList {
    /// A copy.
    pub fn copy(&self, alloc: Global) -> Result<WriteList, AllocError>
        ensures { IfOk result (λ copy. write_forms copy ≡ write_forms self.now) }
    {
        let mut writes = Vec::with_capacity(alloc, self.list().len())?;
        for write in self.list() {
            writes.push(write.copy(alloc)?)?;
        }
        Ok(WriteList::from_vec(writes))
    }
}

impl Rewrite {
    /// A copy.
    pub fn copy(&self, alloc: Global) -> Result<Rewrite, AllocError>
        ensures { IfOk result (λ copy. rewrite_form copy ≡ rewrite_form self.now) }
    {
        Ok(Rewrite {
            trim: self.trim,
            untag: self.untag,
            tag: self.tag,
            writes: self.writes.copy(alloc)?,
        })
    }
}

impl OpCode {
    /// A copy.
    pub fn copy(&self, alloc: Global) -> Result<OpCode, AllocError>
        ensures { IfOk result (λ copy. op_form copy ≡ op_form self.now) }
    {
        Ok(OpCode {
            element: self.element,
            input: self.input,
            sa: self.sa.copy(alloc)?,
            sp: self.sp.copy(alloc)?,
            da: self.da.copy(alloc)?,
            dp: self.dp.copy(alloc)?,
        })
    }
}

impl Tree {
    /// A copy.
    #[cycle(copies)]
    pub fn copy(&self, alloc: Global) -> Result<Tree, AllocError>
        ensures { IfOk result (λ copy. tree_form copy ≡ tree_form self.now) }
    {
        match self {
            Tree::Leaf(rewrite, device) => Ok(Tree::Leaf(rewrite.copy(alloc)?, *device)),
            Tree::Drop(cause) => Ok(Tree::Drop(*cause)),
            Tree::Test(term, span, inside, outside) => Ok(Tree::Test(
                term.copy(alloc)?,
                *span,
                Box::new(alloc, inside.copy(alloc)?)?,
                Box::new(alloc, outside.copy(alloc)?)?,
            )),
            Tree::Op(code, branches) => {
                Ok(Tree::Op(code.copy(alloc)?, copy_branches(alloc, branches)?))
            }
        }
    }
}

/// Copies of branches.
#[cycle(copies)]
fn copy_branches(alloc: Global, branches: &[(u32, Tree)]) -> Result<Vec<(u32, Tree)>, AllocError>
    ensures { IfOk result (λ copies. map branch_form copies.items ≡ map branch_form branches.now) }
{
    let mut copies = Vec::with_capacity(alloc, branches.len())?;
    for (output, tree) in branches {
        copies.push((*output, tree.copy(alloc)?))?;
    }
    Ok(copies)
}
