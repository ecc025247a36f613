//! The writes of a rewrite.
ghost use Rattle.std.specs.Prelude.{◌≡◌, ◌<◌, [], List, length, slice_set, IfOk, OnOk, OnErr};
ghost use Rattle.std.specs.Cmp.Lexicographic.{pointwise, slice_cmp, slice_partial_cmp, lists_equiv, lists_agrees, lists_total, lists_ties, lists_per, lists_po};
ghost use Rattle.mt_terms.specs.contracts.writes.FieldWritePartialEq.TheImpl as written;
ghost use Rattle.mt_terms.specs.contracts.writes.FieldWritePartialEq.TheImpl.Laws as equal;
ghost use Rattle.mt_terms.specs.contracts.writes.FieldWriteEq.TheImpl.Laws as same;
ghost use Rattle.mt_terms.specs.contracts.writes.FieldWritePartialOrd.TheImpl as partly;
ghost use Rattle.mt_terms.specs.contracts.writes.FieldWritePartialOrd.TheImpl.Laws as ordered;
ghost use Rattle.mt_terms.specs.contracts.writes.FieldWriteOrd.TheImpl as wholly;
ghost use Rattle.mt_terms.specs.contracts.writes.FieldWriteOrd.TheImpl.Laws as order;
ghost use Rattle.mt_terms.specs.Terms.{term_form};
ghost use Rattle.mt_terms.specs.Writes.{AscendFrom, write_form, write_forms, with_write, place_among, stands_behind};

use crate::term::Term;
use mt_packet::Field;
use smallvec::SmallVec;
use std::alloc::{AllocError, Global};
use std::cmp::Ordering;
use std::fmt;
use std::marker::Model;

/// A field and the term of its new value.
#[derive(Debug, Drop, PartialEq, Eq, PartialOrd, Ord)]
pub struct FieldWrite {
    pub field: Field,
    pub term: Term,
}

/// What stands in the places of a `WriteList` that are not used.
impl Default for FieldWrite {
    fn default() -> FieldWrite {
        FieldWrite {
            field: Field::Device,
            term: Term::Const(0),
        }
    }
}

/// How many writes a list keeps without an allocation.
const FEW: usize = 4;

/// Writes by ascending field, at most one for each field. A contract sees the list of them.
#[derive(Drop)]
pub struct WriteList {
    writes: SmallVec<FieldWrite, FEW>,
}

impl Model for WriteList {
    ghost use Rattle.std.specs.Prelude.{List};
    ghost use Rattle.mt_terms.specs.declared.writes.FieldWrite.{FieldWrite};
    ghost use Rattle.mt_terms.specs.Writes.{AscendFrom};

    ghost Value = { List FieldWrite };

    ghost use Rattle.mt_terms.specs.contracts.term.Term as term;
    ghost use Rattle.std.specs.Coded.{codes};

    ghost coded = { Prim.hlevel (codes, term.the_row.coded) };

    ghost view = { λ w. w.writes.items };

    ghost invariant = { λ w. AscendFrom 0 w.writes.items };
}

impl fmt::Debug for WriteList {
    fn fmt<W: fmt::Write>(&self, f: &mut fmt::Formatter<W>) -> fmt::Result {
        f.debug_list().entries(self.list()).finish()
    }
}

impl PartialEq for WriteList {
    ghost eq = { λ v w. pointwise written.ghosts.eq v w };

    ghost laws = { lists_per equal.laws-law };

    fn eq(&self, other: &WriteList) -> bool {
        self.list() == other.list()
    }
}

impl Eq for WriteList {
    ghost laws = { lists_equiv same.laws-law };
}

impl PartialOrd for WriteList {
    ghost partial_cmp = { λ v w. slice_partial_cmp partly.ghosts.partial_cmp v w };

    ghost laws = { lists_po ordered.laws-law };

    fn partial_cmp(&self, other: &WriteList) -> Option<Ordering> {
        self.list().partial_cmp(&other.list())
    }
}

impl Ord for WriteList {
    ghost cmp = { λ v w. slice_cmp wholly.ghosts.cmp v w };

    ghost total = { lists_total order.total-law };

    ghost matches_partial_cmp = { λ v w. lists_agrees order.matches_partial_cmp-law v w };

    ghost matches_eq = { λ v w. lists_ties wholly.ghosts.cmp order.matches_eq-law v w };

    fn cmp(&self, other: &WriteList) -> Ordering {
        self.list().cmp(&other.list())
    }
}

impl WriteList {
    /// No writes.
    pub fn new(alloc: Global) -> WriteList
        ensures { result ≡ [] }
    {
        WriteList {
            writes: SmallVec::new(alloc),
        }
    }

    /// These writes, whose fields ascend.
    pub fn from_vec(writes: Vec<FieldWrite>) -> WriteList
        requires { AscendFrom 0 writes.items }
        ensures { result ≡ writes.items }
    {
        WriteList {
            writes: SmallVec::from_vec(writes),
        }
    }

    /// The writes.
    pub fn list(&self) -> &[FieldWrite]
        ensures list { result.now ≡ self.now }
        ensures ascending { AscendFrom 0 self.now }
    {
        self.writes.as_slice()
    }

    /// Writes a field with this term, in the place of what it was written with before.
    pub fn set(&mut self, field: Field, term: Term) -> Result<(), AllocError>
        ensures ok { OnOk result (write_forms self.new ≡ with_write (record { field = field; term = term_form term }) (write_forms self.old)) }
        ensures err { OnErr result (self.new ≡ self.old) }
    {
        let writes = self.writes.as_slice();
        let place = place_of(writes, field);
        if stands_at(writes, place, field) {
            put(&mut self.writes, place, FieldWrite { field, term });
            return Ok(());
        }
        self.writes.insert(place, FieldWrite { field, term })?;
        Ok(())
    }
}

/// How many writes are of earlier fields, from the front on.
fn place_of(writes: &[FieldWrite], field: Field) -> usize
    ensures { result ≡ place_among field writes.now }
{
    for (place, write) in writes.iter().enumerate() {
        if write.field.number() >= field.number() {
            return place;
        }
    }
    writes.len()
}

/// Whether the write at this place, behind those of earlier fields, is of the field.
fn stands_at(writes: &[FieldWrite], place: usize, field: Field) -> bool
    requires { place ≡ place_among field writes.now }
    ensures { result ≡ stands_behind field writes.now }
{
    place < writes.len() && writes[place].field.number() == field.number()
}

/// Another write in the place of one.
fn put(writes: &mut SmallVec<FieldWrite, FEW>, place: usize, write: FieldWrite)
    requires { place < length writes.old.items }
    ensures { writes.new.items ≡ slice_set writes.old.items place write }
{
    writes.as_mut_slice()[place] = write;
}
