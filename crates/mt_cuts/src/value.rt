//! The value of a header.
ghost use Rattle.std.specs.Prelude.{◌≡◌, ℕ, ◌<◌, ◌≤◌, slice_index, length};
ghost use Rattle.std.specs.List.Sorted.{IsStrictlyIncreasing};
ghost use Rattle.mt_packet.specs.Header.{field_of};
ghost use Rattle.mt_cuts.specs.Tree.{value_of};
ghost use Rattle.mt_cuts.specs.View.{tree_of, index_among};
ghost use Rattle.mt_cuts.specs.Canonical.{IsOrdered};

use crate::cut::Cut;
use mt_packet::Header;

impl Cut {
    /// The value that the tree gives a header, by a binary search for each field that is cut.
    pub fn value_at(&self, header: &Header) -> u32
        requires { IsOrdered (tree_of self.now) }
        ensures { result ≡ value_of (tree_of self.now) (λ field. field_of header.now field) }
    {
        let mut here = self;
        while let Cut::Cuts { field, ends, next } = here {
            let at = index_among(&ends[..next.len() - 1], header.get(*field));
            match next.get(at) {
                Some(part) => here = part,
                None => return 0,
            }
        }
        match here {
            Cut::Class(value) => *value,
            Cut::Cuts { .. } => 0,
        }
    }
}

/// The index of the first end that is not below a value; their number where all are below it.
fn index_among(ends: &[u64], value: u64) -> usize
    requires { IsStrictlyIncreasing ends.now }
    ensures { result ≡ index_among value ends.now }
{
    ends.partition_point(|end| *end < value)
}
