//! The end of a packet's way.
ghost use Rattle.std.specs.Prelude.{◌≡◌, ◌<◌, ◌+◌, ◌^◌, false, None, length};
ghost use Rattle.mt_terms.specs.Trees.{rewrite_form};
ghost use Rattle.mt_terms.specs.Writes.{write_forms};
ghost use Rattle.mt_trees.specs.Meaning.{CanRewrite, CanWriteAll, rewritten, written_all};

use mt_packet::{Flow, Header, Packet, Writes};
use mt_terms::{FieldWrite, Rewrite};

/// Writes the fields one after the other, each with the value of its term.
fn write_all(
    list: &[FieldWrite],
    header: &Header,
    passed: &[Flow],
    packet: &mut Packet,
    writes: &mut Writes,
)
    requires allowed { CanWriteAll header.now passed.now (write_forms list.now) packet.old }
    requires room { writes.old + length list.now < 2 ^ 63 }
    ensures written { packet.new ≡ written_all header.now passed.now (write_forms list.now) packet.old }
    ensures counted { writes.new ≡ writes.old + length list.now }
{
    let mut rest = list;
    while let [write, after @ ..] = rest {
        packet.write_field(write.field, write.term.value(header, passed), writes);
        rest = after;
    }
}

/// Rewrites a packet as its frame arrived, behind passages with these flows after them: a valid packet is checked where
/// the rewrite trims, which takes its padding off, and then each field is written with the value of its term, by
/// ascending field. The checksums of IPv4, TCP and UDP are mended (RFC 1624). Each write is counted.
pub fn apply(
    rewrite: &Rewrite,
    header: &Header,
    passed: &[Flow],
    packet: &mut Packet,
    writes: &mut Writes,
)
    requires untagged { rewrite.now.untag ≡ false }
    requires tagless { rewrite.now.tag ≡ None }
    requires allowed { CanRewrite header.now passed.now (rewrite_form rewrite.now) packet.old }
    requires room { writes.old + length rewrite.now.writes < 2 ^ 63 }
    ensures rewritten { packet.new ≡ rewritten header.now passed.now (rewrite_form rewrite.now) packet.old }
    ensures counted { writes.new ≡ writes.old + length rewrite.now.writes }
{
    if rewrite.trim {
        packet.check_ip();
    }
    write_all(rewrite.writes.list(), header, passed, packet, writes);
}
