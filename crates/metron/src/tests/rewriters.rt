//! Packets of chains with rewriters, run element by element with given picks. Frames, checksums and fates were worked
//! out beside the program (RFC 791, 768, 9293, 1624).
ghost use Rattle.mt_rewriter.specs.Kept.{AreTables};

use mt_chain::laws::devices_have_entries;
use mt_chain::{Fate, Ran, RunFault, Tables, run_one};
use mt_click::parse;
use mt_elements::{Chain, check};
use mt_packet::{Cause, Frame, Packet, Stamped};
use mt_text::hexadecimal_of_length;
use std::alloc::{AllocError, Global};
use std::process::Abort;
use std::test::Fail;

// Each line of a run has the device on which a frame arrives, the frame, the device on which it is sent, what is sent,
// and how many picks its run takes; for a frame that is not sent a dash and the cause, or the place of a wrong pick.
// Three packets of a flow, with no checksum, with one that becomes 0, and with the right one.
const CHECKSUMS_CHAIN: &str = "rw :: IPRewriter(pattern 203.0.113.1 1024-1025 - - 0 1, drop);
elementclass In {
  input -> c :: Classifier(12/0800, -);
  c[0] -> Strip(14) -> CheckIPHeader -> output;
  c[1] -> Discard;
}
FromDevice(lan) -> In -> [0] rw;
FromDevice(wan) -> In -> [1] rw;
rw[0] -> EtherEncap(0x0800, 02:00:00:00:00:0a, 02:00:00:00:00:0b) -> ToDevice(wan);
rw[1] -> EtherEncap(0x0800, 02:00:00:00:00:0c, 02:00:00:00:00:0d) -> ToDevice(lan);";

const CHECKSUMS: &str =
    "1 020000000002020000000001080045000020000100004011468b0a000005c633640913880035000c000061626364 2 02000000000b02000000000a080045000020000100004011148ecb007101c633640904000035000c000061626364 1
1 020000000002020000000001080045000020000100004011468b0a000005c633640913880035000c227561626364 2 02000000000b02000000000a080045000020000100004011148ecb007101c633640904000035000cffff61626364 0
1 020000000002020000000001080045000020000100004011468b0a000005c633640913880035000cf31061626364 2 02000000000b02000000000a080045000020000100004011148ecb007101c633640904000035000cd09b61626364 0";

// A packet passes two rewriters.
const TWO_PICKS_CHAIN: &str = "FromDevice(a) -> Strip(14) -> CheckIPHeader
  -> StoreIPAddress(198.51.100.10, dst)
  -> IPRewriter(pattern 203.0.113.1 1024-1025 - - 0 0)
  -> IPRewriter(pattern 192.0.2.7 2000-2001 - - 0 0)
  -> EtherEncap(0x0800, 02:00:00:00:00:0a, 02:00:00:00:00:0b) -> ToDevice(b);";

const TWO_PICKS: &str =
    "1 020000000002020000000001080045000028000200004006468d0a000005c63364091388005000000001000000005002200012340000 2 02000000000b02000000000a0800450000280002000040068e89c0000207c633640a07d0005000000001000000005002200065e80000 2";

// A filter behind a rewriter looks at the new port.
const FILTERED_CHAIN: &str = "rw :: IPRewriter(pattern 203.0.113.1 1024-1025 - - 0 1, drop);
elementclass In {
  input -> c :: Classifier(12/0800, -);
  c[0] -> Strip(14) -> CheckIPHeader -> output;
  c[1] -> Discard;
}
FromDevice(lan) -> In -> [0] rw;
FromDevice(wan) -> In -> [1] rw;
rw[0] -> IPFilter(deny src port 1025, allow all) -> EtherEncap(0x0800, 02:00:00:00:00:0a, 02:00:00:00:00:0b) -> ToDevice(wan);
rw[1] -> EtherEncap(0x0800, 02:00:00:00:00:0c, 02:00:00:00:00:0d) -> ToDevice(lan);";

const FILTERED: &str =
    "1 020000000002020000000001080045000020000100004011468b0a000005c633640913880035000cf31061626364 2 02000000000b02000000000a080045000020000100004011148ecb007101c633640904000035000cd09b61626364 1
1 020000000002020000000001080045000020000100004011468b0a000005c633640913890035000cf30f61626364 - Filtered 1
1 020000000002020000000001080045000020000100004011468b0a000005c633640913890035000cf30f61626364 - Filtered 0";

// A mapper gives its patterns in turn.
const TURNS_CHAIN: &str =
    "m :: RoundRobinIPMapper(- - 192.0.2.1 80 0 1, - - 192.0.2.2 80 0 1, - - 192.0.2.3 80 0 1);
rw :: IPRewriter(m, drop);
elementclass In {
  input -> c :: Classifier(12/0800, -);
  c[0] -> Strip(14) -> CheckIPHeader -> output;
  c[1] -> Discard;
}
FromDevice(lan) -> In -> [0] rw;
FromDevice(wan) -> In -> [1] rw;
rw[0] -> EtherEncap(0x0800, 02:00:00:00:00:0a, 02:00:00:00:00:0b) -> ToDevice(wan);
rw[1] -> EtherEncap(0x0800, 02:00:00:00:00:0c, 02:00:00:00:00:0d) -> ToDevice(lan);";

const TURNS: &str =
    "1 020000000002020000000001080045000028000200004006468e0a000004c63364091388005000000001000000005002200012340000 2 02000000000b02000000000a080045000028000200004006aec90a000004c0000201138800500000000100000000500220007a6f0000 0
1 020000000002020000000001080045000028000200004006468c0a000006c63364091388005000000001000000005002200012340000 2 02000000000b02000000000a080045000028000200004006aec60a000006c0000202138800500000000100000000500220007a6e0000 0
1 020000000002020000000001080045000028000200004006468d0a000005c63364091388005000000001000000005002200012340000 2 02000000000b02000000000a080045000028000200004006aec60a000005c0000203138800500000000100000000500220007a6d0000 0
1 020000000002020000000001080045000028000200004006468b0a000007c63364091388005000000001000000005002200012340000 2 02000000000b02000000000a080045000028000200004006aec60a000007c0000201138800500000000100000000500220007a6f0000 0";

// The port of a clash stays free, and a mapping that keeps its flow holds none.
const FREE_AGAIN_CHAIN: &str = "rw :: IPRewriter(pattern 203.0.113.1 1024-1024 - - 0 1, keep 0 1);
FromDevice(l) -> Strip(14) -> CheckIPHeader -> [0] rw;
FromDevice(k) -> Strip(14) -> CheckIPHeader -> [1] rw;
rw[0] -> EtherEncap(0x0800, 02:00:00:00:00:0a, 02:00:00:00:00:0b) -> ToDevice(w); rw[1] -> Discard;";

const FREE_AGAIN: &str =
    "2 020000000002020000000001080045000020000100004011148ecb007101c633640904000035000cd09b61626364 3 02000000000b02000000000a080045000020000100004011148ecb007101c633640904000035000cd09b61626364 0
1 020000000002020000000001080045000020000100004011468b0a000005c633640913880035000cf31061626364 - Clash 1
1 020000000002020000000001080045000020000100004011468b0a000005c633640913880036000cf30f61626364 3 02000000000b02000000000a080045000020000100004011148ecb007101c633640904000036000cd09a61626364 1";

// A router with a filter, a route table and a translation, and replies.
const BOTH_WAYS_CHAIN: &str = "elementclass In {
  input -> c :: Classifier(12/0806, 12/0800, -);
  c[0] -> Discard;
  c[1] -> Strip(14) -> CheckIPHeader -> output;
  c[2] -> Discard;
}
elementclass Edge { $mac, $peer |
  input -> EtherEncap(0x0800, $mac, $peer) -> Queue(200) -> output;
}
rw :: IPRewriter(pattern 203.0.113.1 1024-65535 - - 0 1, drop);
lan :: FromDevice(lan0, PROMISC true);
wan :: FromDevice(wan0, PROMISC true);
lan -> In
  -> IPFilter(deny dst port 22, deny dst net 192.168.0.0/16, allow all)
  -> DecIPTTL -> [0] rw;
wan -> In -> DecIPTTL -> [1] rw;
rw[0] -> LookupIPRoute(0.0.0.0/0 203.0.113.254 0)
  -> Edge(02:00:00:00:00:0a, 02:00:00:00:00:0b) -> ToDevice(wan0);
rw[1] -> Edge(02:00:00:00:00:0c, 02:00:00:00:00:0d) -> ToDevice(lan0);";

const BOTH_WAYS: &str =
    "1 020000000002020000000001080045000028000200004006468d0a000005c633640913880016000000010000000050022000126e0000 - Filtered 0
1 ffffffffffff020000000001080600010800060400010200000000010a0000050000000000000a000001 - Discarded 0
1 020000000002020000000001080045000020000100004011468b0a000005c633640913880035000cf31061626364 2 02000000000b02000000000a080045000020000100003f11158ecb007101c633640904000035000cd09b61626364 1
2 020000000002020000000001080045000020000100004011148ec6336409cb00710100350400000cd09b61626364 1 02000000000d02000000000c080045000020000100003f11478bc63364090a00000500351388000cf31061626364 0
2 020000000002020000000001080045000020000100004011148ec6336409cb007101003507d0000ccccb61626364 - Unmapped 0";

// A pool of two ports that are both held.
const EXHAUSTED_POOL_CHAIN: &str = "elementclass In {
  input -> c :: Classifier(12/0800, -);
  c[0] -> Strip(14) -> CheckIPHeader -> output;
  c[1] -> Discard; // not IPv4
}
FromDevice(lan) -> In -> LookupIPRoute(198.51.100.8/1 0, 10.0.0.7/24 10.0.1.5 0) -> IPFilter(allow -) -> [0] rw;
rw :: IPRewriter(m0, pass 1, pattern 203.0.113.1 0-1 - - 0 1);
rw[1] -> LookupIPRoute(192.0.2.1/24 0, 10.0.1.5/24 203.0.113.1 0) -> EtherEncap(0x0800, 02:00:00:00:00:0c, 02:00:00:00:00:0d) -> ToDevice(x);
rw[0] -> EtherEncap(0x0800, 02:00:00:00:00:0a, 02:00:00:00:00:0b) -> ToDevice(wan);
FromDevice(wan) -> In -> [1] rw;
FromDevice(dmz) -> In -> [2] rw;
m0 :: RoundRobinIPMapper(203.0.113.1 0-1 - - 0 1);";

const EXHAUSTED_POOL: &str = "2 00000000000002000000000908004500001d000100004011468d0a - BadIp 0
1 000000000000020000000001080045000020ffff000040118e8ac6336408c000020700160403000cffff61626364 2 02000000000b02000000000a080045000020ffff000040117cc4cb007101c000020700000403000cee4f61626364 1
1 02000000000b02000000000a080045000020ffff000040117cc4c0000207cb00710104030000000cee4f61626364 2 02000000000b02000000000a080045000020ffff0000401102cacb007101cb00710100010000000c785761626364 1
1 020000000002020000000009080045000020ffff1fff4011d6cac0000202c000020100500410000c000061626364 - Unported 0
3 020000000002020000000001080600010800060400 - Discarded 0
1 ffffffffffff020000000001080045030028000100004006468b0a000005c63364090050003500000000000000005001200012340000 - Exhausted 0";

// Replies to two mappings would be one flow.
const CLASHES_CHAIN: &str =
    "elementclass Edge { $mac, $peer | input -> EtherEncap(0x0800, $mac, $peer) -> Queue(200) -> output; }
e1 :: IPRewriter(drop, pattern 203.0.113.2 5000 192.0.2.1 - 0 1); FromDevice(a) -> Strip(14) -> CheckIPHeader() -> [1] e1; e2 :: IPClassifier(tcp or ! udp port 1026, src port 0); e1[0] -> IPFilter(deny ip ttl 2, allow all) -> e2; e2 -> e3 :: IPClassifier(all, ip proto 1, not (src port 80) or (all)); e3 [0] -> Counter -> [0] e1; e3 [1] -> Paint(1) -> LookupIPRoute(203.0.113.1/8 0) -> Edge(02:00:00:00:00:0a,02:00:00:00:00:0c ) -> ToDevice(p); e3[2] -> EtherEncap(0x0800, 02:00:00:00:00:0c, 02:00:00:00:00:0d) -> ToDevice(p); e2 [1] -> EtherEncap(0x0800, 02:00:00:00:00:0a, 02:00:00:00:00:0b) -> ToDevice(p); e1[1] -> IPFilter(deny ip dscp 0, allow all) -> Discard;";

const CLASHES: &str =
    "1 ffffffffffff0200000000010800450300200001200040115cc3c0000203cb00710200350050000cffff61626364 - Unmapped 0
1 020000000002020000000001080046000023438140000201ffff0a000005c6336421000000000b00000000000000706179 - Unported 0
1 02000000000202000000000108004503001f000200000101539bcb007101c63364090000000000000000706179 - Unported 0
1 ffffffffffff020000000001080045000020ffff00004011458b0a000105c633640a13890050000c000061626364 - Clash 0
1 ffffffffffff020000000009080047030027ffff0000400144790a000006c633642100000000000000000300000000000000706179 - Unported 0
1 000000000000020000000009080046040023ffff000040011380cb007101c6336421000000000b00000000000000706179 - Unported 0
1 df00fae3c05255d004b110067254 - BadIp 0
1 000000000000020000000001080045000020000100000011548fcb007101c633640804000050000cf31061626364 - Clash 0
1 df00fae3c05255d004b110067254 - BadIp 0
1 02000000000202000000000108004500002900011fff02063291cb007101c6336409040100500000000000000000501820000000000000 - Unported 0";

// Two rewriters pick from one pool.
const POOL_OF_TWO_REWRITERS_CHAIN: &str = "elementclass In {
  input -> c :: Classifier(12/0800, -);
  c[0] -> Strip(14) -> CheckIPHeader -> output;
  c[1] -> Discard; // not IPv4
}
FromDevice(dmz) -> In -> [2] rw;
rw[0] -> [0] r2; r2[1] -> Counter(COUNT 5, B) -> [1] rw;
FromDevice(lan) -> In -> [0] rw;
rw :: IPRewriter(pattern 203.0.113.1 1024-1026 - - 0 1, drop, keep 0 1);
FromDevice(wan) -> In -> StaticIPLookup(0.0.0.0/0 192.0.2.7 0, 192.0.2.1/24 0) -> [1] r2;
r2[0] -> StoreIPAddress(10.0.0.4, dst) -> EtherEncap(0x0800, 02:00:00:00:00:0a, 02:00:00:00:00:0b) -> ToDevice(wan);
rw[1] -> EtherEncap(0x0800, 02:00:00:00:00:0c, 02:00:00:00:00:0d) -> ToDevice(x);
r2 :: IPRewriter(pattern 203.0.113.1 1024-1026 - - 0 1, drop);";

const POOL_OF_TWO_REWRITERS: &str =
    "2 ffffffffffff020000000001080045000020000100000011548fc6336408cb00710113880402000c227561626364 3 02000000000b02000000000a08004500002000010000001174c7cb0071010a00000404010402000c523461626364 2
2 ffffffffffff020000000001080045000020000100000011868c0a000005c633640800501388000c227561626364 - Exhausted 1
3 02000000000b02000000000a08004500002000010000401134c70a000004cb00710113880401000c0cff61626364 - Unmapped 0";

// The second pick is no port of the pool.
const WRONG_PICK_CHAIN: &str = "rw :: IPRewriter(m0, drop, pattern 203.0.113.1 1024 - - 0 1);
r2 :: IPRewriter(pattern 203.0.113.1 0-1 - - 0 1, pass 1);
rw[0] -> [0] r2; r2[1] -> LookupIPRoute(0.0.0.0/0 0) -> [1] rw;
m0 :: RoundRobinIPMapper(203.0.113.1 0-1 192.0.2.1 - 0 1);
m1 :: RoundRobinIPMapper(203.0.113.1 0-1 192.0.2.1 - 0 1);
FromDevice(lan) -> Strip(14) -> CheckIPHeader -> StaticIPLookup(0.0.0.0/0 203.0.113.2 0, 10.0.0.5/24 0) -> DecIPTTL -> [0] rw;
FromDevice(wan) -> Strip(14) -> CheckIPHeader -> IPFilter(0 ip proto 1, drop all) -> [1] r2;
FromDevice(dmz) -> Strip(14) -> CheckIPHeader -> [2] rw;
r2[0] -> IPFilter(0 net 10.0.0.7/32, drop all) -> EtherEncap(0x0800, 02:00:00:00:00:0a, 02:00:00:00:00:0b) -> ToDevice(wan);
rw[1] -> DecIPTTL -> EtherEncap(0x0800, 02:00:00:00:00:0c, 02:00:00:00:00:0d) -> ToDevice(lan);";

const WRONG_PICK: &str = "1 02000000000202000000000108060001 - BadIp 0
1 ffffffffffff02000000000108004528001fffff20014001f476cb007101c63364090b00000000000000706179 - Unported 0
3 ffffffffffff02000000000108004504002a000120004006d6c5c0000201c00002020035005000000000000000005004200012340000000000000000000000000000 - Filtered 1
3 020000000002020000000001080047000030ffff00000206ca89c6336409c00002020000000000000000138807d1000000000000000050002000ffff0000 - BadPick0 0";

// Each specification, for packets without visible ports, for flows with a mapping and without, and for replies. The
// patterns of one mapper clash in part, those of the other all.
const SPECIFICATIONS_CHAIN: &str =
    "rw :: IPRewriter(drop, pass 1, keep 0 1, pattern 203.0.113.1 2000 - - 0 1, mixed, clashing);
mixed :: RoundRobinIPMapper(203.0.113.1 2000 - - 0 1, - - 192.0.2.1 80 0 1);
clashing :: RoundRobinIPMapper(203.0.113.1 2000 - - 0 1, 203.0.113.1 2000 - - 0 1);
FromDevice(a) -> Strip(14) -> CheckIPHeader -> [0] rw;
FromDevice(b) -> Strip(14) -> CheckIPHeader -> [1] rw;
FromDevice(c) -> Strip(14) -> CheckIPHeader -> [2] rw;
FromDevice(d) -> Strip(14) -> CheckIPHeader -> [3] rw;
FromDevice(e) -> Strip(14) -> CheckIPHeader -> [4] rw;
FromDevice(f) -> Strip(14) -> CheckIPHeader -> [5] rw;
rw[0] -> EtherEncap(0x0800, 02:00:00:00:00:0a, 02:00:00:00:00:0b) -> ToDevice(w);
rw[1] -> EtherEncap(0x0800, 02:00:00:00:00:0c, 02:00:00:00:00:0d) -> ToDevice(x);";

const SPECIFICATIONS: &str =
    "1 02000000000202000000000108004500001c000100004001469f0a000005c63364090800f7ff00000000 - Unported 0
3 02000000000202000000000108004500001c000100004001469f0a000005c63364090800f7ff00000000 - Unported 0
4 02000000000202000000000108004500001c000100004001469f0a000005c63364090800f7ff00000000 - Unported 0
5 02000000000202000000000108004500001c000100004001469f0a000005c63364090800f7ff00000000 - Unported 0
6 02000000000202000000000108004500001c000100004001469f0a000005c63364090800f7ff00000000 - Unported 0
2 02000000000202000000000108004500001c000100004001469f0a000005c63364090800f7ff00000000 8 02000000000d02000000000c08004500001c000100004001469f0a000005c63364090800f7ff00000000 0
1 020000000002020000000001080045000020000100004011468b0a000005c633640913880035000cf31061626364 - Unmapped 0
2 020000000002020000000001080045000020000100004011468b0a000005c633640913880035000cf31061626364 8 02000000000d02000000000c080045000020000100004011468b0a000005c633640913880035000cf31061626364 0
3 020000000002020000000001080045000020000100004011468b0a000005c633640913880035000cf31061626364 7 02000000000b02000000000a080045000020000100004011468b0a000005c633640913880035000cf31061626364 0
3 020000000002020000000001080045000020000100004011468b0a000005c633640913880035000cf31061626364 7 02000000000b02000000000a080045000020000100004011468b0a000005c633640913880035000cf31061626364 0
4 020000000002020000000001080045000020000100004011468b0a000005c633640913880035000cf31061626364 7 02000000000b02000000000a080045000020000100004011148ecb007101c633640907d00035000ccccb61626364 0
4 020000000002020000000001080045000020000100004011468b0a000005c633640913880035000cf31061626364 7 02000000000b02000000000a080045000020000100004011148ecb007101c633640907d00035000ccccb61626364 0
5 020000000002020000000001080045000020000100004011468b0a000005c633640913880035000cf31061626364 7 02000000000b02000000000a080045000020000100004011aec60a000005c000020113880050000c5b3161626364 0
6 020000000002020000000001080045000020000100004011468b0a000005c633640913880035000cf31061626364 - Clash 0
6 020000000002020000000001080045000020000100004011468b0a000005c633640913880036000cf30f61626364 7 02000000000b02000000000a080045000020000100004011148ecb007101c633640907d00036000cccca61626364 0
4 020000000002020000000001080045000020000100004011468b0a000005c633640913880036000cf30f61626364 - Clash 0
1 020000000002020000000001080045000020000100004011148ec6336409cb007101003507d0000c123461626364 8 02000000000d02000000000c080045000020000100004011468bc63364090a00000500351388000c387961626364 0
2 020000000002020000000001080045000020000100004011148ec6336409cb007101003507d0000c123461626364 8 02000000000d02000000000c080045000020000100004011468bc63364090a00000500351388000c387961626364 0";

// The bytes of hexadecimal text.
pub(super) fn bytes(alloc: Global, text: &str) -> Result<Vec<u8>, AllocError> {
    let mut bytes = Vec::new(alloc);
    for pair in text.as_bytes().chunks(2) {
        if let Some(byte) = hexadecimal_of_length(2, pair) {
            bytes.push(byte as u8)?;
        }
    }
    Ok(bytes)
}

fn number(text: &str) -> u32 {
    match text.parse::<u32>() {
        Ok(n) => n,
        Err(_) => u32::MAX,
    }
}

fn chain_of(alloc: Global, text: &str) -> Option<Chain> {
    let text = text.as_bytes();
    if text.len() > 1_048_576 {
        return None;
    }
    let graph = parse(alloc, text).ok()?;
    check(alloc, graph).ok()
}

// The run of a frame that arrives on a device of the chain.
fn run(
    alloc: Global,
    chain: &Chain,
    tables: &mut Tables,
    device: u32,
    frame: Vec<u8>,
    picks: &[u16],
) -> Option<Result<Ran, RunFault>>
    requires { AreTables chain.now tables.old }
    ensures { AreTables chain.now tables.new }
{
    chain.is_accepted();
    devices_have_entries();
    if device == 0 || device > chain.entries() {
        return None;
    }
    let packet = Packet::new(Stamped {
        stamp: 0,
        device,
        number: 0,
        frame: Frame::new(frame),
    });
    Some(run_one(alloc, chain, tables, packet, picks))
}

fn name_of(cause: Cause) -> &'static str {
    match cause {
        Cause::Discarded => "Discarded",
        Cause::NoPaint => "NoPaint",
        Cause::Classified => "Classified",
        Cause::Short => "Short",
        Cause::BadIp => "BadIp",
        Cause::Ttl => "Ttl",
        Cause::Filtered => "Filtered",
        Cause::NoRoute => "NoRoute",
        Cause::Unported => "Unported",
        Cause::Unmapped => "Unmapped",
        Cause::Exhausted => "Exhausted",
        Cause::Clash => "Clash",
    }
}

// Whether a run is the one that a line tells.
fn is_told(
    run: &Option<Result<Ran, RunFault>>,
    on: &str,
    what: &str,
    wanted: &[u8],
    used: &str,
) -> bool {
    match run {
        Some(Ok(ran)) => {
            ran.used == number(used) as usize
                && match &ran.fate {
                    Fate::Sent(device, frame) => *device == number(on)
                        && frame.frame.bytes() == wanted,
                    Fate::Dropped(cause) => on == "-" && name_of(*cause) == what,
                }
        }
        Some(Err(RunFault::BadPick(place))) => *place == 0 && what == "BadPick0",
        _ => false,
    }
}

// The number of lines of a run that are as they tell, from the first on.
#[tactic(auto)]
fn lines_told(
    alloc: Global,
    chain: &Chain,
    tables: &mut Tables,
    picks: &[u16],
    lines: &str,
) -> Result<usize, AllocError>
    requires { AreTables chain.now tables.old }
    ensures { AreTables chain.now tables.new }
{
    let mut told: usize = 0;
    let mut taken: usize = 0;
    for line in lines.split('\n') {
        let mut words = line.split(' ');
        let device = number(words.next().unwrap_or(""));
        let frame = bytes(alloc, words.next().unwrap_or(""))?;
        let on = words.next().unwrap_or("");
        let what = words.next().unwrap_or("");
        let used = words.next().unwrap_or("");
        let wanted = bytes(alloc, what)?;
        let ran = run(
            alloc,
            chain,
            tables,
            device,
            frame,
            picks.get(taken..).unwrap_or(&[]),
        );
        if !is_told(&ran, on, what, &wanted, used) {
            break;
        }
        told = told.saturating_add(1);
        taken = taken.saturating_add(number(used) as usize);
    }
    Ok(told)
}

// Whether all lines of a run are as they tell.
fn check_run(
    alloc: Global,
    rt: &impl Abort,
    text: &str,
    picks: &[u16],
    lines: &str,
) -> Result<(), Fail> {
    let Some(chain) = chain_of(alloc, text) else {
        assert!(rt; false);
        return Ok(());
    };
    let mut tables = Tables::new(alloc, &chain)?;
    let told = lines_told(alloc, &chain, &mut tables, picks, lines)?;
    assert_eq!(rt; told, lines.split('\n').count());
    Ok(())
}

#[test]
fn rewriters_translate_both_ways(rt: HostRuntime) -> Result<(), Fail> {
    let alloc = rt.alloc();
    check_run(alloc, &rt, CHECKSUMS_CHAIN, &[1024], CHECKSUMS)?;
    check_run(alloc, &rt, TWO_PICKS_CHAIN, &[1024, 2000], TWO_PICKS)?;
    check_run(alloc, &rt, FILTERED_CHAIN, &[1024, 1025], FILTERED)?;
    check_run(alloc, &rt, TURNS_CHAIN, &[], TURNS)?;
    check_run(alloc, &rt, FREE_AGAIN_CHAIN, &[1024, 1024], FREE_AGAIN)?;
    check_run(alloc, &rt, BOTH_WAYS_CHAIN, &[1024], BOTH_WAYS)?;
    Ok(())
}

#[test]
fn ports_and_clashes_are_as_worked_out(rt: HostRuntime) -> Result<(), Fail> {
    let alloc = rt.alloc();
    check_run(alloc, &rt, SPECIFICATIONS_CHAIN, &[], SPECIFICATIONS)?;
    check_run(alloc, &rt, EXHAUSTED_POOL_CHAIN, &[0, 1], EXHAUSTED_POOL)?;
    check_run(alloc, &rt, CLASHES_CHAIN, &[], CLASHES)?;
    check_run(
        alloc,
        &rt,
        POOL_OF_TWO_REWRITERS_CHAIN,
        &[1024, 1025, 1026],
        POOL_OF_TWO_REWRITERS,
    )?;
    check_run(alloc, &rt, WRONG_PICK_CHAIN, &[0, 2], WRONG_PICK)?;
    Ok(())
}
