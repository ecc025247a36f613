//! Whole chains with their whole graphs.
use crate::tests::{described, wired};
use std::test::Fail;

const FORWARDER: &str = "FromDevice(a) -> ToDevice(b);
";

const FORWARDER_ELEMENTS: &str = "FromDevice(a)@1
ToDevice(b)@1";

const FORWARDER_WIRES: &str = "2 0.0>1.0@1";

const SORTER: &str = "FromDevice(a) -> c :: Classifier(12/0806 20/0001, 12/0800, -);
c[0] -> ToDevice(b); c[1] -> ToDevice(c); c[2] -> Discard;
";

const SORTER_ELEMENTS: &str = "FromDevice(a)@1
Classifier(12/0806 20/0001|12/0800|-)c@1
ToDevice(b)@2
ToDevice(c)@2
Discard()@2";

const SORTER_WIRES: &str = "5 0.0>1.0@1 1.0>2.0@2 1.1>3.0@2 1.2>4.0@2";

const CHECKER: &str =
    "FromDevice(a) -> Strip(14) -> CheckIPHeader -> EtherEncap(0x0800, 02:00:00:00:00:0a, 02:00:00:00:00:0b) -> ToDevice(b);
";

const CHECKER_ELEMENTS: &str = "FromDevice(a)@1
Strip(14)@1
CheckIPHeader()@1
EtherEncap(0x0800|02:00:00:00:00:0a|02:00:00:00:00:0b)@1
ToDevice(b)@1";

const CHECKER_WIRES: &str = "5 0.0>1.0@1 1.0>2.0@1 2.0>3.0@1 3.0>4.0@1";

const HOP: &str = "FromDevice(a) -> Strip(14) -> CheckIPHeader -> d :: DecIPTTL
  -> EtherEncap(0x0800, 02:00:00:00:00:0a, 02:00:00:00:00:0b) -> ToDevice(b);
d[1] -> Discard;
";

const HOP_ELEMENTS: &str = "FromDevice(a)@1
Strip(14)@1
CheckIPHeader()@1
DecIPTTL()d@1
EtherEncap(0x0800|02:00:00:00:00:0a|02:00:00:00:00:0b)@2
ToDevice(b)@2
Discard()@3";

const HOP_WIRES: &str = "7 0.0>1.0@1 1.0>2.0@1 2.0>3.0@1 3.0>4.0@2 4.0>5.0@2 3.1>6.0@3";

const TWICE: &str = "FromDevice(a) -> Strip(14) -> CheckIPHeader
  -> StoreIPAddress(198.51.100.10, dst)
  -> IPRewriter(pattern 203.0.113.1 1024-1025 - - 0 0)
  -> IPRewriter(pattern 192.0.2.7 2000-2001 - - 0 0)
  -> EtherEncap(0x0800, 02:00:00:00:00:0a, 02:00:00:00:00:0b) -> ToDevice(b);
";

const TWICE_ELEMENTS: &str = "FromDevice(a)@1
Strip(14)@1
CheckIPHeader()@1
StoreIPAddress(198.51.100.10|dst)@2
IPRewriter(pattern 203.0.113.1 1024-1025 - - 0 0)@3
IPRewriter(pattern 192.0.2.7 2000-2001 - - 0 0)@4
EtherEncap(0x0800|02:00:00:00:00:0a|02:00:00:00:00:0b)@5
ToDevice(b)@5";

const TWICE_WIRES: &str = "8 0.0>1.0@1 1.0>2.0@1 2.0>3.0@2 3.0>4.0@3 4.0>5.0@4 5.0>6.0@5 6.0>7.0@5";

const FIREWALL: &str = "FromDevice(a) -> Classifier(12/0800) -> Strip(14) -> CheckIPHeader
  -> IPFilter(deny dst port 22, allow all) -> EtherEncap(0x0800, 02:00:00:00:00:0a, 02:00:00:00:00:0b) -> ToDevice(b);
";

const FIREWALL_ELEMENTS: &str = "FromDevice(a)@1
Classifier(12/0800)@1
Strip(14)@1
CheckIPHeader()@1
IPFilter(deny dst port 22|allow all)@2
EtherEncap(0x0800|02:00:00:00:00:0a|02:00:00:00:00:0b)@2
ToDevice(b)@2";

const FIREWALL_WIRES: &str = "7 0.0>1.0@1 1.0>2.0@1 2.0>3.0@1 3.0>4.0@2 4.0>5.0@2 5.0>6.0@2";

const TRANSLATOR: &str = "rw :: IPRewriter(pattern 203.0.113.1 1024-65535 - - 0 1, drop);
elementclass In {
  input -> c :: Classifier(12/0800, -);
  c[0] -> Strip(14) -> CheckIPHeader -> output;
  c[1] -> Discard;
}
FromDevice(lan) -> In -> [0] rw;
FromDevice(wan) -> In -> [1] rw;
rw[0] -> EtherEncap(0x0800, 02:00:00:00:00:0a, 02:00:00:00:00:0b) -> ToDevice(wan);
rw[1] -> EtherEncap(0x0800, 02:00:00:00:00:0c, 02:00:00:00:00:0d)
  -> ToDevice(lan);
";

const TRANSLATOR_ELEMENTS: &str = "IPRewriter(pattern 203.0.113.1 1024-65535 - - 0 1|drop)rw@1
FromDevice(lan)@7
Classifier(12/0800|-)2/c@3
Strip(14)2/@4
CheckIPHeader()2/@4
Discard()2/@5
FromDevice(wan)@8
Classifier(12/0800|-)7/c@3
Strip(14)7/@4
CheckIPHeader()7/@4
Discard()7/@5
EtherEncap(0x0800|02:00:00:00:00:0a|02:00:00:00:00:0b)@9
ToDevice(wan)@9
EtherEncap(0x0800|02:00:00:00:00:0c|02:00:00:00:00:0d)@10
ToDevice(lan)@11";

const TRANSLATOR_WIRES: &str =
    "15 2.0>3.0@4 7.0>8.0@4 3.0>4.0@4 8.0>9.0@4 4.0>0.0@4 9.0>0.1@4 2.1>5.0@5 7.1>10.0@5 1.0>2.0@7 6.0>7.0@8 0.0>11.0@9 11.0>12.0@9 0.1>13.0@10 13.0>14.0@11";

const MAPPER: &str = "m :: RoundRobinIPMapper(- - 192.0.2.1 80 0 1, - - 192.0.2.2 80 0 1,
                        - - 192.0.2.3 80 0 1);
rw :: IPRewriter(m, drop);
elementclass In {
  input -> c :: Classifier(12/0800, -);
  c[0] -> Strip(14) -> CheckIPHeader -> output;
  c[1] -> Discard;
}
FromDevice(lan) -> In -> [0] rw;
FromDevice(wan) -> In -> [1] rw;
rw[0] -> EtherEncap(0x0800, 02:00:00:00:00:0a, 02:00:00:00:00:0b) -> ToDevice(wan);
rw[1] -> EtherEncap(0x0800, 02:00:00:00:00:0c, 02:00:00:00:00:0d)
  -> ToDevice(lan);
";

const MAPPER_ELEMENTS: &str =
    "RoundRobinIPMapper(- - 192.0.2.1 80 0 1|- - 192.0.2.2 80 0 1|- - 192.0.2.3 80 0 1)m@1
IPRewriter(m|drop)rw@3
FromDevice(lan)@9
Classifier(12/0800|-)3/c@5
Strip(14)3/@6
CheckIPHeader()3/@6
Discard()3/@7
FromDevice(wan)@10
Classifier(12/0800|-)8/c@5
Strip(14)8/@6
CheckIPHeader()8/@6
Discard()8/@7
EtherEncap(0x0800|02:00:00:00:00:0a|02:00:00:00:00:0b)@11
ToDevice(wan)@11
EtherEncap(0x0800|02:00:00:00:00:0c|02:00:00:00:00:0d)@12
ToDevice(lan)@13";

const MAPPER_WIRES: &str =
    "16 3.0>4.0@6 8.0>9.0@6 4.0>5.0@6 9.0>10.0@6 5.0>1.0@6 10.0>1.1@6 3.1>6.0@7 8.1>11.0@7 2.0>3.0@9 7.0>8.0@10 1.0>12.0@11 12.0>13.0@11 1.1>14.0@12 14.0>15.0@13";

const BALANCER: &str = "n :: IPRewriter(pattern 203.0.113.1 1024-1087 - - 0 1, drop);
m :: RoundRobinIPMapper(- - 192.0.2.1 80 0 1, - - 192.0.2.2 80 0 1);
b :: IPRewriter(m, drop);
elementclass In {
  input -> c :: Classifier(12/0800, -);
  c[0] -> Strip(14) -> CheckIPHeader -> output;
  c[1] -> Discard;
}
FromDevice(lan) -> In -> [0] n; n[0] -> [0] b; b[0] -> EtherEncap(0x0800, 02:00:00:00:00:0a, 02:00:00:00:00:0b) -> ToDevice(wan);
FromDevice(wan) -> In -> [1] b; b[1] -> [1] n; n[1] -> EtherEncap(0x0800, 02:00:00:00:00:0a, 02:00:00:00:00:0b) -> ToDevice(lan);
";

const BALANCER_ELEMENTS: &str = "IPRewriter(pattern 203.0.113.1 1024-1087 - - 0 1|drop)n@1
RoundRobinIPMapper(- - 192.0.2.1 80 0 1|- - 192.0.2.2 80 0 1)m@2
IPRewriter(m|drop)b@3
FromDevice(lan)@9
Classifier(12/0800|-)4/c@5
Strip(14)4/@6
CheckIPHeader()4/@6
Discard()4/@7
EtherEncap(0x0800|02:00:00:00:00:0a|02:00:00:00:00:0b)@9
ToDevice(wan)@9
FromDevice(wan)@10
Classifier(12/0800|-)11/c@5
Strip(14)11/@6
CheckIPHeader()11/@6
Discard()11/@7
EtherEncap(0x0800|02:00:00:00:00:0a|02:00:00:00:00:0b)@10
ToDevice(lan)@10";

const BALANCER_WIRES: &str =
    "17 4.0>5.0@6 11.0>12.0@6 5.0>6.0@6 12.0>13.0@6 6.0>0.0@6 13.0>2.1@6 4.1>7.0@7 11.1>14.0@7 3.0>4.0@9 0.0>2.0@9 2.0>8.0@9 8.0>9.0@9 10.0>11.0@10 2.1>0.1@10 0.1>15.0@10 15.0>16.0@10";

const KEEPER: &str = "rw :: IPRewriter(pattern 203.0.113.1 1024-1024 - - 0 1, keep 0 1);
FromDevice(l) -> Strip(14) -> CheckIPHeader -> [0] rw;
FromDevice(k) -> Strip(14) -> CheckIPHeader -> [1] rw;
rw[0] -> EtherEncap(0x0800, 02:00:00:00:00:0a, 02:00:00:00:00:0b) -> ToDevice(w); rw[1] -> Discard;
";

const KEEPER_ELEMENTS: &str = "IPRewriter(pattern 203.0.113.1 1024-1024 - - 0 1|keep 0 1)rw@1
FromDevice(l)@2
Strip(14)@2
CheckIPHeader()@2
FromDevice(k)@3
Strip(14)@3
CheckIPHeader()@3
EtherEncap(0x0800|02:00:00:00:00:0a|02:00:00:00:00:0b)@4
ToDevice(w)@4
Discard()@4";

const KEEPER_WIRES: &str =
    "10 1.0>2.0@2 2.0>3.0@2 3.0>0.0@2 4.0>5.0@3 5.0>6.0@3 6.0>0.1@3 0.0>7.0@4 7.0>8.0@4 0.1>9.0@4";

const ROUTER: &str = "elementclass In {
  input -> c :: Classifier(12/0806, 12/0800, -);
  c[0] -> Discard;
  c[1] -> Strip(14) -> CheckIPHeader -> output;
  c[2] -> Discard;
}
elementclass Edge { $mac, $peer |
  input -> EtherEncap(0x0800, $mac, $peer) -> Queue(200) -> output;
}
rw :: IPRewriter(pattern 203.0.113.1 1024-65535 - - 0 1, drop);
lan :: FromDevice(lan0, PROMISC true);
wan :: FromDevice(wan0, PROMISC true);
lan -> In
  -> IPFilter(deny dst port 22, deny dst net 192.168.0.0/16, allow all)
  -> DecIPTTL -> [0] rw;
wan -> In -> DecIPTTL -> [1] rw;
rw[0] -> LookupIPRoute(0.0.0.0/0 203.0.113.254 0)
  -> Edge(02:00:00:00:00:0a, 02:00:00:00:00:0b) -> ToDevice(wan0);
rw[1] -> Edge(02:00:00:00:00:0c, 02:00:00:00:00:0d) -> ToDevice(lan0);
";

const ROUTER_ELEMENTS: &str = "IPRewriter(pattern 203.0.113.1 1024-65535 - - 0 1|drop)rw@10
FromDevice(lan0|PROMISC true)lan@11
FromDevice(wan0|PROMISC true)wan@12
Classifier(12/0806|12/0800|-)3/c@2
Discard()3/@3
Strip(14)3/@4
CheckIPHeader()3/@4
Discard()3/@5
IPFilter(deny dst port 22|deny dst net 192.168.0.0/16|allow all)@14
DecIPTTL()@15
Classifier(12/0806|12/0800|-)10/c@2
Discard()10/@3
Strip(14)10/@4
CheckIPHeader()10/@4
Discard()10/@5
DecIPTTL()@16
LookupIPRoute(0.0.0.0/0 203.0.113.254 0)@17
EtherEncap(0x0800|02:00:00:00:00:0a|02:00:00:00:00:0b)17/@8
Queue(200)17/@8
ToDevice(wan0)@18
EtherEncap(0x0800|02:00:00:00:00:0c|02:00:00:00:00:0d)20/@8
Queue(200)20/@8
ToDevice(lan0)@19";

const ROUTER_WIRES: &str =
    "23 3.0>4.0@3 10.0>11.0@3 3.1>5.0@4 10.1>12.0@4 5.0>6.0@4 12.0>13.0@4 6.0>8.0@4 13.0>15.0@4 3.2>7.0@5 10.2>14.0@5 17.0>18.0@8 20.0>21.0@8 18.0>19.0@8 21.0>22.0@8 1.0>3.0@13 8.0>9.0@15 9.0>0.0@15 2.0>10.0@16 15.0>0.1@16 0.0>16.0@17 16.0>17.0@18 0.1>20.0@19";

#[test]
fn chains_become_their_graphs(rt: HostRuntime) -> Result<(), Fail> {
    let rows: [(&str, &str, &str); 11] = [
        (FORWARDER, FORWARDER_ELEMENTS, FORWARDER_WIRES),
        (SORTER, SORTER_ELEMENTS, SORTER_WIRES),
        (CHECKER, CHECKER_ELEMENTS, CHECKER_WIRES),
        (HOP, HOP_ELEMENTS, HOP_WIRES),
        (TWICE, TWICE_ELEMENTS, TWICE_WIRES),
        (FIREWALL, FIREWALL_ELEMENTS, FIREWALL_WIRES),
        (TRANSLATOR, TRANSLATOR_ELEMENTS, TRANSLATOR_WIRES),
        (MAPPER, MAPPER_ELEMENTS, MAPPER_WIRES),
        (BALANCER, BALANCER_ELEMENTS, BALANCER_WIRES),
        (KEEPER, KEEPER_ELEMENTS, KEEPER_WIRES),
        (ROUTER, ROUTER_ELEMENTS, ROUTER_WIRES),
    ];
    for row in rows {
        let elements = described(rt.alloc(), row.0.as_bytes(), b'\n')?;
        assert_eq!(rt; elements.as_slice(), row.1.as_bytes(), "{}", row.0);
        let wires = wired(rt.alloc(), row.0.as_bytes())?;
        assert_eq!(rt; wires.as_slice(), row.2.as_bytes(), "{}", row.0);
    }
    Ok(())
}
