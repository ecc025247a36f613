//! Words and what they stand for, by hand.
use crate::{ethernet_address, ipv4_address, is_identifier, number_up_to};
use std::test::Fail;

#[test]
fn words_are_read(rt: HostRuntime) -> Result<(), Fail> {
    for (word, number) in [
        ("0", Some(0u64)),
        ("007", Some(7)),
        ("65535", Some(65_535)),
        ("65536", None),
        ("0x1F", Some(31)),
        ("0xffff", Some(65_535)),
        ("0X1F", None),
        ("0000000001", None),
        ("0x", None),
        ("", None),
        ("1a", None),
        ("-1", None),
    ] {
        assert_eq!(rt;
            number_up_to(65_535, word.as_bytes()),
            number,
            "number {word}"
        );
    }
    for (word, value) in [
        ("10.0.0.5", Some(0x0A00_0005u64)),
        ("255.255.255.255", Some(0xFFFF_FFFF)),
        ("010.0.0.1", Some(0x0A00_0001)),
        ("256.0.0.1", None),
        ("1.2.3", None),
        ("1.2.3.4.5", None),
        ("1..3.4", None),
        ("0x1.2.3.4", None),
    ] {
        assert_eq!(rt; ipv4_address(word.as_bytes()), value, "address {word}");
    }
    for (word, value) in [
        ("02:00:00:00:00:0a", Some(0x0200_0000_000Au64)),
        ("FF:ff:FF:ff:FF:ff", Some(0xFFFF_FFFF_FFFF)),
        ("2:00:00:00:00:0a", None),
        ("02-00-00-00-00-0a", None),
        ("02:00:00:00:00:0g", None),
    ] {
        assert_eq!(rt; ethernet_address(word.as_bytes()), value, "address {word}");
    }
    for (word, is) in [
        ("eth0", true),
        ("_a@1", true),
        ("0eth", false),
        ("a-b", false),
        ("", false),
    ] {
        assert_eq!(rt; is_identifier(word.as_bytes()), is, "identifier {word}");
    }
    Ok(())
}
