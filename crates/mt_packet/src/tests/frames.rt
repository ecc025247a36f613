//! Frames that are edited.
use crate::Frame;

#[test]
fn frames_are_edited(rt: HostRuntime) {
    let bytes = Vec::from_slice(rt.alloc(), &[0, 1, 2, 3, 4]).expect(&rt, "memory");
    let mut frame = Frame::new(bytes);
    frame.insert(2, &[0xaa, 0xbb, 0xcc]).expect(&rt, "memory");
    assert_eq!(rt; frame.bytes(), [0, 1, 0xaa, 0xbb, 0xcc, 2, 3, 4].as_slice());
    frame.remove(1, 3);
    assert_eq!(rt; frame.bytes(), [0, 0xcc, 2, 3, 4].as_slice());
    frame.insert(5, &[9]).expect(&rt, "memory");
    frame.remove(0, 5);
    assert_eq!(rt; frame.bytes(), [9].as_slice());
    // A long piece in a long frame.
    let mut long = Frame::new(vec![in rt.alloc(); 1u8; 100_000].expect(&rt, "memory"));
    let piece = vec![in rt.alloc(); 2u8; 50_000].expect(&rt, "memory");
    long.insert(30_000, &piece).expect(&rt, "memory");
    let bytes = long.bytes();
    assert_eq!(rt; bytes.len(), 150_000);
    for (index, byte) in bytes.iter().enumerate() {
        let inside = index >= 30_000 && index < 80_000;
        assert_eq!(rt; *byte, if inside { 2 } else { 1 });
    }
}
