//! Numbers in bytes, in network order.
ghost use Rattle.std.specs.Prelude.{◌≡◌, ◌+◌, ◌<◌, length};
ghost use Rattle.mt_packet.specs.Field.{two_bytes_at, four_bytes_at, six_bytes_at};
ghost use Rattle.mt_packet.specs.Write.{put_two, put_four, put_six};

/// The number in two bytes.
pub fn two_bytes(bytes: &[u8], offset: usize) -> u16
    requires { offset + 1 < length bytes.now }
    ensures { result ≡ two_bytes_at bytes.now offset }
{
    u16::from(bytes[offset]) * 256 + u16::from(bytes[offset + 1])
}

/// The number in four bytes.
pub fn four_bytes(bytes: &[u8], offset: usize) -> u32
    requires { offset + 3 < length bytes.now }
    ensures { result ≡ four_bytes_at bytes.now offset }
{
    u32::from(two_bytes(bytes, offset)) * 65_536 + u32::from(two_bytes(bytes, offset + 2))
}

/// The number in six bytes.
pub fn six_bytes(bytes: &[u8], offset: usize) -> u64
    requires { offset + 5 < length bytes.now }
    ensures { result ≡ six_bytes_at bytes.now offset }
{
    u64::from(two_bytes(bytes, offset)) * 4_294_967_296 + u64::from(four_bytes(bytes, offset + 2))
}

/// Writes a number into two bytes.
pub fn write_two(bytes: &mut [u8], offset: usize, value: u16)
    requires { offset + 1 < length bytes.old }
    ensures { bytes.new ≡ put_two bytes.old offset value }
{
    bytes[offset] = (value / 256) as u8;
    bytes[offset + 1] = (value % 256) as u8;
}

/// Writes a number into four bytes.
pub fn write_four(bytes: &mut [u8], offset: usize, value: u32)
    requires { offset + 3 < length bytes.old }
    ensures { bytes.new ≡ put_four bytes.old offset value }
{
    write_two(bytes, offset, (value / 65_536) as u16);
    write_two(bytes, offset + 2, (value % 65_536) as u16);
}

/// Writes the low 48 bits of a number into six bytes.
pub fn write_six(bytes: &mut [u8], offset: usize, value: u64)
    requires { offset + 5 < length bytes.old }
    ensures { bytes.new ≡ put_six bytes.old offset value }
{
    write_two(bytes, offset, (value / 4_294_967_296 % 65_536) as u16);
    write_four(bytes, offset + 2, (value % 4_294_967_296) as u32);
}
