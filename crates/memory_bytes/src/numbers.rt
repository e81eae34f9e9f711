ghost use Rattle.std.specs.Prelude.{◌≡◌, ◌+◌, ◌%◌, ◌≤◌, ◌<◌, ◌^◌, length, slice_index};
ghost use Rattle.memory_bytes.specs.Bytes.{IsWidth, number_at, with_number};

/// The number in the `width` bytes from `addr` on, little endian.
#[tactic(auto, unfolding(crate::specs::Bytes::number_at))]
pub fn read_number(bytes: &[u8], addr: usize, width: u32) -> u32
    requires width { IsWidth width }
    requires within { addr + width ≤ length bytes.now }
    ensures number { result ≡ number_at (λ a. slice_index bytes.now a) addr width }
    ensures below { result < 256 ^ width }
{
    match width {
        1 => u32::from(bytes[addr]),
        2 => u32::from(u16::from_le_bytes([bytes[addr], bytes[addr + 1]])),
        _ => u32::from_le_bytes([
            bytes[addr],
            bytes[addr + 1],
            bytes[addr + 2],
            bytes[addr + 3],
        ]),
    }
}

/// Puts the low `width` bytes of `value` from `addr` on, little endian.
#[tactic(auto, unfolding(crate::specs::Bytes::with_number))]
pub fn write_number(bytes: &mut [u8], addr: usize, width: u32, value: u32)
    requires width { IsWidth width }
    requires within { addr + width ≤ length bytes.old }
    ensures { bytes.new ≡ with_number bytes.old addr width value }
{
    let [first, second, third, fourth] = value.to_le_bytes();
    bytes[addr] = first;
    if width > 1 {
        bytes[addr + 1] = second;
    }
    if width > 2 {
        bytes[addr + 2] = third;
        bytes[addr + 3] = fourth;
    }
}

/// The low `width` bytes of a value.
#[inline]
pub fn low_bytes(width: u32, value: u32) -> u32
    requires { IsWidth width }
    ensures { result ≡ value % 256 ^ width }
{
    match width {
        1 => value & 0xff,
        2 => value & 0xffff,
        _ => value,
    }
}
