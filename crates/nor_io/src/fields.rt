ghost use Rattle.std.specs.Prelude.{◌≡◌, ◌+◌, ◌<◌, ◌≤◌, length, drop, IfSome, IsNone, ◌↔◌};
ghost use Rattle.nor_io.specs.Fields.{u16_at, u32_at};

use byteorder::{ByteOrder, LittleEndian};

/// The little-endian number in the two bytes at `at`, or `None` exactly where the bytes end before
/// these two do.
pub fn field_u16(from: &[u8], at: usize) -> Option<u16>
    ensures value { IfSome result (λ n. n ≡ u16_at from.now at) }
    ensures none { IsNone result ↔ (length from.now < at + 2) }
{
    Some(LittleEndian::read_u16(field(from, at, 2)?))
}

/// The little-endian number in the four bytes at `at`, or `None` exactly where the bytes end before
/// these four do.
pub fn field_u32(from: &[u8], at: usize) -> Option<u32>
    ensures value { IfSome result (λ n. n ≡ u32_at from.now at) }
    ensures none { IsNone result ↔ (length from.now < at + 4) }
{
    Some(LittleEndian::read_u32(field(from, at, 4)?))
}

// The bytes from `at` on, where at least `size` of them are left.
fn field(from: &[u8], at: usize, size: usize) -> Option<&[u8]>
    ensures rest { IfSome result (λ rest. rest.now ≡ drop at from.now) }
    ensures enough { IfSome result (λ rest. size ≤ length rest.now) }
    ensures none { IsNone result ↔ (length from.now < at + size) }
{
    let rest = from.get(at..)?;
    if rest.len() < size { None } else { Some(rest) }
}
