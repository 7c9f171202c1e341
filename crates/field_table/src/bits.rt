//! The number of some bits of some bytes.

ghost use Rattle.std.specs.Prelude.{◌≡◌, ◌+◌, ◌*◌, ◌%◌, ◌<◌, ◌≤◌, length};
ghost use Rattle.std.specs.Int.Digits.{number_from_digits};
ghost use Rattle.field_table.specs.Bits.{number_of_bits};

/// The number of some bytes, the first the most significant.
fn number_of(bytes: &[u8]) -> u128
    requires { length bytes.now ≤ 16 }
    ensures { result ≡ number_from_digits 256 bytes.now }
{
    match bytes {
        [a] => *a as u128,
        [a, b] => (*a as u32 * 0x100 + *b as u32) as u128,
        [a, b, c] => (*a as u32 * 0x1_0000 + *b as u32 * 0x100 + *c as u32) as u128,
        [a, b, c, d] => {
            (*a as u32 * 0x100_0000 + *b as u32 * 0x1_0000 + *c as u32 * 0x100 + *d as u32) as u128
        }
        _ => long_number_of(bytes),
    }
}

/// The same for any number of bytes, byte by byte.
fn long_number_of(bytes: &[u8]) -> u128
    requires { length bytes.now ≤ 16 }
    ensures { result ≡ number_from_digits 256 bytes.now }
{
    let mut number = 0;
    for byte in bytes {
        number = number * 0x100 + *byte as u128;
    }
    number
}

/// The number of `count` bits from the bit `first` on. Bits are counted from 0, the most significant
/// bit of the first byte.
pub(crate) fn bits_at(bytes: &[u8], first: u16, count: u8) -> u128
    requires some { 0 < count }
    requires inside { first + count ≤ 8 * length bytes.now }
    requires narrow { first % 8 + count ≤ 128 }
    ensures { result ≡ number_of_bits bytes.now first count }
{
    let from = first as usize / 8;
    let last = first as usize + count as usize;
    let end = (last + 7) / 8;
    let number = number_of(&bytes[from..end]);
    (number >> (end * 8 - last)) & (u128::MAX >> (128 - count))
}
