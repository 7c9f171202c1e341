//! Numbers in hexadecimal.

ghost use Rattle.std.specs.Prelude.{◌≡◌, ◌++◌, ◌∷◌, ◌<◌, OnOk, false};
ghost use Rattle.std.specs.Fmt.{digit_glyph, digits};
ghost use Rattle.std.specs.String.{string_bytes};
ghost use Rattle.field_table.specs.ValueText.{group_at, hex_group, hex_pair};

use std::alloc::AllocError;

/// A lower-case hexadecimal digit.
fn glyph(digit: u8) -> char
    requires { digit < 16 }
    ensures value { result ≡ digit_glyph false digit }
    ensures ascii { result < 128 }
{
    if digit < 10 {
        (b'0' + digit) as char
    } else {
        (b'a' - 10 + digit) as char
    }
}

/// Appends the two digits of a byte.
pub(crate) fn push_pair(text: &mut String, byte: u8) -> Result<(), AllocError>
    ensures { OnOk result (string_bytes text.new ≡ string_bytes text.old ++ hex_pair byte) }
{
    text.push(glyph(byte / 16))?;
    text.push(glyph(byte % 16))?;
    Ok(())
}

/// Appends a `:` and the two digits of a byte.
pub(crate) fn push_next_pair(text: &mut String, byte: u8) -> Result<(), AllocError>
    ensures { OnOk result (string_bytes text.new ≡ string_bytes text.old ++ (58 ∷ hex_pair byte)) }
{
    text.push(':')?;
    push_pair(text, byte)?;
    Ok(())
}

/// Appends the four digits of the 16 bits of a number from the bit `from` on, counted from the
/// least.
pub(crate) fn push_group(text: &mut String, n: u128, from: u8) -> Result<(), AllocError>
    requires { from < 128 }
    ensures { OnOk result (string_bytes text.new ≡ string_bytes text.old ++ hex_group (group_at n from)) }
{
    let group = (n >> from) % 0x1_0000;
    push_pair(text, (group / 0x100) as u8)?;
    push_pair(text, (group % 0x100) as u8)?;
    Ok(())
}

/// The same after a `:`.
pub(crate) fn push_next_group(text: &mut String, n: u128, from: u8) -> Result<(), AllocError>
    requires { from < 128 }
    ensures { OnOk result (string_bytes text.new ≡ string_bytes text.old ++ (58 ∷ hex_group (group_at n from))) }
{
    text.push(':')?;
    push_group(text, n, from)?;
    Ok(())
}

/// Appends the digits of a number, without leading zeros.
pub(crate) fn push_hex(text: &mut String, n: u128) -> Result<(), AllocError>
    ensures { OnOk result (string_bytes text.new ≡ string_bytes text.old ++ digits 16 false n) }
{
    if n < 16 {
        text.push(glyph(n as u8))?;
    } else {
        push_hex(text, n / 16)?;
        text.push(glyph((n % 16) as u8))?;
    }
    Ok(())
}
