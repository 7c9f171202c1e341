//! The line that a run of a sample prints.
ghost use Rattle.std.specs.Prelude.{◌≡◌, ◌++◌, ◌∷◌, [], ◌<◌, OnOk, IfOk, false};
ghost use Rattle.std.specs.Fmt.{digit_glyph};
ghost use Rattle.answer_text.specs.Pieces.{labelled};
ghost use Rattle.sample_run.specs.SampleLine.{hex_digits, line_of};

use ds_base::{OutOfMemory, Text};
use std::alloc::Global;

/// What is told of a run over a sample.
#[derive(Clone, Copy)]
pub(crate) struct Totals {
    /// The number that the sample is made of.
    pub(crate) number: u64,
    /// How many records its captures have.
    pub(crate) records: u64,
    /// How many groups the report has.
    pub(crate) groups: u64,
    /// How many bytes the report has.
    pub(crate) bytes: u64,
    /// Their FNV-1a hash of 64 bits.
    pub(crate) hash: u64,
}

/// The line of these totals. It is refused for want of memory alone.
pub(crate) fn line(alloc: Global, totals: &Totals) -> Result<Text, OutOfMemory>
    ensures { IfOk result (λ line. line.items ≡ line_of totals.now) }
{
    let mut line = Text::new(alloc);
    push_labelled(&mut line, "sample ", totals.number)?;
    line.push_str(" packets=20000")?;
    push_labelled(&mut line, " records=", totals.records)?;
    push_labelled(&mut line, " groups=", totals.groups)?;
    push_labelled(&mut line, " bytes=", totals.bytes)?;
    line.push_str(" fnv=")?;
    push_hex(&mut line, totals.hash, 16)?;
    line.push_str("\n")?;
    Ok(line)
}

/// Puts a number behind its label at the end.
fn push_labelled(text: &mut Text, label: &str, n: u64) -> Result<(), OutOfMemory>
    ensures { OnOk result (text.new.items ≡ text.old.items ++ labelled label.now n) }
{
    text.push_str(label)?;
    text.push_decimal(u128::from(n))
}

/// Puts the lower digits of a number at the end, so many of them, in hexadecimal.
fn push_hex(text: &mut Text, n: u64, count: u32) -> Result<(), OutOfMemory>
    ensures { OnOk result (text.new.items ≡ text.old.items ++ hex_digits count n) }
{
    if count > 0 {
        push_hex(text, n / 16, count - 1)?;
        push_digit(text, (n % 16) as u8)?;
    }
    Ok(())
}

/// Puts a hexadecimal digit at the end.
fn push_digit(text: &mut Text, digit: u8) -> Result<(), OutOfMemory>
    requires { digit < 16 }
    ensures { OnOk result (text.new.items ≡ text.old.items ++ digit_glyph false digit ∷ []) }
{
    match text.push(glyph(digit)) {
        Ok(()) => Ok(()),
        Err(_) => Err(OutOfMemory),
    }
}

/// A hexadecimal digit in lower case.
fn glyph(digit: u8) -> char
    requires { digit < 16 }
    ensures value { result ≡ digit_glyph false digit }
    ensures ascii { result < 128 }
{
    if digit < 10 {
        (b'0' + digit) as char
    } else {
        (b'a' - 10 + digit) as char
    }
}
