//! The line of a capture, and the last line.

ghost use Rattle.std.specs.Prelude.{◌≡◌, ◌++◌, ◌<◌, length, IfOk, OnOk, OnErr};
ghost use Rattle.answer_text.specs.Lines.{capture_text, end_text, ending_of};

use crate::pieces::{push_labelled, push_named};
use ds_base::{Counts, OutOfMemory, Text};
use query_lang::Names;
use std::alloc::Global;

/// The line of a capture: `C <name> records=<n> unmatched=<n> late=<n> accepted=<n> <whole or cut>`.
/// The capture has its name among those of `names`.
pub fn capture_line(
    alloc: Global,
    names: &Names,
    capture: u32,
    counts: &Counts,
) -> Result<Text, OutOfMemory>
    requires { capture < length names.now.captures.items }
    ensures { IfOk result (λ text. text.items ≡ capture_text names.now.captures.items capture counts.now) }
{
    let mut text = Text::new(alloc);
    write_capture(&mut text, names, capture, counts)?;
    Ok(text)
}

/// Puts the line of a capture at the end of a text. It is refused for want of memory alone; then the
/// text is as it was.
pub fn push_capture_line(
    text: &mut Text,
    names: &Names,
    capture: u32,
    counts: &Counts,
) -> Result<(), OutOfMemory>
    requires { capture < length names.now.captures.items }
    ensures pushed { OnOk result (text.new.items ≡ text.old.items ++ capture_text names.now.captures.items capture counts.now) }
    ensures refused { OnErr result (text.new.items ≡ text.old.items) }
{
    let line = capture_line(text.allocator(), names, capture, counts)?;
    text.push_str(line.as_str())
}

/// Puts the parts of the line one after the other. Some of them may stand there where it is refused.
fn write_capture(
    text: &mut Text,
    names: &Names,
    capture: u32,
    counts: &Counts,
) -> Result<(), OutOfMemory>
    requires { capture < length names.now.captures.items }
    ensures { OnOk result (text.new.items ≡ text.old.items ++ capture_text names.now.captures.items capture counts.now) }
{
    push_named(text, "C ", &names.captures, capture)?;
    push_labelled(text, " records=", counts.records)?;
    push_labelled(text, " unmatched=", counts.unmatched)?;
    push_labelled(text, " late=", counts.late)?;
    push_labelled(text, " accepted=", counts.accepted)?;
    text.push_str(ending(counts.cut))?;
    Ok(())
}

/// How the line of a capture ends.
fn ending(cut: bool) -> &'static str
    ensures { result.now ≡ ending_of cut }
{
    if cut { " cut\n" } else { " whole\n" }
}

/// The last line: `E groups=<n> summaries=<n>`, the accepted summaries of all captures.
pub fn end_line(alloc: Global, groups: u64, summaries: u64) -> Result<Text, OutOfMemory>
    ensures { IfOk result (λ text. text.items ≡ end_text groups summaries) }
{
    let mut text = Text::new(alloc);
    write_end(&mut text, groups, summaries)?;
    Ok(text)
}

/// Puts the last line at the end of a text. It is refused for want of memory alone; then the text is as
/// it was.
pub fn push_end_line(text: &mut Text, groups: u64, summaries: u64) -> Result<(), OutOfMemory>
    ensures pushed { OnOk result (text.new.items ≡ text.old.items ++ end_text groups summaries) }
    ensures refused { OnErr result (text.new.items ≡ text.old.items) }
{
    let line = end_line(text.allocator(), groups, summaries)?;
    text.push_str(line.as_str())
}

/// Puts the parts of the line one after the other. Some of them may stand there where it is refused.
fn write_end(text: &mut Text, groups: u64, summaries: u64) -> Result<(), OutOfMemory>
    ensures { OnOk result (text.new.items ≡ text.old.items ++ end_text groups summaries) }
{
    push_labelled(text, "E groups=", groups)?;
    push_labelled(text, " summaries=", summaries)?;
    text.push_str("\n")?;
    Ok(())
}
