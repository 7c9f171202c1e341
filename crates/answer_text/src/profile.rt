//! The line of the delays between two capture points.

ghost use Rattle.std.specs.Prelude.{◌≡◌, ◌++◌, ◌<◌, length, IfOk, OnOk, OnErr};
ghost use Rattle.std.specs.Fmt.{decimal};
ghost use Rattle.answer_text.specs.Pieces.{joined};
ghost use Rattle.answer_text.specs.Lines.{profile_text, class_texts, class_text, separator_of};

use crate::pieces::{push_labelled, push_named, push_wide};
use ds_base::{OutOfMemory, ProfileRow, Text};
use query_lang::Names;
use std::alloc::Global;

/// The line of the delays between two capture points: `P <from> <to> count=<n> sum=<n> least=<n>
/// greatest=<n> classes=<class:n,..>`, in nanoseconds; the classes of which there are any, rising. Both
/// captures have their names among those of `names`.
pub fn profile_line(alloc: Global, names: &Names, row: &ProfileRow) -> Result<Text, OutOfMemory>
    requires from { row.now.from < length names.now.captures.items }
    requires to { row.now.to < length names.now.captures.items }
    ensures { IfOk result (λ text. text.items ≡ profile_text names.now.captures.items row.now) }
{
    let mut text = Text::new(alloc);
    write_profile(&mut text, names, row)?;
    Ok(text)
}

/// Puts the line of the delays between two capture points at the end of a text. It is refused for want
/// of memory alone; then the text is as it was.
pub fn push_profile_line(
    text: &mut Text,
    names: &Names,
    row: &ProfileRow,
) -> Result<(), OutOfMemory>
    requires from { row.now.from < length names.now.captures.items }
    requires to { row.now.to < length names.now.captures.items }
    ensures pushed { OnOk result (text.new.items ≡ text.old.items ++ profile_text names.now.captures.items row.now) }
    ensures refused { OnErr result (text.new.items ≡ text.old.items) }
{
    let line = profile_line(text.allocator(), names, row)?;
    text.push_str(line.as_str())
}

/// Puts the parts of the line one after the other. Some of them may stand there where it is refused.
fn write_profile(text: &mut Text, names: &Names, row: &ProfileRow) -> Result<(), OutOfMemory>
    requires from { row.now.from < length names.now.captures.items }
    requires to { row.now.to < length names.now.captures.items }
    ensures { OnOk result (text.new.items ≡ text.old.items ++ profile_text names.now.captures.items row.now) }
{
    push_named(text, "P ", &names.captures, row.from)?;
    push_named(text, " ", &names.captures, row.to)?;
    push_labelled(text, " count=", row.count)?;
    push_wide(text, " sum=", row.sum)?;
    push_labelled(text, " least=", row.least)?;
    push_labelled(text, " greatest=", row.greatest)?;
    text.push_str(" classes=")?;
    push_classes(text, &row.classes)?;
    text.push_str("\n")?;
    Ok(())
}

/// Puts the classes of which there are any, each with its number, with commas between them.
fn push_classes(text: &mut Text, classes: &[u64; 64]) -> Result<(), OutOfMemory>
    ensures { OnOk result (text.new.items ≡ text.old.items ++ joined (class_texts 0 classes.now)) }
{
    let mut is_first = true;
    for class in 0..64u32 {
        let number = classes[class as usize];
        if number != 0 {
            push_class(text, is_first, class, number)?;
            is_first = false;
        }
    }
    Ok(())
}

/// Puts a class and its number, after a comma where it is not the first.
fn push_class(text: &mut Text, is_first: bool, class: u32, number: u64) -> Result<(), OutOfMemory>
    ensures { OnOk result (text.new.items ≡ text.old.items ++ (separator_of is_first ++ class_text class number)) }
{
    text.push_str(separator(is_first))?;
    text.push_decimal(u128::from(class))?;
    push_labelled(text, ":", number)
}

/// What stands before a class: a comma where it is not the first.
fn separator(is_first: bool) -> &'static str
    ensures { result.now ≡ separator_of is_first }
{
    if is_first { "" } else { "," }
}
