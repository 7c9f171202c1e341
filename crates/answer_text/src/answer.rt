//! The answer line of a group.

ghost use Rattle.std.specs.Prelude.{◌≡◌, ◌++◌, ◌<◌, length, IfOk, OnOk, OnErr};
ghost use Rattle.answer_text.specs.Lines.{answer_text, first_text, key_text, IsNamedIn};

use crate::pieces::{push_labelled, push_named, push_numbers};
use crate::verdict::push_verdict;
use ds_base::{Answer, NameList, Nums, OutOfMemory, Stamp, Text};
use query_lang::Names;
use std::alloc::Global;

// How many bytes most lines have room in.
const USUAL: u64 = 128;

/// The answer line of a group: `G <time> <capture> <record> key=<k,k,..> n=<members> <verdict>`, the
/// first three of its first member, the time in nanoseconds. Each capture in it has its name among
/// those of `names`.
pub fn answer_line(alloc: Global, names: &Names, answer: &Answer) -> Result<Text, OutOfMemory>
    requires first { answer.now.first.capture < length names.now.captures.items }
    requires verdict { IsNamedIn (length names.now.captures.items) answer.now.verdict }
    ensures { IfOk result (λ text. text.items ≡ answer_text names.now.captures.items answer.now) }
{
    let mut text = Text::with_room(alloc, USUAL)?;
    write_answer(&mut text, names, answer)?;
    Ok(text)
}

/// Puts the answer line of a group at the end of a text. It is refused for want of memory alone; then
/// the text is as it was.
pub fn push_answer_line(text: &mut Text, names: &Names, answer: &Answer) -> Result<(), OutOfMemory>
    requires first { answer.now.first.capture < length names.now.captures.items }
    requires verdict { IsNamedIn (length names.now.captures.items) answer.now.verdict }
    ensures pushed { OnOk result (text.new.items ≡ text.old.items ++ answer_text names.now.captures.items answer.now) }
    ensures refused { OnErr result (text.new.items ≡ text.old.items) }
{
    let line = answer_line(text.allocator(), names, answer)?;
    text.push_str(line.as_str())
}

/// Puts the parts of the line one after the other. Some of them may stand there where it is refused.
fn write_answer(text: &mut Text, names: &Names, answer: &Answer) -> Result<(), OutOfMemory>
    requires first { answer.now.first.capture < length names.now.captures.items }
    requires verdict { IsNamedIn (length names.now.captures.items) answer.now.verdict }
    ensures { OnOk result (text.new.items ≡ text.old.items ++ answer_text names.now.captures.items answer.now) }
{
    push_first(text, &names.captures, &answer.first)?;
    push_key(text, &answer.key)?;
    push_labelled(text, " n=", answer.members)?;
    text.push_str(" ")?;
    push_verdict(text, &names.captures, &answer.verdict)?;
    text.push_str("\n")?;
    Ok(())
}

/// Puts the beginning of an answer line: the time, the capture and the record of the first member.
fn push_first(text: &mut Text, captures: &NameList, first: &Stamp) -> Result<(), OutOfMemory>
    requires { first.now.capture < length captures.now.items }
    ensures { OnOk result (text.new.items ≡ text.old.items ++ first_text captures.now.items first.now) }
{
    push_labelled(text, "G ", first.time)?;
    push_named(text, " ", captures, first.capture)?;
    push_labelled(text, " ", first.number)
}

/// Puts the key of a group after its label.
fn push_key(text: &mut Text, key: &Nums) -> Result<(), OutOfMemory>
    ensures { OnOk result (text.new.items ≡ text.old.items ++ key_text key.now) }
{
    text.push_str(" key=")?;
    push_numbers(text, key)
}
