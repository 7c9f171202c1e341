//! The words of a verdict.

ghost use Rattle.std.specs.Prelude.{◌≡◌, ◌++◌, length, OnOk};
ghost use Rattle.answer_text.specs.Lines.{verdict_text, IsNamedIn};

use crate::pieces::{push_labelled, push_named, push_wide};
use ds_base::{NameList, OutOfMemory, Text, Verdict};

/// Puts the words of a verdict at the end. Each capture in it has its name among `captures`.
pub fn push_verdict(
    text: &mut Text,
    captures: &NameList,
    verdict: &Verdict,
) -> Result<(), OutOfMemory>
    requires { IsNamedIn (length captures.now.items) verdict.now }
    ensures { OnOk result (text.new.items ≡ text.old.items ++ verdict_text captures.now.items verdict.now) }
{
    match *verdict {
        Verdict::Fine => text.push_str("ok"),
        Verdict::Loop { capture, high, low } => {
            push_named(text, "loop ", captures, capture)?;
            push_wide(text, " ", high)?;
            push_wide(text, " ", low)
        }
        Verdict::Dropped { capture } => push_named(text, "drop ", captures, capture),
        Verdict::Path { at } => push_labelled(text, "path ", at),
        Verdict::Rewrite { pair, rule } => {
            push_labelled(text, "rewrite ", pair)?;
            push_labelled(text, " ", u64::from(rule))
        }
        Verdict::Value { n } => push_wide(text, "value ", n),
        Verdict::Undefined => text.push_str("undefined"),
    }
}
