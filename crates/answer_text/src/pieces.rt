//! What the lines are made of: numbers and names after their labels.

ghost use Rattle.std.specs.Prelude.{◌≡◌, ◌++◌, ◌<◌, length, map, OnOk};
ghost use Rattle.std.specs.Fmt.{decimal};
ghost use Rattle.answer_text.specs.Pieces.{labelled, behind, joined, name_of};

use ds_base::{NameList, Nums, OutOfMemory, Text};

/// Puts a number after its label.
pub fn push_labelled(text: &mut Text, label: &str, n: u64) -> Result<(), OutOfMemory>
    ensures { OnOk result (text.new.items ≡ text.old.items ++ labelled label.now n) }
{
    text.push_str(label)?;
    text.push_decimal(u128::from(n))
}

/// Puts a number, which may be a wide one, after its label.
pub fn push_wide(text: &mut Text, label: &str, n: u128) -> Result<(), OutOfMemory>
    ensures { OnOk result (text.new.items ≡ text.old.items ++ labelled label.now n) }
{
    text.push_str(label)?;
    text.push_decimal(n)
}

/// Puts the name of a capture after its label.
pub fn push_named(
    text: &mut Text,
    label: &str,
    captures: &NameList,
    capture: u32,
) -> Result<(), OutOfMemory>
    requires { capture < length captures.now.items }
    ensures { OnOk result (text.new.items ≡ text.old.items ++ (label.now ++ name_of captures.now.items capture)) }
{
    text.push_str(label)?;
    text.push_str(captures.get(u64::from(capture)).as_str())
}

/// Puts numbers at the end, in decimal with commas between them.
pub fn push_numbers(text: &mut Text, numbers: &Nums) -> Result<(), OutOfMemory>
    ensures { OnOk result (text.new.items ≡ text.old.items ++ joined (map decimal numbers.now)) }
{
    if numbers.len() == 0 {
        return Ok(());
    }
    text.push_decimal(numbers.get(0))?;
    for i in 1..numbers.len() {
        push_further(text, numbers.get(i))?;
    }
    Ok(())
}

/// Puts a number after others.
fn push_further(text: &mut Text, n: u128) -> Result<(), OutOfMemory>
    ensures { OnOk result (text.new.items ≡ text.old.items ++ behind (decimal n)) }
{
    text.push_str(",")?;
    text.push_decimal(n)
}
