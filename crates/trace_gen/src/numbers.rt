//! Bytes and numbers, written at the end of a file.

ghost use Rattle.std.specs.Prelude.{◌≡◌, ◌++◌, ◌<◌, ◌^◌, OnOk};
ghost use Rattle.trace_gen.specs.Numbers.{big, little};

use ds_base::OutOfMemory;

/// Puts bytes at the end.
pub(crate) fn put(out: &mut Vec<u8>, bytes: &[u8]) -> Result<(), OutOfMemory>
    ensures { OnOk result (out.new.items ≡ out.old.items ++ bytes.now) }
{
    match out.extend_from_slice(bytes) {
        Ok(()) => Ok(()),
        Err(_) => Err(OutOfMemory),
    }
}

/// Puts the two bytes of a number, the highest first.
#[tactic(auto, unfolding(crate::specs::Numbers::big))]
pub(crate) fn put_half(out: &mut Vec<u8>, n: u16) -> Result<(), OutOfMemory>
    ensures { OnOk result (out.new.items ≡ out.old.items ++ big 2 n) }
{
    put(out, &n.to_be_bytes())
}

/// Puts the three lower bytes of a number, the highest first.
#[tactic(auto, unfolding(crate::specs::Numbers::big))]
pub(crate) fn put_three(out: &mut Vec<u8>, n: u32) -> Result<(), OutOfMemory>
    ensures { OnOk result (out.new.items ≡ out.old.items ++ big 3 n) }
{
    put(out, &n.to_be_bytes()[1..])
}

/// Puts the four bytes of a number, the highest first.
#[tactic(auto, unfolding(crate::specs::Numbers::big))]
pub(crate) fn put_word(out: &mut Vec<u8>, n: u32) -> Result<(), OutOfMemory>
    ensures { OnOk result (out.new.items ≡ out.old.items ++ big 4 n) }
{
    put(out, &n.to_be_bytes())
}

/// Puts the two bytes of a number, the lowest first.
#[tactic(auto, unfolding(crate::specs::Numbers::little))]
pub(crate) fn put_little_half(out: &mut Vec<u8>, n: u16) -> Result<(), OutOfMemory>
    ensures { OnOk result (out.new.items ≡ out.old.items ++ little 2 n) }
{
    put(out, &n.to_le_bytes())
}

/// Puts the four bytes of a number, the lowest first.
#[tactic(auto, unfolding(crate::specs::Numbers::little))]
pub(crate) fn put_little_word(out: &mut Vec<u8>, n: u32) -> Result<(), OutOfMemory>
    ensures { OnOk result (out.new.items ≡ out.old.items ++ little 4 n) }
{
    put(out, &n.to_le_bytes())
}
