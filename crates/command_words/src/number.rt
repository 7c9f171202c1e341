//! Numbers of the command line.

ghost use Rattle.std.specs.Prelude.{◌≡◌, ◌<◌, ◌^◌, ℕ, IfSome, IfNone};
ghost use Rattle.command_words.specs.Kinds.{IsNumber};

/// The number that 1 to 20 decimal digits say, below 10^20. None for every other word.
pub(crate) fn number(word: &str) -> Option<u128>
    ensures said { IfSome result (IsNumber word.now) }
    ensures only { (n : ℕ) → IsNumber word.now n → result ≡ Some n }
{
    let digits = word.as_bytes();
    if digits.is_empty() || digits.len() > 20 {
        return None;
    }
    let mut n: u128 = 0;
    for digit in digits {
        if !digit.is_ascii_digit() {
            return None;
        }
        n = n * 10 + u128::from(*digit - b'0');
    }
    Some(n)
}
