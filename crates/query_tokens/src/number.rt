//! Numbers: decimal, hexadecimal, and four octets with dots.

ghost use Rattle.std.specs.Prelude.{◌≡◌, ◌≤◌, ◌<◌, ◌^◌, ◌-◌, length, option_map, SomeIff, IsTrue, slice_index, ◌+◌, ◌*◌};
ghost use Rattle.query_tokens.specs.Numbers.{is_digit, is_letter, is_number_byte, numeral, hexadecimal, octet, is_dot, octet_and_dot, dotted, number_of};
ghost use Rattle.std.specs.Char.{digit_value};
ghost use Rattle.std.specs.List.{position_or_len, prefix_len};

/// Whether a byte is a digit: `0-9`.
pub fn is_digit(byte: u8) -> bool
    ensures { result ≡ is_digit byte }
{
    byte >= b'0' && byte <= b'9'
}

/// Whether a byte is a letter: `A-Z a-z`.
pub(crate) fn is_letter(byte: u8) -> bool
    ensures { result ≡ is_letter byte }
{
    (byte >= b'A' && byte <= b'Z') || (byte >= b'a' && byte <= b'z')
}

/// Whether a token that begins with a digit goes on over this byte: digits, letters and `.`.
pub fn is_number_byte(byte: u8) -> bool
    ensures { result ≡ is_number_byte byte }
{
    is_digit(byte) || is_letter(byte) || byte == b'.'
}

// The digit that a byte is in base 36, or 36.
fn digit_value(byte: u8) -> u8
    ensures { result ≡ digit_value byte }
{
    match byte {
        b'0'..=b'9' => byte - b'0',
        b'A'..=b'Z' => byte - 55,
        b'a'..=b'z' => byte - 87,
        _ => 36,
    }
}

// The number with one digit more behind it, below 2^128.
fn with_digit(n: u128, base: u8, digit: u8) -> Option<u128>
    ensures { SomeIff result (n * base + digit < 2 ^ 128) (n * base + digit) }
{
    n.checked_mul(u128::from(base))?
        .checked_add(u128::from(digit))
}

// The number that digits of this base write, if they are such and it is at most `most`.
#[tactic(auto, using(crate::proofs::Numerals::reads_over, crate::proofs::Numerals::reads_bad, crate::proofs::Numerals::reads_all, crate::proofs::Numerals::reads_more))]
fn numeral(digits: &[u8], base: u8, most: u128) -> Option<u128>
    requires { 1 ≤ base }
    ensures { result ≡ numeral base most digits.now }
{
    let mut n: u128 = 0;
    for byte in digits {
        let digit = digit_value(*byte);
        if digit >= base {
            return None;
        }
        let Some(longer) = with_digit(n, base, digit) else {
            return None;
        };
        n = longer;
    }
    if n <= most { Some(n) } else { None }
}

// `0x` with 1 to 32 hexadecimal digits.
fn hexadecimal(run: &[u8]) -> Option<u128>
    ensures { result ≡ hexadecimal run.now }
{
    if run.len() >= 3 && run.len() <= 34 && run[0] == b'0' && run[1] == b'x' {
        numeral(&run[2..], 16, u128::MAX)
    } else {
        None
    }
}

// A decimal number of 1 to 3 digits, at most 255.
fn octet(digits: &[u8]) -> Option<u128>
    ensures { result ≡ octet digits.now }
{
    if digits.len() >= 1 && digits.len() <= 3 {
        numeral(digits, 10, 255)
    } else {
        None
    }
}

/// How many digits, letters and dots the bytes begin with.
#[tactic(auto, using(crate::proofs::Prefixes::prefix_len_positive))]
pub(crate) fn number_length(bytes: &[u8]) -> usize
    ensures length { result ≡ prefix_len is_number_byte bytes.now }
    ensures some { 0 < length bytes.now → IsTrue (is_digit (slice_index bytes.now 0)) → 0 < result }
    ensures within { result ≤ length bytes.now }
{
    for (i, byte) in bytes.iter().enumerate() {
        if !is_number_byte(*byte) {
            return i;
        }
    }
    bytes.len()
}

// How many bytes stand before the first dot.
fn before_dot(run: &[u8]) -> usize
    ensures { result ≡ position_or_len is_dot run.now }
{
    for (i, byte) in run.iter().enumerate() {
        if *byte == b'.' {
            return i;
        }
    }
    run.len()
}

// An octet and a dot, and what stands behind that dot.
fn octet_and_dot(run: &[u8]) -> Option<(u128, &[u8])>
    ensures { option_map (λ found. (found.0, found.1.now)) result ≡ octet_and_dot run.now }
{
    let dot = before_dot(run);
    if dot < run.len() {
        let n = octet(&run[..dot])?;
        Some((n, &run[dot + 1..]))
    } else {
        None
    }
}

// Four octets with dots between them, as the number of the four bytes, big-endian.
fn dotted(run: &[u8]) -> Option<u128>
    ensures { result ≡ dotted run.now }
{
    let (first, rest) = octet_and_dot(run)?;
    let (second, rest) = octet_and_dot(rest)?;
    let (third, rest) = octet_and_dot(rest)?;
    let fourth = octet(rest)?;
    Some(((first * 256 + second) * 256 + third) * 256 + fourth)
}

/// The number of a token that begins with a digit, if it has a lawful form.
pub(crate) fn number_of(run: &[u8]) -> Option<u128>
    ensures { result ≡ number_of run.now }
{
    match numeral(run, 10, u128::MAX) {
        Some(n) => Some(n),
        None => match hexadecimal(run) {
            Some(n) => Some(n),
            None => dotted(run),
        },
    }
}
