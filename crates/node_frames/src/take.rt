//! Each kind of field, read from the front of bytes: the value, and the bytes after it.
ghost use Rattle.std.specs.Prelude.{◌≡◌, Some, None, IfOk, OnErr};
ghost use Rattle.node_frames.specs.Fields.{number, plain, stamp, numbers, truth, verdict, verdict_of, many, read_counted};

use crate::{Digest, FrameFault};
use byteorder::{BigEndian, ByteOrder};
use ds_base::{Nums, Stamp, Verdict};

#[tactic(auto, unfolding(crate::specs::Fields::number_in))]
pub(crate) fn take_u8(bytes: &[u8]) -> Result<(u8, &[u8]), FrameFault>
    ensures read { IfOk result (λ x. (number 1).read bytes.now ≡ Some (x.0, x.1.now)) }
    ensures refused { OnErr result ((number 1).read bytes.now ≡ None) }
{
    if bytes.is_empty() {
        return Err(FrameFault);
    }
    Ok((bytes[0], bytes.split_at(1).1))
}

#[tactic(auto, unfolding(crate::specs::Fields::number_in))]
pub(crate) fn take_u32(bytes: &[u8]) -> Result<(u32, &[u8]), FrameFault>
    ensures read { IfOk result (λ x. (number 4).read bytes.now ≡ Some (x.0, x.1.now)) }
    ensures refused { OnErr result ((number 4).read bytes.now ≡ None) }
{
    if bytes.len() < 4 {
        return Err(FrameFault);
    }
    Ok((BigEndian::read_u32(bytes), bytes.split_at(4).1))
}

#[tactic(auto, unfolding(crate::specs::Fields::number_in))]
pub(crate) fn take_u64(bytes: &[u8]) -> Result<(u64, &[u8]), FrameFault>
    ensures read { IfOk result (λ x. (number 8).read bytes.now ≡ Some (x.0, x.1.now)) }
    ensures refused { OnErr result ((number 8).read bytes.now ≡ None) }
{
    if bytes.len() < 8 {
        return Err(FrameFault);
    }
    Ok((BigEndian::read_u64(bytes), bytes.split_at(8).1))
}

#[tactic(auto, unfolding(crate::specs::Fields::number_in))]
pub(crate) fn take_u128(bytes: &[u8]) -> Result<(u128, &[u8]), FrameFault>
    ensures read { IfOk result (λ x. (number 16).read bytes.now ≡ Some (x.0, x.1.now)) }
    ensures refused { OnErr result ((number 16).read bytes.now ≡ None) }
{
    if bytes.len() < 16 {
        return Err(FrameFault);
    }
    Ok((BigEndian::read_u128(bytes), bytes.split_at(16).1))
}

pub(crate) fn take_truth(bytes: &[u8]) -> Result<(bool, &[u8]), FrameFault>
    ensures read { IfOk result (λ x. truth.read bytes.now ≡ Some (x.0, x.1.now)) }
    ensures refused { OnErr result (truth.read bytes.now ≡ None) }
{
    let (n, rest) = take_u8(bytes)?;
    if n == 0 {
        return Ok((false, rest));
    }
    if n == 1 {
        return Ok((true, rest));
    }
    Err(FrameFault)
}

pub(crate) fn take_digest(bytes: &[u8]) -> Result<(Digest, &[u8]), FrameFault>
    ensures read { IfOk result (λ x. (plain 32).read bytes.now ≡ Some (x.0.bytes, x.1.now)) }
    ensures refused { OnErr result ((plain 32).read bytes.now ≡ None) }
{
    if bytes.len() < 32 {
        return Err(FrameFault);
    }
    let (front, rest) = bytes.split_at(32);
    let mut digest = [0; 32];
    digest.copy_from_slice(front);
    Ok((Digest { bytes: digest }, rest))
}

pub(crate) fn take_stamp(bytes: &[u8]) -> Result<(Stamp, &[u8]), FrameFault>
    ensures read { IfOk result (λ x. stamp.read bytes.now ≡ Some (x.0, x.1.now)) }
    ensures refused { OnErr result (stamp.read bytes.now ≡ None) }
{
    let (time, rest) = take_u64(bytes)?;
    let (capture, rest) = take_u32(rest)?;
    let (number, rest) = take_u64(rest)?;
    let at = Stamp {
        time,
        capture,
        number,
    };
    Ok((at, rest))
}

pub(crate) fn take_verdict(bytes: &[u8]) -> Result<(Verdict, &[u8]), FrameFault>
    ensures read { IfOk result (λ x. verdict.read bytes.now ≡ Some (x.0, x.1.now)) }
    ensures refused { OnErr result (verdict.read bytes.now ≡ None) }
{
    let (first, rest) = take_u8(bytes)?;
    verdict_by(first, rest)
}

// A verdict of this number.
fn verdict_by(first: u8, bytes: &[u8]) -> Result<(Verdict, &[u8]), FrameFault>
    ensures read { IfOk result (λ x. verdict_of first bytes.now ≡ Some (x.0, x.1.now)) }
    ensures refused { OnErr result (verdict_of first bytes.now ≡ None) }
{
    match first {
        0 => Ok((Verdict::Fine, bytes)),
        1 => {
            let (capture, rest) = take_u32(bytes)?;
            let (high, rest) = take_u128(rest)?;
            let (low, rest) = take_u128(rest)?;
            Ok((Verdict::Loop { capture, high, low }, rest))
        }
        2 => {
            let (capture, rest) = take_u32(bytes)?;
            Ok((Verdict::Dropped { capture }, rest))
        }
        3 => {
            let (at, rest) = take_u64(bytes)?;
            Ok((Verdict::Path { at }, rest))
        }
        4 => {
            let (pair, rest) = take_u64(bytes)?;
            let (rule, rest) = take_u32(rest)?;
            Ok((Verdict::Rewrite { pair, rule }, rest))
        }
        5 => {
            let (n, rest) = take_u128(bytes)?;
            Ok((Verdict::Value { n }, rest))
        }
        6 => Ok((Verdict::Undefined, bytes)),
        _ => Err(FrameFault),
    }
}

pub(crate) fn take_nums(bytes: &[u8]) -> Result<(Nums, &[u8]), FrameFault>
    ensures read { IfOk result (λ x. numbers.read bytes.now ≡ Some (x.0, x.1.now)) }
    ensures refused { OnErr result (numbers.read bytes.now ≡ None) }
{
    let (count, rest) = take_u8(bytes)?;
    take_counted(count, rest)
}

// So many numbers, of which there may be 16.
fn take_counted(count: u8, bytes: &[u8]) -> Result<(Nums, &[u8]), FrameFault>
    ensures read { IfOk result (λ x. read_counted count bytes.now ≡ Some (x.0, x.1.now)) }
    ensures refused { OnErr result (read_counted count bytes.now ≡ None) }
{
    if count > 16 {
        return Err(FrameFault);
    }
    let mut nums = Nums::new();
    let mut rest = bytes;
    for i in 0..count {
        match take_u128(rest) {
            Ok((n, after)) => {
                nums.push(n);
                rest = after;
            }
            Err(fault) => return Err(fault),
        }
    }
    Ok((nums, rest))
}

pub(crate) fn take_classes(bytes: &[u8]) -> Result<([u64; 64], &[u8]), FrameFault>
    ensures read { IfOk result (λ x. (many 64 (number 8)).read bytes.now ≡ Some (x.0, x.1.now)) }
    ensures refused { OnErr result ((many 64 (number 8)).read bytes.now ≡ None) }
{
    let mut classes = [0; 64];
    let mut rest = bytes;
    for i in 0..64 {
        match take_u64(rest) {
            Ok((n, after)) => {
                classes[i] = n;
                rest = after;
            }
            Err(fault) => return Err(fault),
        }
    }
    Ok((classes, rest))
}
