//! Each kind of field, written at the end of a buffer.
ghost use Rattle.std.specs.Prelude.{◌≡◌, ◌≤◌, ◌+◌, ◌++◌, [], ◌∷◌, length};
ghost use Rattle.node_frames.specs.Fields.{number, plain, stamp, numbers, truth, verdict, many};

use crate::Bytes8;
use ds_base::{Nums, Stamp, Verdict};

// The first byte of a frame or a verdict, which says what follows.
pub(crate) fn put_first(first: u8, out: &mut Bytes8)
    requires { 1 ≤ out.old.spare }
    ensures bytes { out.new.bytes ≡ out.old.bytes ++ first ∷ [] }
    ensures spare { out.new.spare + 1 ≡ out.old.spare }
    ensures room { length out.new.bytes + out.new.spare ≡ length out.old.bytes + out.old.spare }
{
    out.append(&[first]);
}

#[tactic(auto, unfolding(crate::specs::Fields::bytes_of))]
pub(crate) fn put_u8(n: u8, out: &mut Bytes8)
    requires { 1 ≤ out.old.spare }
    ensures bytes { out.new.bytes ≡ out.old.bytes ++ (number 1).spelling n }
    ensures fit { (number 1).IsFit n }
    ensures spare { out.new.spare + 1 ≡ out.old.spare }
    ensures room { length out.new.bytes + out.new.spare ≡ length out.old.bytes + out.old.spare }
{
    out.append(&[n]);
}

#[tactic(auto, unfolding(crate::specs::Fields::bytes_of))]
pub(crate) fn put_u32(n: u32, out: &mut Bytes8)
    requires { 4 ≤ out.old.spare }
    ensures bytes { out.new.bytes ≡ out.old.bytes ++ (number 4).spelling n }
    ensures fit { (number 4).IsFit n }
    ensures spare { out.new.spare + 4 ≡ out.old.spare }
    ensures room { length out.new.bytes + out.new.spare ≡ length out.old.bytes + out.old.spare }
{
    out.append(&n.to_be_bytes());
}

#[tactic(auto, unfolding(crate::specs::Fields::bytes_of))]
pub(crate) fn put_u64(n: u64, out: &mut Bytes8)
    requires { 8 ≤ out.old.spare }
    ensures bytes { out.new.bytes ≡ out.old.bytes ++ (number 8).spelling n }
    ensures fit { (number 8).IsFit n }
    ensures spare { out.new.spare + 8 ≡ out.old.spare }
    ensures room { length out.new.bytes + out.new.spare ≡ length out.old.bytes + out.old.spare }
{
    out.append(&n.to_be_bytes());
}

#[tactic(auto, unfolding(crate::specs::Fields::bytes_of))]
pub(crate) fn put_u128(n: u128, out: &mut Bytes8)
    requires { 16 ≤ out.old.spare }
    ensures bytes { out.new.bytes ≡ out.old.bytes ++ (number 16).spelling n }
    ensures fit { (number 16).IsFit n }
    ensures spare { out.new.spare + 16 ≡ out.old.spare }
    ensures room { length out.new.bytes + out.new.spare ≡ length out.old.bytes + out.old.spare }
{
    out.append(&n.to_be_bytes());
}

pub(crate) fn put_truth(b: bool, out: &mut Bytes8)
    requires { 1 ≤ out.old.spare }
    ensures bytes { out.new.bytes ≡ out.old.bytes ++ truth.spelling b }
    ensures spare { out.new.spare + 1 ≡ out.old.spare }
    ensures room { length out.new.bytes + out.new.spare ≡ length out.old.bytes + out.old.spare }
{
    out.append(&[if b { 1 } else { 0 }]);
}

pub(crate) fn put_stamp(at: &Stamp, out: &mut Bytes8)
    requires { 20 ≤ out.old.spare }
    ensures bytes { out.new.bytes ≡ out.old.bytes ++ stamp.spelling at.now }
    ensures fit { stamp.IsFit at.now }
    ensures spare { out.new.spare + 20 ≡ out.old.spare }
    ensures room { length out.new.bytes + out.new.spare ≡ length out.old.bytes + out.old.spare }
{
    put_u64(at.time, out);
    put_u32(at.capture, out);
    put_u64(at.number, out);
}

pub(crate) fn put_nums(nums: &Nums, out: &mut Bytes8)
    requires { 257 ≤ out.old.spare }
    ensures bytes { out.new.bytes ≡ out.old.bytes ++ numbers.spelling nums.now }
    ensures fit { numbers.IsFit nums.now }
    ensures spare { out.old.spare ≤ out.new.spare + 257 }
    ensures room { length out.new.bytes + out.new.spare ≡ length out.old.bytes + out.old.spare }
{
    let all = nums.as_slice();
    put_u8(all.len() as u8, out);
    put_all_u128(all, out);
}

// Numbers of 16 bytes, one after another.
#[tactic(auto, using(crate::proofs::Spelling::next_spelled))]
fn put_all_u128(all: &[u128], out: &mut Bytes8)
    requires few { length all.now ≤ 16 }
    requires room { 256 ≤ out.old.spare }
    ensures bytes { out.new.bytes ≡ out.old.bytes ++ (many (length all.now) (number 16)).spelling all.now }
    ensures fit { (many (length all.now) (number 16)).IsFit all.now }
    ensures spare { out.old.spare ≤ out.new.spare + 256 }
    ensures room { length out.new.bytes + out.new.spare ≡ length out.old.bytes + out.old.spare }
{
    for n in all {
        put_u128(*n, out);
    }
}

#[tactic(auto, using(crate::proofs::Spelling::next_spelled))]
pub(crate) fn put_classes(classes: &[u64; 64], out: &mut Bytes8)
    requires { 512 ≤ out.old.spare }
    ensures bytes { out.new.bytes ≡ out.old.bytes ++ (many 64 (number 8)).spelling classes.now }
    ensures fit { (many 64 (number 8)).IsFit classes.now }
    ensures spare { out.new.spare + 512 ≡ out.old.spare }
    ensures room { length out.new.bytes + out.new.spare ≡ length out.old.bytes + out.old.spare }
{
    for n in classes {
        put_u64(*n, out);
    }
}

pub(crate) fn put_digest(digest: &[u8; 32], out: &mut Bytes8)
    requires { 32 ≤ out.old.spare }
    ensures bytes { out.new.bytes ≡ out.old.bytes ++ (plain 32).spelling digest.now }
    ensures fit { (plain 32).IsFit digest.now }
    ensures spare { out.new.spare + 32 ≡ out.old.spare }
    ensures room { length out.new.bytes + out.new.spare ≡ length out.old.bytes + out.old.spare }
{
    out.append(digest);
}

pub(crate) fn put_verdict(said: &Verdict, out: &mut Bytes8)
    requires { 37 ≤ out.old.spare }
    ensures bytes { out.new.bytes ≡ out.old.bytes ++ verdict.spelling said.now }
    ensures fit { verdict.IsFit said.now }
    ensures spare { out.old.spare ≤ out.new.spare + 37 }
    ensures room { length out.new.bytes + out.new.spare ≡ length out.old.bytes + out.old.spare }
{
    match said {
        Verdict::Fine => put_first(0, out),
        Verdict::Loop { capture, high, low } => {
            put_first(1, out);
            put_u32(*capture, out);
            put_u128(*high, out);
            put_u128(*low, out);
        }
        Verdict::Dropped { capture } => {
            put_first(2, out);
            put_u32(*capture, out);
        }
        Verdict::Path { at } => {
            put_first(3, out);
            put_u64(*at, out);
        }
        Verdict::Rewrite { pair, rule } => {
            put_first(4, out);
            put_u64(*pair, out);
            put_u32(*rule, out);
        }
        Verdict::Value { n } => {
            put_first(5, out);
            put_u128(*n, out);
        }
        Verdict::Undefined => put_first(6, out),
    }
}
