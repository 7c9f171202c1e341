//! The bytes of frames: one row of the table of frames a match arm, its fields in order.
ghost use Rattle.std.specs.Prelude.{◌≡◌, ◌≤◌, ◌+◌, ◌++◌, length};
ghost use Rattle.node_frames.specs.Fields.{bytes_of};
ghost use Rattle.node_frames.specs.Table.{row_of, payload_of, Spells, CanStand};
ghost use Rattle.node_frames.specs.declared.wire.Wire.TheVariants.{Plain, Sealed};
ghost use Rattle.node_frames.specs.declared.frame.Frame.TheVariants.{Item, AnswerRow, Profile, CountsRow};

use crate::put::{
    put_classes, put_digest, put_first, put_nums, put_stamp, put_truth, put_u32, put_u64, put_u128,
    put_verdict,
};
use crate::{Bytes8, Frame, Seal, Wire};
use ds_base::{Answer, Counts, ProfileRow, Summary};

/// Appends the one spelling of a frame, after its length in four bytes. The end of a link stands there as
/// its seal, so the frame is no plain `Finish`; and 1,028 bytes are spare. It takes no memory.
pub fn encode(wire: &Wire, out: &mut Bytes8)
    requires room { 1028 ≤ out.old.spare }
    requires stands { CanStand wire.now }
    ensures spells { Spells wire.now (payload_of wire.now) }
    ensures length { (1 ≤ length (payload_of wire.now)) × (length (payload_of wire.now) ≤ 1024) }
    ensures bytes { out.new.bytes ≡ out.old.bytes ++ (bytes_of 4 (length (payload_of wire.now)) ++ payload_of wire.now) }
    ensures spare { out.new.spare + (4 + length (payload_of wire.now)) ≡ out.old.spare }
{
    let at = out.len();
    out.append(&[0; 4]);
    put_wire(wire, out);
    let len = out.len() - at - 4;
    out.set_number(at, len as u32);
}

fn put_wire(wire: &Wire, out: &mut Bytes8)
    requires room { 1024 ≤ out.old.spare }
    requires stands { CanStand wire.now }
    ensures bytes { out.new.bytes ≡ out.old.bytes ++ (row_of wire.now).spelled }
    ensures fit { (row_of wire.now).IsFit }
    ensures some { out.new.spare + 1 ≤ out.old.spare }
    ensures most { out.old.spare ≤ out.new.spare + 1024 }
    ensures room { length out.new.bytes + out.new.spare ≡ length out.old.bytes + out.old.spare }
{
    match wire {
        Wire::Plain(frame) => put_frame(frame, out),
        Wire::Sealed(seal) => put_seal(seal, out),
    }
}

fn put_frame(frame: &Frame, out: &mut Bytes8)
    requires room { 1024 ≤ out.old.spare }
    requires stands { CanStand (Plain frame.now) }
    ensures bytes { out.new.bytes ≡ out.old.bytes ++ (row_of (Plain frame.now)).spelled }
    ensures fit { (row_of (Plain frame.now)).IsFit }
    ensures some { out.new.spare + 1 ≤ out.old.spare }
    ensures most { out.old.spare ≤ out.new.spare + 1024 }
    ensures room { length out.new.bytes + out.new.spare ≡ length out.old.bytes + out.old.spare }
{
    match frame {
        Frame::Item(summary) => put_item(summary, out),
        Frame::Mark { capture, mark } => {
            put_first(2, out);
            put_u32(*capture, out);
            put_u64(*mark, out);
        }
        Frame::CaptureEnd { capture } => {
            put_first(3, out);
            put_u32(*capture, out);
        }
        Frame::GroupHead {
            first,
            members,
            key,
        } => {
            put_first(4, out);
            put_stamp(first, out);
            put_u64(*members, out);
            put_nums(key, out);
        }
        Frame::Member { at, vals } => {
            put_first(5, out);
            put_stamp(at, out);
            put_nums(vals, out);
        }
        Frame::GroupMark { mark } => {
            put_first(6, out);
            put_u64(*mark, out);
        }
        Frame::AnswerRow(answer) => put_answer(answer, out),
        Frame::Profile(profile) => put_profile(profile, out),
        Frame::CountsRow { capture, counts } => put_counts(*capture, counts, out),
        Frame::Finish => {}
    }
}

fn put_item(summary: &Summary, out: &mut Bytes8)
    requires room { 1024 ≤ out.old.spare }
    ensures bytes { out.new.bytes ≡ out.old.bytes ++ (row_of (Plain (Item summary.now))).spelled }
    ensures fit { (row_of (Plain (Item summary.now))).IsFit }
    ensures some { out.new.spare + 1 ≤ out.old.spare }
    ensures most { out.old.spare ≤ out.new.spare + 1024 }
    ensures room { length out.new.bytes + out.new.spare ≡ length out.old.bytes + out.old.spare }
{
    put_first(1, out);
    put_stamp(&summary.at, out);
    put_nums(&summary.key, out);
    put_nums(&summary.vals, out);
}

fn put_answer(answer: &Answer, out: &mut Bytes8)
    requires room { 1024 ≤ out.old.spare }
    ensures bytes { out.new.bytes ≡ out.old.bytes ++ (row_of (Plain (AnswerRow answer.now))).spelled }
    ensures fit { (row_of (Plain (AnswerRow answer.now))).IsFit }
    ensures some { out.new.spare + 1 ≤ out.old.spare }
    ensures most { out.old.spare ≤ out.new.spare + 1024 }
    ensures room { length out.new.bytes + out.new.spare ≡ length out.old.bytes + out.old.spare }
{
    put_first(7, out);
    put_stamp(&answer.first, out);
    put_nums(&answer.key, out);
    put_u64(answer.members, out);
    put_verdict(&answer.verdict, out);
}

fn put_profile(profile: &ProfileRow, out: &mut Bytes8)
    requires room { 1024 ≤ out.old.spare }
    ensures bytes { out.new.bytes ≡ out.old.bytes ++ (row_of (Plain (Profile profile.now))).spelled }
    ensures fit { (row_of (Plain (Profile profile.now))).IsFit }
    ensures some { out.new.spare + 1 ≤ out.old.spare }
    ensures most { out.old.spare ≤ out.new.spare + 1024 }
    ensures room { length out.new.bytes + out.new.spare ≡ length out.old.bytes + out.old.spare }
{
    put_first(8, out);
    put_u32(profile.from, out);
    put_u32(profile.to, out);
    put_u64(profile.count, out);
    put_u128(profile.sum, out);
    put_u64(profile.least, out);
    put_u64(profile.greatest, out);
    put_classes(&profile.classes, out);
}

fn put_counts(capture: u32, counts: &Counts, out: &mut Bytes8)
    requires room { 1024 ≤ out.old.spare }
    ensures bytes { out.new.bytes ≡ out.old.bytes ++ (row_of (Plain (CountsRow capture counts.now))).spelled }
    ensures fit { (row_of (Plain (CountsRow capture counts.now))).IsFit }
    ensures some { out.new.spare + 1 ≤ out.old.spare }
    ensures most { out.old.spare ≤ out.new.spare + 1024 }
    ensures room { length out.new.bytes + out.new.spare ≡ length out.old.bytes + out.old.spare }
{
    put_first(9, out);
    put_u32(capture, out);
    put_u64(counts.records, out);
    put_u64(counts.unmatched, out);
    put_u64(counts.late, out);
    put_u64(counts.accepted, out);
    put_truth(counts.cut, out);
}

fn put_seal(seal: &Seal, out: &mut Bytes8)
    requires room { 1024 ≤ out.old.spare }
    ensures bytes { out.new.bytes ≡ out.old.bytes ++ (row_of (Sealed seal.now)).spelled }
    ensures fit { (row_of (Sealed seal.now)).IsFit }
    ensures some { out.new.spare + 1 ≤ out.old.spare }
    ensures most { out.old.spare ≤ out.new.spare + 1024 }
    ensures room { length out.new.bytes + out.new.spare ≡ length out.old.bytes + out.old.spare }
{
    put_first(11, out);
    put_u64(seal.frames, out);
    put_digest(&seal.digest.bytes, out);
}
