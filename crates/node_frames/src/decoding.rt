//! The frame that bytes spell: one row of the table of frames a match arm, its fields in order.
ghost use Rattle.std.specs.Prelude.{◌≡◌, ℕ, Some, None, Ok, IfOk, OnErr};
ghost use Rattle.node_frames.specs.Table.{Spells, wire_in, row_in, item_in, mark_in, capture_end_in, group_head_in, member_in, group_mark_in, answer_row_in, profile_in, counts_row_in, seal_in};
ghost use Rattle.node_frames.specs.declared.wire.Wire.{Wire};
ghost use Rattle.node_frames.specs.declared.wire.Wire.TheVariants.{Plain, Sealed};

use crate::take::{
    take_classes, take_digest, take_nums, take_stamp, take_truth, take_u32, take_u64, take_u128,
    take_verdict,
};
use crate::{Frame, FrameFault, Seal, Wire};
use ds_base::{Answer, Counts, ProfileRow, Summary};

/// The frame that a payload spells. It is refused exactly where it spells none: its first byte is of no
/// row of the table, a field is cut short or has no such value, or something follows the last field. It
/// takes no memory.
pub fn decode(payload: &[u8]) -> Result<Wire, FrameFault>
    ensures spelled { IfOk result (λ wire. Spells wire payload.now) }
    ensures refused { OnErr result ((wire : Wire) → Spells wire payload.now → ⊥) }
    ensures only { (wire : Wire) → Spells wire payload.now → result ≡ Ok wire }
{
    decode_by_rows(payload)
}

// Nothing may follow the last field.
fn decode_by_rows(payload: &[u8]) -> Result<Wire, FrameFault>
    ensures read { IfOk result (λ wire. wire_in payload.now ≡ Some wire) }
    ensures refused { OnErr result (wire_in payload.now ≡ None) }
{
    let [first, bytes @ ..] = payload else {
        return Err(FrameFault);
    };
    match take_row(*first, bytes) {
        Ok((wire, [])) => Ok(wire),
        _ => Err(FrameFault),
    }
}

// A frame by its first byte, and the bytes after its last field.
fn take_row(first: u8, bytes: &[u8]) -> Result<(Wire, &[u8]), FrameFault>
    ensures read { IfOk result (λ x. row_in first bytes.now ≡ Some (x.0, x.1.now)) }
    ensures refused { OnErr result (row_in first bytes.now ≡ None) }
{
    match first {
        1 => take_item(bytes),
        2 => take_mark(bytes),
        3 => take_capture_end(bytes),
        4 => take_group_head(bytes),
        5 => take_member(bytes),
        6 => take_group_mark(bytes),
        7 => take_answer_row(bytes),
        8 => take_profile(bytes),
        9 => take_counts_row(bytes),
        11 => take_seal(bytes),
        _ => Err(FrameFault),
    }
}

fn take_item(bytes: &[u8]) -> Result<(Wire, &[u8]), FrameFault>
    ensures read { IfOk result (λ x. item_in bytes.now ≡ Some (x.0, x.1.now)) }
    ensures refused { OnErr result (item_in bytes.now ≡ None) }
{
    let (at, rest) = take_stamp(bytes)?;
    let Ok((key, rest)) = take_nums(rest) else {
        return Err(FrameFault);
    };
    let Ok((vals, rest)) = take_nums(rest) else {
        return Err(FrameFault);
    };
    Ok((Wire::Plain(Frame::Item(Summary { at, key, vals })), rest))
}

fn take_mark(bytes: &[u8]) -> Result<(Wire, &[u8]), FrameFault>
    ensures read { IfOk result (λ x. mark_in bytes.now ≡ Some (x.0, x.1.now)) }
    ensures refused { OnErr result (mark_in bytes.now ≡ None) }
{
    let (capture, rest) = take_u32(bytes)?;
    let (mark, rest) = take_u64(rest)?;
    Ok((Wire::Plain(Frame::Mark { capture, mark }), rest))
}

fn take_capture_end(bytes: &[u8]) -> Result<(Wire, &[u8]), FrameFault>
    ensures read { IfOk result (λ x. capture_end_in bytes.now ≡ Some (x.0, x.1.now)) }
    ensures refused { OnErr result (capture_end_in bytes.now ≡ None) }
{
    let (capture, rest) = take_u32(bytes)?;
    Ok((Wire::Plain(Frame::CaptureEnd { capture }), rest))
}

fn take_group_head(bytes: &[u8]) -> Result<(Wire, &[u8]), FrameFault>
    ensures read { IfOk result (λ x. group_head_in bytes.now ≡ Some (x.0, x.1.now)) }
    ensures refused { OnErr result (group_head_in bytes.now ≡ None) }
{
    let (first, rest) = take_stamp(bytes)?;
    let (members, rest) = take_u64(rest)?;
    let Ok((key, rest)) = take_nums(rest) else {
        return Err(FrameFault);
    };
    Ok((
        Wire::Plain(Frame::GroupHead {
            first,
            members,
            key,
        }),
        rest,
    ))
}

fn take_member(bytes: &[u8]) -> Result<(Wire, &[u8]), FrameFault>
    ensures read { IfOk result (λ x. member_in bytes.now ≡ Some (x.0, x.1.now)) }
    ensures refused { OnErr result (member_in bytes.now ≡ None) }
{
    let (at, rest) = take_stamp(bytes)?;
    let Ok((vals, rest)) = take_nums(rest) else {
        return Err(FrameFault);
    };
    Ok((Wire::Plain(Frame::Member { at, vals }), rest))
}

fn take_group_mark(bytes: &[u8]) -> Result<(Wire, &[u8]), FrameFault>
    ensures read { IfOk result (λ x. group_mark_in bytes.now ≡ Some (x.0, x.1.now)) }
    ensures refused { OnErr result (group_mark_in bytes.now ≡ None) }
{
    let (mark, rest) = take_u64(bytes)?;
    Ok((Wire::Plain(Frame::GroupMark { mark }), rest))
}

fn take_answer_row(bytes: &[u8]) -> Result<(Wire, &[u8]), FrameFault>
    ensures read { IfOk result (λ x. answer_row_in bytes.now ≡ Some (x.0, x.1.now)) }
    ensures refused { OnErr result (answer_row_in bytes.now ≡ None) }
{
    let (first, rest) = take_stamp(bytes)?;
    let Ok((key, rest)) = take_nums(rest) else {
        return Err(FrameFault);
    };
    let (members, rest) = take_u64(rest)?;
    let (verdict, rest) = take_verdict(rest)?;
    Ok((
        Wire::Plain(Frame::AnswerRow(Answer {
            first,
            key,
            members,
            verdict,
        })),
        rest,
    ))
}

fn take_profile(bytes: &[u8]) -> Result<(Wire, &[u8]), FrameFault>
    ensures read { IfOk result (λ x. profile_in bytes.now ≡ Some (x.0, x.1.now)) }
    ensures refused { OnErr result (profile_in bytes.now ≡ None) }
{
    let (from, rest) = take_u32(bytes)?;
    let (to, rest) = take_u32(rest)?;
    let (count, rest) = take_u64(rest)?;
    let (sum, rest) = take_u128(rest)?;
    let (least, rest) = take_u64(rest)?;
    let (greatest, rest) = take_u64(rest)?;
    let (classes, rest) = take_classes(rest)?;
    Ok((
        Wire::Plain(Frame::Profile(ProfileRow {
            from,
            to,
            count,
            sum,
            least,
            greatest,
            classes,
        })),
        rest,
    ))
}

fn take_counts_row(bytes: &[u8]) -> Result<(Wire, &[u8]), FrameFault>
    ensures read { IfOk result (λ x. counts_row_in bytes.now ≡ Some (x.0, x.1.now)) }
    ensures refused { OnErr result (counts_row_in bytes.now ≡ None) }
{
    let (capture, rest) = take_u32(bytes)?;
    let (records, rest) = take_u64(rest)?;
    let (unmatched, rest) = take_u64(rest)?;
    let (late, rest) = take_u64(rest)?;
    let (accepted, rest) = take_u64(rest)?;
    let (cut, rest) = take_truth(rest)?;
    Ok((
        Wire::Plain(Frame::CountsRow {
            capture,
            counts: Counts {
                records,
                unmatched,
                late,
                accepted,
                cut,
            },
        }),
        rest,
    ))
}

fn take_seal(bytes: &[u8]) -> Result<(Wire, &[u8]), FrameFault>
    ensures read { IfOk result (λ x. seal_in bytes.now ≡ Some (x.0, x.1.now)) }
    ensures refused { OnErr result (seal_in bytes.now ≡ None) }
{
    let (frames, rest) = take_u64(bytes)?;
    let (digest, rest) = take_digest(rest)?;
    Ok((Wire::Sealed(Seal { frames, digest }), rest))
}
