//! The rows of captures: a name, a file, an offset, a skew and an interface each.

ghost use Rattle.std.specs.Prelude.{◌≡◌, ◌+◌, ◌≤◌, ◌<◌, [], ◌∷◌, length, All, IfOk, IfSome, OnOk, unsigned_abs};
ghost use Rattle.std.specs.List.{list_any};
ghost use Rattle.std.specs.Result.{result_map_both};
ghost use Rattle.serde_json.specs.View.{view, members_view};
ghost use Rattle.job_values.specs.Parsed.{shown};
ghost use Rattle.job_values.specs.Said.{Answers};
ghost use Rattle.job_values.specs.Values.{no_stray};
ghost use Rattle.job_values.specs.declared.member.Member.TheVariants.{Captures};
ghost use Rattle.job_table.specs.Limits.{longest, last_interface};
ghost use Rattle.job_table.specs.Table.{capture_name, capture_file, has_zero, capture_members, capture, captures, captured_of};

use crate::capture_lists::{CaptureLists, InterfaceList, OffsetList, OwnSkewList};
use crate::clock_rows::{capture_offset, capture_skew};
use crate::interface_row::capture_interface;
use crate::rules::{copied, element, in_limits, is_among, is_identifier, listed, put};
use ds_base::NameList;
use job_values::{
    JobFault, JobWhat, Member, ReadJobFault, fault_at, needed, no_stray, object, text,
};
use serde_json::{Map, Value};
use std::alloc::Global;

/// What the captures declare, in the order of their numbers. Which members a capture may have goes by
/// the version of the declaration.
pub fn captures(alloc: Global, value: &Value, version: u32) -> Result<CaptureLists, ReadJobFault>
    ensures answer { Answers captured_of (captures version (view value.now)) result }
    ensures counts { IfOk result (λ found. (1 ≤ length found.names.items) × (length found.names.items ≤ 64)) }
    ensures files { IfOk result (λ found. length found.files.items ≡ length found.names.items) }
    ensures offsets { IfOk result (λ found. length found.offsets.items ≡ length found.names.items) }
    ensures offset_limits { IfOk result (λ found. All (λ offset. unsigned_abs offset ≤ longest) found.offsets.items) }
    ensures own_skews { IfOk result (λ found. length found.own_skews.items ≡ length found.names.items) }
    ensures skew_limits { IfOk result (λ found. All (λ own. IfSome own (λ skew. skew ≤ longest)) found.own_skews.items) }
    ensures interfaces { IfOk result (λ found. length found.interfaces.items ≡ length found.names.items) }
    ensures interface_limits { IfOk result (λ found. All (λ own. IfSome own (λ n. n ≤ last_interface)) found.interfaces.items) }
{
    let found = needed(value, "captures", Member::Captures, 0)?;
    let list = listed(found, 1, 64, Member::Captures, 0)?;
    let mut lists = CaptureLists {
        names: NameList::new(alloc),
        files: NameList::new(alloc),
        offsets: OffsetList::new(alloc),
        own_skews: OwnSkewList::new(alloc),
        interfaces: InterfaceList::new(alloc),
    };
    for i in 0..list.len() {
        capture(alloc, element(list, i), version, &mut lists)?;
    }
    Ok(lists)
}

// Puts the next capture at the end of the lists.
fn capture(
    alloc: Global,
    value: &Value,
    version: u32,
    lists: &mut CaptureLists,
) -> Result<(), ReadJobFault>
    requires { length lists.old.names.items < 64 }
    ensures answer { Answers (λ _. captured_of lists.new) (capture version (captured_of lists.old) (view value.now)) result }
    ensures names { OnOk result (length lists.new.names.items ≡ length lists.old.names.items + 1) }
    ensures files { OnOk result (length lists.new.files.items ≡ length lists.old.files.items + 1) }
    ensures offsets { OnOk result (length lists.new.offsets.items ≡ length lists.old.offsets.items + 1) }
    ensures offset_limits { OnOk result (All (λ offset. unsigned_abs offset ≤ longest) lists.old.offsets.items
        → All (λ offset. unsigned_abs offset ≤ longest) lists.new.offsets.items) }
    ensures own_skews { OnOk result (length lists.new.own_skews.items ≡ length lists.old.own_skews.items + 1) }
    ensures skew_limits { OnOk result (All (λ own. IfSome own (λ skew. skew ≤ longest)) lists.old.own_skews.items
        → All (λ own. IfSome own (λ skew. skew ≤ longest)) lists.new.own_skews.items) }
    ensures interfaces { OnOk result (length lists.new.interfaces.items ≡ length lists.old.interfaces.items + 1) }
    ensures interface_limits { OnOk result (All (λ own. IfSome own (λ n. n ≤ last_interface)) lists.old.interfaces.items
        → All (λ own. IfSome own (λ n. n ≤ last_interface)) lists.new.interfaces.items) }
{
    let index = lists.names.len() as u32;
    let members = object(value, Member::Captures, index)?;
    no_stray_member(members, version, index)?;
    let name = copied(alloc, capture_name(value, &lists.names, index)?)?;
    let file = copied(alloc, capture_file(value, index)?)?;
    let offset = capture_offset(value, index)?;
    let own_skew = capture_skew(value, index)?;
    let interface = capture_interface(value, index)?;
    put(&mut lists.names, name)?;
    put(&mut lists.files, file)?;
    put(&mut lists.offsets, offset)?;
    put(&mut lists.own_skews, own_skew)?;
    put(&mut lists.interfaces, interface)?;
    Ok(())
}

// Refuses a member that a capture does not have in this version.
fn no_stray_member(members: &Map<String, Value>, version: u32, index: u32) -> Result<(), JobFault>
    ensures { result ≡ no_stray Captures index (capture_members version) (members_view members.now.entries) }
{
    match version {
        1 => no_stray(members, &["name", "file"], Member::Captures, index),
        2 => {
            let known = ["name", "file", "offset", "skew"];
            no_stray(members, &known, Member::Captures, index)
        }
        _ => {
            let known = ["name", "file", "offset", "skew", "interface"];
            no_stray(members, &known, Member::Captures, index)
        }
    }
}

// The name of a capture, which is none of those before it.
fn capture_name<'v>(value: &'v Value, earlier: &NameList, index: u32) -> Result<&'v str, JobFault>
    ensures { result_map_both (λ name. name.now) (λ fault. fault) result
        ≡ capture_name index (shown earlier.now.items) (view value.now) }
{
    let found = needed(value, "name", Member::CapturesName, index)?;
    let name = text(found, Member::CapturesName, index)?;
    if !is_identifier(name) {
        return Err(fault_at(Member::CapturesName, index, JobWhat::BadName));
    }
    if is_among(earlier, name) {
        return Err(fault_at(Member::CapturesName, index, JobWhat::Twice));
    }
    Ok(name)
}

// The file of a capture.
fn capture_file(value: &Value, index: u32) -> Result<&str, JobFault>
    ensures { result_map_both (λ name. name.now) (λ fault. fault) result ≡ capture_file index (view value.now) }
{
    let found = needed(value, "file", Member::CapturesFile, index)?;
    let name = text(found, Member::CapturesFile, index)?;
    in_limits(name.len() as u64, 1, 255, Member::CapturesFile, index)?;
    if has_zero(name.as_bytes()) {
        return Err(fault_at(Member::CapturesFile, index, JobWhat::BadName));
    }
    Ok(name)
}

fn has_zero(bytes: &[u8]) -> bool
    ensures { result ≡ has_zero bytes.now }
{
    bytes.iter().any(|b| *b == 0)
}
