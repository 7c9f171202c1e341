//! The line of a record, and the last line.

ghost use Rattle.std.specs.Prelude.{◌≡◌, ◌≤◌, ◌++◌, [], length, OnOk};
ghost use Rattle.std.specs.Fmt.{decimal};
ghost use Rattle.std.specs.List.{flat_map};
ghost use Rattle.pcap_reader.specs.Lent.{captured};
ghost use Rattle.stack_lines.specs.Stacks.{header_text, field_shown, packet_text, stack_line, last_line};

use field_table::{FieldRef, form, kind_name, print_value};
use header_stack::{Place, Stack, field_value, walk};
use itoa::Buffer;
use pcap_reader::RecordRef;
use std::alloc::{AllocError, Global};

/// What is asked of each packet.
#[derive(Clone, Copy)]
pub struct Asking {
    /// The destination port of VXLAN.
    pub port: u16,
    /// The field whose value is printed in place of the headers.
    pub field: Option<FieldRef>,
}

/// Puts the line of a record at the end.
pub fn push_line(
    alloc: Global,
    text: &mut Vec<u8>,
    asking: &Asking,
    r: &RecordRef<'_>,
) -> Result<(), AllocError>
    requires { length r.now.bytes.now ≤ 262144 }
    ensures { OnOk result (text.new.items ≡ text.old.items ++ stack_line asking.now.port asking.now.field (captured r.now)) }
{
    push_number(text, r.number)?;
    text.extend_from_slice(b" ")?;
    push_number(text, r.time)?;
    push_packet(alloc, text, asking, r)?;
    text.extend_from_slice(b"\n")
}

/// Puts what a line says of a packet at the end.
fn push_packet(
    alloc: Global,
    text: &mut Vec<u8>,
    asking: &Asking,
    r: &RecordRef<'_>,
) -> Result<(), AllocError>
    requires { length r.now.bytes.now ≤ 262144 }
    ensures { OnOk result (text.new.items ≡ text.old.items ++ packet_text asking.now.port asking.now.field (captured r.now)) }
{
    let stack = walk(r.link, r.bytes, asking.port);
    match &asking.field {
        None => push_headers(text, &stack),
        Some(field) => push_field(alloc, text, field, field_value(&stack, r.bytes, field)),
    }
}

/// Puts headers at the end.
fn push_headers(text: &mut Vec<u8>, stack: &Stack) -> Result<(), AllocError>
    ensures { OnOk result (text.new.items ≡ text.old.items ++ flat_map header_text stack.now) }
{
    for i in 0..stack.len() {
        push_header(text, stack.place(i))?;
    }
    Ok(())
}

/// Puts a header at the end.
fn push_header(text: &mut Vec<u8>, place: Place) -> Result<(), AllocError>
    ensures { OnOk result (text.new.items ≡ text.old.items ++ header_text place) }
{
    text.extend_from_slice(b" ")?;
    text.extend_from_slice(kind_name(place.kind).as_bytes())?;
    text.extend_from_slice(b"[")?;
    push_number(text, u64::from(place.from))?;
    text.extend_from_slice(b"..")?;
    push_number(text, u64::from(place.to))?;
    text.extend_from_slice(b"]")
}

/// Puts the value of a field at the end, in the field's form, or that there is none.
fn push_field(
    alloc: Global,
    text: &mut Vec<u8>,
    field: &FieldRef,
    value: Option<u128>,
) -> Result<(), AllocError>
    ensures { OnOk result (text.new.items ≡ text.old.items ++ field_shown field.now value) }
{
    let Some(n) = value else {
        return text.extend_from_slice(b" none");
    };
    let value = print_value(alloc, form(field), n)?;
    text.extend_from_slice(b" ")?;
    text.extend_from_slice(value.as_bytes())
}

/// Puts a number at the end, in decimal.
fn push_number(text: &mut Vec<u8>, n: u64) -> Result<(), AllocError>
    ensures { OnOk result (text.new.items ≡ text.old.items ++ decimal n) }
{
    let mut digits = Buffer::new();
    text.extend_from_slice(digits.format(n).as_bytes())
}

/// Puts the last line at the end.
pub fn push_last_line(text: &mut Vec<u8>, cut: bool) -> Result<(), AllocError>
    ensures { OnOk result (text.new.items ≡ text.old.items ++ last_line cut) }
{
    text.extend_from_slice(if cut { b"cut\n" } else { b"whole\n" })
}
