//! The text of a field, and of its number.

ghost use Rattle.std.specs.Prelude.{◌≡◌, IfOk};
ghost use Rattle.std.specs.String.{string_bytes};
ghost use Rattle.field_table.specs.FieldText.{field_text};
ghost use Rattle.field_table.specs.ValueText.{addr4_text, addr6_text, hex_text, mac_text, value_text};

use crate::field_ref::FieldRef;
use crate::forms::Form;
use crate::hex::{push_group, push_hex, push_next_group, push_next_pair, push_pair};
use crate::names::{field_name, kind_name};
use std::alloc::{AllocError, Global};

/// The text of a field: `kind[index].name`, which reads as this field and no other. The error is
/// want of memory.
#[tactic(auto, unfolding(crate::specs::FieldText::field_text))]
pub fn print_field(alloc: Global, f: &FieldRef) -> Result<String, AllocError>
    ensures { IfOk result (λ text. string_bytes text ≡ field_text f.now) }
{
    let kind = kind_name(f.kind);
    let name = field_name(f.kind, f.field);
    if f.inside {
        let index = f.steps + 1;
        format!(in alloc; "{kind}[-{index}].{name}")
    } else {
        let index = f.steps;
        format!(in alloc; "{kind}[{index}].{name}")
    }
}

/// A number in a form. One that does not fit the form, from 2^48 on for `Mac` and from 2^32 on for
/// `Addr4`, is printed in decimal. The error is want of memory.
#[tactic(auto, unfolding(crate::specs::ValueText::value_text))]
pub fn print_value(alloc: Global, form: Form, n: u128) -> Result<String, AllocError>
    ensures { IfOk result (λ text. string_bytes text ≡ value_text form n) }
{
    match form {
        Form::Hex => hex(alloc, n),
        Form::Mac if n < 1 << 48 => mac(alloc, n as u64),
        Form::Addr4 if n < 1 << 32 => addr4(alloc, n as u32),
        Form::Addr6 => addr6(alloc, n),
        _ => format!(in alloc; "{n}"),
    }
}

fn hex(alloc: Global, n: u128) -> Result<String, AllocError>
    ensures { IfOk result (λ text. string_bytes text ≡ hex_text n) }
{
    let mut text = String::from_str(alloc, "0x")?;
    push_hex(&mut text, n)?;
    Ok(text)
}

fn mac(alloc: Global, n: u64) -> Result<String, AllocError>
    ensures { IfOk result (λ text. string_bytes text ≡ mac_text n) }
{
    let [_, _, a, b, c, d, e, f] = n.to_be_bytes();
    let mut text = String::new(alloc);
    push_pair(&mut text, a)?;
    push_next_pair(&mut text, b)?;
    push_next_pair(&mut text, c)?;
    push_next_pair(&mut text, d)?;
    push_next_pair(&mut text, e)?;
    push_next_pair(&mut text, f)?;
    Ok(text)
}

fn addr4(alloc: Global, n: u32) -> Result<String, AllocError>
    ensures { IfOk result (λ text. string_bytes text ≡ addr4_text n) }
{
    let [a, b, c, d] = n.to_be_bytes();
    format!(in alloc; "{a}.{b}.{c}.{d}")
}

fn addr6(alloc: Global, n: u128) -> Result<String, AllocError>
    ensures { IfOk result (λ text. string_bytes text ≡ addr6_text n) }
{
    let mut text = String::new(alloc);
    push_group(&mut text, n, 112)?;
    push_next_group(&mut text, n, 96)?;
    push_next_group(&mut text, n, 80)?;
    push_next_group(&mut text, n, 64)?;
    push_next_group(&mut text, n, 48)?;
    push_next_group(&mut text, n, 32)?;
    push_next_group(&mut text, n, 16)?;
    push_next_group(&mut text, n, 0)?;
    Ok(text)
}
