//! Fields by name: the reading of `kind[index].name`.

ghost use Rattle.std.specs.Prelude.{◌≡◌, IfSome, Some};
ghost use Rattle.field_table.specs.declared.field_ref.FieldRef.{FieldRef};
ghost use Rattle.field_table.specs.FieldText.{field_text};
ghost use Rattle.field_table.specs.Fields.{form_of};

use crate::field_ref::FieldRef;
use crate::forms::Form;
use crate::reading::parts;
use crate::values::layout;

/// The field that a text names: `kind[index].name`, where the index is `0` to `15`, counted from
/// the outside, or `-1` to `-16`, counted from the inside, without leading zeros. None for every
/// other text. It takes no memory.
pub fn field(text: &str) -> Option<FieldRef>
    ensures reads { IfSome result (λ f. text.now ≡ field_text f) }
    ensures only { (f : FieldRef) → text.now ≡ field_text f → result ≡ Some f }
{
    let (kind, (inside, steps), field) = parts(text.as_bytes())?;
    Some(FieldRef {
        kind,
        inside,
        steps,
        field,
    })
}

/// The form in which the numbers of a field are printed.
pub fn form(f: &FieldRef) -> Form
    ensures { form_of f.now.kind f.now.field ≡ Some result }
{
    layout(f.kind, f.field).form
}
