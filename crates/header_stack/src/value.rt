//! The value of a field of a packet.

ghost use Rattle.std.specs.Prelude.{◌≡◌, ℕ};
ghost use Rattle.std.specs.List.{All};
ghost use Rattle.header_stack.specs.Places.{LiesIn, layers_at};
ghost use Rattle.header_stack.specs.Stack.{stack_of};
ghost use Rattle.header_stack.specs.Value.{packet_value, value_in};

use crate::place::header;
use crate::stack::Stack;
use field_table::{FieldRef, value};

/// The value of a field of the packet `bytes`, of which `stack` has the places. It reads the bytes of
/// the header that the field names, and takes no memory.
///
/// `None` where there is no such header, or where the field does not lie in it.
pub fn field_value(stack: &Stack, bytes: &[u8], f: &FieldRef) -> Option<u128>
    requires { All (LiesIn bytes.now) stack.now }
    ensures value { result ≡ value_in f.now (layers_at bytes.now stack.now) }
    ensures of_packet { (link port : ℕ) → layers_at bytes.now stack.now ≡ stack_of link port bytes.now → result ≡ packet_value link port bytes.now f.now }
{
    let place = stack.nth(f)?;
    value(f.kind, f.field, header(place, bytes))
}
