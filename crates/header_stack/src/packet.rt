//! The walk through the headers of a packet.

ghost use Rattle.std.specs.Prelude.{◌≡◌, ◌≤◌, ℕ, List, length};
ghost use Rattle.std.specs.List.{All};
ghost use Rattle.header_stack.specs.Layer.{Layer};
ghost use Rattle.header_stack.specs.Places.{LiesIn, layers_at, places_from};
ghost use Rattle.header_stack.specs.Stack.{IsStack, stack_of};

use crate::headers::{first, read_header};
use crate::place::Place;
use crate::stack::Stack;
use field_table::Next;

/// The header stack of a packet of a capture of this link type. VXLAN is looked for after UDP to
/// `port`.
///
/// A link type other than 1 (Ethernet) and 101 (raw IP) gives the empty stack. A header that is refused
/// ends the stack before it, and so does the sixteenth.
pub fn walk(link: u32, bytes: &[u8], port: u16) -> Stack
    requires { length bytes.now ≤ 262144 }
    ensures places { result ≡ places_from 0 (stack_of link port bytes.now) }
    ensures layers { layers_at bytes.now result ≡ stack_of link port bytes.now }
    ensures stack { IsStack link port bytes.now (layers_at bytes.now result) }
    ensures inside { All (LiesIn bytes.now) result }
{
    let mut stack = Stack::new();
    let mut next = first(link, bytes);
    let mut rest = bytes;
    let mut from = 0;
    while stack.len() < 16 {
        let Next::Header(kind) = next else {
            return stack;
        };
        let Some(head) = read_header(port, kind, rest) else {
            return stack;
        };
        let to = from + head.len;
        stack.push(Place { kind, from, to });
        rest = &rest[head.len as usize..head.limit as usize];
        from = to;
        next = head.next;
    }
    stack
}

/// That a packet has exactly one header stack: nothing is done.
pub fn one_stack()
    ensures is { (link port : ℕ) (bytes : List ℕ) → IsStack link port bytes (stack_of link port bytes) }
    ensures only { (link port : ℕ) (bytes : List ℕ) (layers : List Layer) → IsStack link port bytes layers → layers ≡ stack_of link port bytes }
{}
