//! The name of a capture, kept in place.

ghost use Rattle.std.specs.Prelude.{◌≡◌, ◌≤◌, length};

use std::marker::Model;

/// The name of a capture: at most 32 bytes, of fixed size. It takes no memory. Contracts see its bytes.
#[derive(Drop)]
pub struct CaptureName {
    bytes: [u8; 32],
    len: usize,
}

impl Model for CaptureName {
    ghost use Rattle.std.specs.Prelude.{List, ℕ, ◌≡◌, ◌≤◌, take, length};

    ghost Value = { List ℕ };

    ghost view = { λ name. take name.len name.bytes };

    ghost invariant = { λ name. (name.len ≤ 32) × (length name.bytes ≡ 32) };
}

impl CaptureName {
    /// The name of these bytes.
    pub fn new(name: &[u8]) -> Self
        requires { length name.now ≤ 32 }
        ensures { result ≡ name.now }
    {
        let mut bytes = [0; 32];
        bytes[..name.len()].copy_from_slice(name);
        CaptureName {
            bytes,
            len: name.len(),
        }
    }

    /// The bytes of the name.
    pub fn bytes(&self) -> &[u8]
        ensures value { result.now ≡ self.now }
        ensures short { length result.now ≤ 32 }
    {
        &self.bytes[..self.len]
    }
}
