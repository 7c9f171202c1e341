//! The buffer that frames are encoded into.
ghost use Rattle.std.specs.Prelude.{◌≡◌, ◌≤◌, ◌+◌, ◌-◌, ◌++◌, [], length, take, drop, IfOk};
ghost use Rattle.node_frames.specs.Fields.{bytes_of};

use byteorder::{BigEndian, ByteOrder};
use bytes::BytesMut;
use ds_base::OutOfMemory;
use std::alloc::Global;
use std::marker::Model;

/// Bytes that frames are written behind, of a room that is taken when it is made. Contracts see its
/// `bytes`, and as `spare` how many more it takes without asking for memory.
#[derive(Drop)]
pub struct Bytes8 {
    held: BytesMut,
}

impl Model for Bytes8 {
    ghost use Rattle.node_frames.specs.Buffer.{Buffer};

    ghost Value = { Buffer };

    ghost view = { λ b. record { bytes = b.held.items; spare = b.held.spare } };
}

impl Bytes8 {
    /// An empty buffer with room for `room` bytes. It is refused for want of memory alone.
    pub fn with_room(alloc: Global, room: u32) -> Result<Self, OutOfMemory>
        ensures empty { IfOk result (λ b. b.bytes ≡ []) }
        ensures room { IfOk result (λ b. room ≤ b.spare) }
    {
        match BytesMut::with_capacity(alloc, room as usize) {
            Ok(held) => Ok(Bytes8 { held }),
            Err(_) => Err(OutOfMemory),
        }
    }

    /// How many bytes there are.
    pub fn len(&self) -> usize
        ensures { result ≡ length self.now.bytes }
    {
        self.held.len()
    }

    /// The bytes.
    pub fn as_slice(&self) -> &[u8]
        ensures { result.now ≡ self.now.bytes }
    {
        self.held.as_slice()
    }

    /// Puts bytes at the end. It takes no memory.
    pub fn append(&mut self, more: &[u8])
        requires { length more.now ≤ self.old.spare }
        ensures bytes { self.new.bytes ≡ self.old.bytes ++ more.now }
        ensures spare { self.new.spare + length more.now ≡ self.old.spare }
    {
        self.held.extend_reserved(more);
    }

    /// Takes all bytes out, whose room is then spare again.
    pub fn clear(&mut self)
        ensures bytes { self.new.bytes ≡ [] }
        ensures spare { length self.old.bytes + self.old.spare ≤ self.new.spare }
    {
        self.held.clear();
    }

    /// Takes the first `count` bytes out, whose room is then spare again.
    pub fn drop_front(&mut self, count: usize)
        requires { count ≤ length self.old.bytes }
        ensures bytes { self.new.bytes ≡ drop count self.old.bytes }
        ensures spare { self.new.spare ≡ self.old.spare + count }
    {
        let left = self.held.len() - count;
        self.held.as_mut_slice().copy_within(count.., 0);
        self.held.truncate(left);
    }

    /// Writes a number over the four bytes at `at`, the highest byte first.
    pub(crate) fn set_number(&mut self, at: usize, n: u32)
        requires { at + 4 ≤ length self.old.bytes }
        ensures bytes { self.new.bytes ≡ take at self.old.bytes ++ (bytes_of 4 n ++ drop (at + 4) self.old.bytes) }
        ensures spare { self.new.spare ≡ self.old.spare }
    {
        write_at(self.held.as_mut_slice(), at, n);
    }
}

// Writes a number over the four bytes at `at`, the highest byte first.
#[tactic(auto, unfolding(crate::specs::Fields::bytes_of))]
fn write_at(bytes: &mut [u8], at: usize, n: u32)
    requires { at + 4 ≤ length bytes.old }
    ensures { bytes.new ≡ take at bytes.old ++ (bytes_of 4 n ++ drop (at + 4) bytes.old) }
{
    let (_, here) = bytes.split_at_mut(at);
    BigEndian::write_u32(here, n);
}
