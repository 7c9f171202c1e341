//! Bytes that come at the end and are used up from the front.
ghost use Rattle.std.specs.Prelude.{◌≡◌, ◌+◌, ◌-◌, ◌≤◌, ◌++◌, [], length, take, drop, OnOk, OnErr};

use ds_base::OutOfMemory;
use std::alloc::Global;
use std::marker::Model;

/// Bytes that come at the end and are used up from the front. Those that were used up stay in memory
/// until `drop_spent`, so that they can be lent.
#[derive(Drop)]
pub struct Buffer {
    bytes: Vec<u8>,
    /// How many bytes at the front of `bytes` were used up.
    start: usize,
}

impl Model for Buffer {
    ghost use Rattle.std.specs.Prelude.{◌≤◌, take, drop, vec_len};
    ghost use Rattle.capture_bytes.specs.Kept.{Kept};

    ghost Value = { Kept };

    ghost view = { λ b. record { spent = take b.start b.bytes.items; rest = drop b.start b.bytes.items } };

    ghost invariant = { λ b. b.start ≤ vec_len b.bytes };
}

impl Buffer {
    /// Nothing, with no memory.
    pub fn new(alloc: Global) -> Self
        ensures { result ≡ record { spent = []; rest = [] } }
    {
        Buffer {
            bytes: Vec::new(alloc),
            start: 0,
        }
    }

    /// How many bytes are in memory.
    pub fn len(&self) -> usize
        ensures { result ≡ length self.now.spent + length self.now.rest }
    {
        self.bytes.len()
    }

    /// The bytes that were not used up.
    pub fn rest(&self) -> &[u8]
        ensures { result.now ≡ self.now.rest }
    {
        &self.bytes[self.start..]
    }

    /// The last `len` of the bytes that were used up.
    pub fn last_spent(&self, len: usize) -> &[u8]
        requires { len ≤ length self.now.spent }
        ensures { result.now ≡ drop (length self.now.spent - len) self.now.spent }
    {
        &self.bytes[self.start - len..self.start]
    }

    /// Uses up the first `len` bytes.
    pub fn spend(&mut self, len: usize)
        requires { len ≤ length self.old.rest }
        ensures spent { self.new.spent ≡ self.old.spent ++ take len self.old.rest }
        ensures rest { self.new.rest ≡ drop len self.old.rest }
    {
        self.start += len;
    }

    /// Takes the bytes that were used up out of memory.
    pub fn drop_spent(&mut self)
        ensures spent { self.new.spent ≡ [] }
        ensures rest { self.new.rest ≡ self.old.rest }
    {
        if self.start > 0 {
            let len = self.bytes.len();
            self.bytes.copy_within(self.start..len, 0);
            self.bytes.truncate(len - self.start);
            self.start = 0;
        }
    }

    /// Puts a piece at the end, and takes the bytes that were used up out of memory.
    pub fn append(&mut self, piece: &[u8]) -> Result<(), OutOfMemory>
        ensures appended { OnOk result (self.new.rest ≡ self.old.rest ++ piece.now) }
        ensures dropped { OnOk result (self.new.spent ≡ []) }
        ensures refused { OnErr result (self.new ≡ self.old) }
    {
        match self.bytes.extend_from_slice(piece) {
            Ok(()) => {
                self.drop_spent();
                Ok(())
            }
            Err(_) => Err(OutOfMemory),
        }
    }
}
