//! A source in memory that fails where it is told to.

ghost use Rattle.std.specs.Prelude.{◌≡◌, ◌≢◌, ◌↔◌, IsTrue, ◌<◌, ◌≤◌, length, drop};
ghost use Rattle.ds_base.specs.Outside.{source_of};

use crate::{Failed, KeyList, Source};

/// Bytes in memory, as a source that tells. It gives them in pieces, and fails where it is told to.
#[derive(Drop)]
pub struct MemSource {
    bytes: Vec<u8>,
    /// How many bytes were given.
    given: usize,
    /// How many bytes a read gives at most.
    piece: u32,
    /// The numbers of the reads that fail, from 0.
    failing: KeyList,
    /// How many reads there were.
    reads: u64,
    /// How many of them failed.
    faults: u64,
    ghost within: { given ≤ length bytes.items },
    ghost gives: { 0 < piece },
}

impl MemSource {
    /// A source of these bytes that gives at most `piece` of them a read, and fails the reads of these
    /// numbers, counted from 0.
    pub fn new(bytes: Vec<u8>, piece: u32, failing: KeyList) -> Self
        requires { 0 < piece }
        ensures { ⟦<MemSource as Source>⟧.seen result ≡ source_of bytes.items bytes.items 0 }
    {
        MemSource {
            bytes,
            given: 0,
            piece,
            failing,
            reads: 0,
            faults: 0,
        }
    }

    /// Whether a read failed.
    pub fn has_failed(&self) -> bool
        ensures { IsTrue result ↔ ((⟦<MemSource as Source>⟧.seen self.now).faults ≢ 0) }
    {
        self.faults != 0
    }
}

impl Source for MemSource {
    ghost seen = { λ source. source_of source.bytes.items (drop source.given source.bytes.items) source.faults };

    fn read(&mut self, buf: &mut [u8]) -> Result<usize, Failed> {
        let number = self.reads;
        self.reads = self.reads.saturating_add(1);
        if is_listed(&self.failing, number) {
            self.faults = self.faults.saturating_add(1);
            return Err(Failed);
        }
        let left = self.bytes.len() - self.given;
        let n = left.min(self.piece as usize).min(buf.len());
        buf[..n].copy_from_slice(&self.bytes[self.given..self.given + n]);
        self.given += n;
        Ok(n)
    }
}

/// Whether the list has this number.
pub(super) fn is_listed(numbers: &KeyList, number: u64) -> bool {
    for i in 0..numbers.len() {
        if u64::from(*numbers.get(i)) == number {
            return true;
        }
    }
    false
}
