//! A sink in memory that fails where it is told to.

ghost use Rattle.std.specs.Prelude.{◌≡◌, ◌<◌, []};
ghost use Rattle.ds_base.specs.Outside.{sink_of};

use super::mem_source::is_listed;
use crate::{Failed, KeyList, Sink};
use std::alloc::Global;

/// A sink in memory that tells. It takes bytes in pieces, and fails where it is told to.
#[derive(Drop)]
pub struct MemSink {
    written: Vec<u8>,
    /// How many bytes a write takes at most.
    piece: u32,
    /// The numbers of the writes that fail, from 0.
    failing: KeyList,
    /// How many writes there were.
    writes: u64,
    /// How many of them failed.
    faults: u64,
    ghost takes: { 0 < piece },
}

impl MemSink {
    /// A sink that takes at most `piece` bytes a write, and fails the writes of these numbers, counted
    /// from 0. Where it finds no memory it fails too.
    pub fn new(alloc: Global, piece: u32, failing: KeyList) -> Self
        requires { 0 < piece }
        ensures { ⟦<MemSink as Sink>⟧.seen result ≡ sink_of [] 0 }
    {
        MemSink {
            written: Vec::new(alloc),
            piece,
            failing,
            writes: 0,
            faults: 0,
        }
    }

    /// What was written.
    pub fn bytes(&self) -> &[u8]
        ensures { result.now ≡ (⟦<MemSink as Sink>⟧.seen self.now).written }
    {
        self.written.as_slice()
    }
}

impl Sink for MemSink {
    ghost seen = { λ sink. sink_of sink.written.items sink.faults };

    fn write(&mut self, piece: &[u8]) -> Result<usize, Failed> {
        let number = self.writes;
        self.writes = self.writes.saturating_add(1);
        let n = piece.len().min(self.piece as usize);
        if is_listed(&self.failing, number)
            || self.written.extend_from_slice(&piece[..n]).is_err()
        {
            self.faults = self.faults.saturating_add(1);
            return Err(Failed);
        }
        Ok(n)
    }
}
