//! A sink in memory that is watched.

use ds_base::{Failed, KeyList, MemSink, Sink};
use std::alloc::Global;
use std::cell::Cell;
use std::test::Fail;

/// How many bytes of the report a sink holds; none where it has held others.
pub(crate) type Watch = Cell<Option<usize>>;

/// A sink in memory that compares what it holds with a report behind each write, and tells whoever watches it.
#[derive(Drop)]
pub(crate) struct WatchedSink<'w> {
    sink: MemSink,
    report: Vec<u8>,
    watch: &'w Watch,
}

impl<'w> WatchedSink<'w> {
    /// A sink that takes at most so many bytes a write, and fails the one of this number.
    pub(crate) fn new(
        alloc: Global,
        report: &str,
        piece: u32,
        failing: Option<u32>,
        watch: &'w Watch,
    ) -> Result<WatchedSink<'w>, Fail> {
        let mut numbers = KeyList::new(alloc);
        if let Some(number) = failing {
            let Ok(()) = numbers.push(number) else {
                return Err(Fail::from("no memory"));
            };
        }
        watch.set(Some(0));
        Ok(WatchedSink {
            sink: MemSink::new(alloc, piece.max(1), numbers),
            report: report.as_bytes().to_vec(alloc)?,
            watch,
        })
    }
}

impl<'w> Sink for WatchedSink<'w> {
    ghost seen = { λ watched. ⟦<MemSink as Sink>⟧.seen watched.sink };

    fn write(&mut self, piece: &[u8]) -> Result<usize, Failed> {
        let taken = match self.sink.write(piece) {
            Ok(n) => Ok(n),
            Err(bad) => Err(bad),
        };
        let held = self.sink.bytes();
        if self.report.starts_with(held) && self.watch.get().is_some() {
            self.watch.set(Some(held.len()));
        } else {
            self.watch.set(None);
        }
        taken
    }
}
