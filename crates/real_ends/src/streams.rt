//! The standard output and the standard error.

ghost use Rattle.std.specs.Prelude.{◌≡◌};
ghost use Rattle.real_ends.specs.Silent.{silent_sink};

use ds_base::{Failed, Sink};
use std::io::Write;

/// The standard output or the standard error.
#[derive(Drop)]
pub struct StreamSink<W> {
    stream: W,
    /// How many writes failed.
    faults: u64,
}

impl<W: Write> StreamSink<W> {
    /// A sink that writes to this stream.
    pub fn new(stream: W) -> Self
        ensures { result.faults ≡ 0 }
    {
        StreamSink { stream, faults: 0 }
    }
}

impl<W: Write> Sink for StreamSink<W> {
    ghost seen = { λ sink. silent_sink sink.faults };

    fn write(&mut self, piece: &[u8]) -> Result<usize, Failed> {
        match self.stream.write(piece) {
            Ok(n) if n > 0 => Ok(n),
            _ => {
                self.faults = self.faults.saturating_add(1);
                Err(Failed)
            }
        }
    }
}
