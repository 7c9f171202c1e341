//! A source, a sink and a folder in memory that never fail.

ghost use Rattle.std.specs.Prelude.{◌≡◌, ◌≤◌, [], length, drop, map, false};
ghost use Rattle.ds_base.specs.Outside.{source_of, folder_of};
ghost use Rattle.ds_base.specs.Files.{named_bytes};

use super::FileList;
use super::mem_folder::find;
use crate::{Failed, Folder, NoFile, Sink, Source};
use std::alloc::Global;

/// Bytes in memory, as a source that tells and never fails.
#[derive(Drop)]
pub struct SureSource {
    bytes: Vec<u8>,
    /// How many bytes were given.
    given: usize,
    ghost within: { given ≤ length bytes.items },
}

impl SureSource {
    /// A source of these bytes.
    pub fn new(bytes: Vec<u8>) -> Self
        ensures { ⟦<SureSource as Source>⟧.seen result ≡ source_of bytes.items bytes.items 0 }
    {
        SureSource { bytes, given: 0 }
    }
}

impl Source for SureSource {
    ghost seen = { λ source. source_of source.bytes.items (drop source.given source.bytes.items) 0 };

    fn read(&mut self, buf: &mut [u8]) -> Result<usize, Failed> {
        let left = self.bytes.len() - self.given;
        let n = left.min(buf.len());
        buf[..n].copy_from_slice(&self.bytes[self.given..self.given + n]);
        self.given += n;
        Ok(n)
    }
}

/// A sink that takes every piece whole, keeps and tells nothing, and never fails.
#[derive(Clone, Copy, Debug, PartialEq, Eq)]
pub struct SureSink;

impl SureSink {
    /// The sink.
    pub fn new() -> Self {
        SureSink
    }
}

impl Sink for SureSink {
    ghost use Rattle.std.specs.Prelude.{[], false};

    ghost seen = { λ _. record { told = false; written = []; faults = 0; label = [] } };

    fn write(&mut self, piece: &[u8]) -> Result<usize, Failed> {
        Ok(piece.len())
    }
}

/// Files in memory, as a folder that tells. It opens `SureSource`s and never fails.
#[derive(Drop)]
pub struct SureFolder {
    alloc: Global,
    files: FileList,
}

impl SureFolder {
    /// A folder of these files.
    pub fn new(alloc: Global, files: FileList) -> Self
        ensures { ⟦<SureFolder as Folder>⟧.seen result ≡ folder_of (map named_bytes files.items) 0 }
    {
        SureFolder { alloc, files }
    }
}

impl Folder for SureFolder {
    type Src = SureSource;

    ghost seen = { λ folder. folder_of (map named_bytes folder.files.items) 0 };

    fn open(&mut self, name: &str) -> Result<SureSource, NoFile> {
        let Some((_, file)) = find(&self.files, name) else {
            return Err(NoFile::Missing);
        };
        match Vec::from_slice(self.alloc, file.bytes.as_slice()) {
            Ok(bytes) => Ok(SureSource::new(bytes)),
            Err(_) => Err(NoFile::OutOfMemory),
        }
    }

    fn give_back(&mut self, _source: SureSource) {}
}
