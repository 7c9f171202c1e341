//! A folder in memory whose files fail where it is told to.

ghost use Rattle.std.specs.Prelude.{◌≡◌, ◌<◌, map, MatchOption, IfErr};
ghost use Rattle.ds_base.specs.Outside.{folder_of, file_named};
ghost use Rattle.ds_base.specs.Files.{named_bytes};

use super::{FileList, MemSource, NamedFile};
use crate::{Folder, KeyList, NoFile};
use std::alloc::Global;

/// Files in memory, as a folder that tells. It opens `MemSource`s.
#[derive(Drop)]
pub struct MemFolder {
    alloc: Global,
    files: FileList,
    /// How many bytes a read gives at most.
    piece: u32,
    /// A file's position and the number of a read of it that fails, both from 0.
    failing: Vec<(u32, u32)>,
    /// How many given back sources had failed.
    faults: u64,
    ghost gives: { 0 < piece },
}

impl MemFolder {
    /// A folder of these files. Each pair of `failing` is a file's position and the number of a read
    /// of it that fails, both from 0.
    pub fn new(alloc: Global, files: FileList, piece: u32, failing: Vec<(u32, u32)>) -> Self
        requires { 0 < piece }
        ensures { ⟦<MemFolder as Folder>⟧.seen result ≡ folder_of (map named_bytes files.items) 0 }
    {
        MemFolder {
            alloc,
            files,
            piece,
            failing,
            faults: 0,
        }
    }
}

impl Folder for MemFolder {
    type Src = MemSource;

    ghost seen = { λ folder. folder_of (map named_bytes folder.files.items) folder.faults };

    fn open(&mut self, name: &str) -> Result<MemSource, NoFile> {
        let Some((i, file)) = find(&self.files, name) else {
            return Err(NoFile::Missing);
        };
        let failing = reads_of(self.alloc, &self.failing, i)?;
        match Vec::from_slice(self.alloc, file.bytes.as_slice()) {
            Ok(bytes) => Ok(MemSource::new(bytes, self.piece, failing)),
            Err(_) => Err(NoFile::OutOfMemory),
        }
    }

    fn give_back(&mut self, source: MemSource) {
        if source.has_failed() {
            self.faults = self.faults.saturating_add(1);
        }
    }
}

/// The first file of that name, and its position.
pub(super) fn find<'a>(files: &'a FileList, name: &str) -> Option<(u64, &'a NamedFile)>
    ensures { MatchOption result
        (file_named (map named_bytes files.now.items) name.now ≡ None)
        (λ found. file_named (map named_bytes files.now.items) name.now ≡ Some (named_bytes found.1.now).bytes) }
{
    for i in 0..files.len() {
        let file = files.get(i);
        if file.name.as_str() == name {
            return Some((i, file));
        }
    }
    None
}

/// The numbers of the reads of file `i` that fail.
fn reads_of(alloc: Global, failing: &Vec<(u32, u32)>, i: u64) -> Result<KeyList, NoFile>
    ensures { IfErr result (λ e. e ≡ NoFile.OutOfMemory) }
{
    let mut reads = KeyList::new(alloc);
    for (file, read) in failing {
        if u64::from(*file) == i && reads.push(*read).is_err() {
            return Err(NoFile::OutOfMemory);
        }
    }
    Ok(reads)
}
