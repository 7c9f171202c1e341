//! The files of the system, opened by their names.

ghost use Rattle.std.specs.Prelude.{◌≡◌};
ghost use Rattle.real_ends.specs.Silent.{silent_source, silent_folder};

use ds_base::{Failed, Folder, NoFile, Source};
use std::fs;
use std::fs::File;
use std::io::{ErrorKind, Read};
use std::rt::Files;

/// The files of the system.
#[derive(Drop)]
pub struct FileFolder<'a, R> {
    files: &'a R,
    /// How many calls failed.
    faults: u64,
}

impl<'a, R: Files<File = File>> FileFolder<'a, R> {
    /// The files that the runtime reaches.
    pub fn new(files: &'a R) -> Self
        ensures { result.faults ≡ 0 }
    {
        FileFolder { files, faults: 0 }
    }
}

impl<R: Files<File = File>> Folder for FileFolder<'_, R> {
    type Src = FileSource;

    ghost seen = { λ folder. silent_folder folder.faults };

    fn open(&mut self, name: &str) -> Result<FileSource, NoFile> {
        match fs::open(self.files, name) {
            Ok(file) => Ok(FileSource { file, faults: 0 }),
            Err(error) => {
                if error.kind() == ErrorKind::NotFound {
                    return Err(NoFile::Missing);
                }
                self.faults = self.faults.saturating_add(1);
                Err(NoFile::Failed)
            }
        }
    }

    fn give_back(&mut self, source: FileSource) {
        if source.faults != 0 {
            self.faults = self.faults.saturating_add(1);
        }
    }
}

/// An opened file.
#[derive(Drop)]
pub struct FileSource {
    file: File,
    /// How many reads failed.
    faults: u64,
}

impl Source for FileSource {
    ghost seen = { λ source. silent_source source.faults };

    fn read(&mut self, buf: &mut [u8]) -> Result<usize, Failed> {
        match self.file.read(buf) {
            Ok(n) => Ok(n),
            Err(_) => {
                self.faults = self.faults.saturating_add(1);
                Err(Failed)
            }
        }
    }
}
