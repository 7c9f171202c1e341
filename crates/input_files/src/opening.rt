//! The opening of a file of a folder.

ghost use Rattle.std.specs.Prelude.{◌≡◌, OnOk, MatchResult};
ghost use Rattle.ds_base.specs.Outside.{FolderStays};
ghost use Rattle.input_files.specs.Files.{IsOpened, StopsOpening};

use crate::fault::FileFault;
use ds_base::{Folder, NoFile};

/// Opens the file of a name. `Unread` where the folder lacks it or could not open it, and `OutOfMemory`.
pub fn open_file<F: Folder>(folder: &mut F, name: &str) -> Result<F::Src, FileFault>
    ensures stays { FolderStays (F.seen folder.old) (F.seen folder.new) }
    ensures quiet { OnOk result ((F.seen folder.new).faults ≡ (F.seen folder.old).faults) }
    ensures ends { MatchResult result
        (λ source. IsOpened (F.seen folder.old) name.now (F.Src.seen source))
        (StopsOpening name.now (F.seen folder.old) (F.seen folder.new)) }
{
    match folder.open(name) {
        Ok(source) => Ok(source),
        Err(NoFile::OutOfMemory) => Err(FileFault::OutOfMemory),
        Err(NoFile::Missing) => Err(FileFault::Unread),
        Err(NoFile::Failed) => Err(FileFault::Unread),
    }
}
