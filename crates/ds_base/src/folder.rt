//! The trait of files that are opened by name.

ghost use Rattle.std.specs.Prelude.{◌≡◌, ◌≢◌, ◌⊎◌, IsTrue, IfOk, IsErrOf, Some, None, Err};
ghost use Rattle.ds_base.specs.Faults.{Rose};
ghost use Rattle.ds_base.specs.Outside.{FolderSeen, FolderStays, IsFresh, file_named};

use crate::Source;
use thiserror::Error;

/// Why a file was not opened.
#[derive(Clone, Copy, Debug, PartialEq, Eq, Error)]
pub enum NoFile {
    /// The folder lacks the name.
    #[error("there is no file of that name")]
    Missing,
    /// It could not be opened. The folder's count of failures rose.
    #[error("the file could not be opened")]
    Failed,
    /// There was no memory.
    #[error("out of memory")]
    OutOfMemory,
}

/// Files of the outside, by name.
pub trait Folder {
    /// An opened file. It cannot be dropped, so each one is given back.
    type Src: Source + Send;

    /// What a contract sees. An object that tells is held to what it tells.
    ghost seen: { Self → FolderSeen };

    /// Opens the file of that name.
    fn open(&mut self, name: &str) -> Result<Self::Src, NoFile>
        ensures stays { FolderStays (seen self.old) (seen self.new) }
        ensures failed { IsErrOf result NoFile.Failed → Rose (seen self.old).faults (seen self.new).faults }
        ensures faults { (result ≡ Err NoFile.Failed → ⊥) → (seen self.new).faults ≡ (seen self.old).faults }
        ensures fresh { IfOk result (λ source. IsFresh (Self.Src.seen source)) }
        ensures file { IsTrue (seen self.old).told →
            IfOk result (λ source. IsTrue (Self.Src.seen source).told
            × (file_named (seen self.old).files name.now ≡ Some (Self.Src.seen source).whole)) }
        ensures missing { IsTrue (seen self.old).told →
            IsErrOf result NoFile.Missing → file_named (seen self.old).files name.now ≡ None }
        ensures lacking { IsTrue (seen self.old).told → file_named (seen self.old).files name.now ≡ None →
            IsErrOf result NoFile.Missing ⊎ IsErrOf result NoFile.OutOfMemory };

    /// Takes an opened file back. The folder's count of failures rises exactly where the file's is not 0.
    fn give_back(&mut self, source: Self::Src)
        ensures stays { FolderStays (seen self.old) (seen self.new) }
        ensures sound { (Self.Src.seen source).faults ≡ 0 → (seen self.new).faults ≡ (seen self.old).faults }
        ensures failed { (Self.Src.seen source).faults ≢ 0 → Rose (seen self.old).faults (seen self.new).faults };
}
