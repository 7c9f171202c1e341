//! Objects in memory that keep the promises of the outside: a first set that fails where it is told
//! to, so that tests reach every failure, and a second that never fails.

mod mem_folder;
mod mem_sink;
mod mem_source;
mod sure;

use crate::{ItemList, Text};
pub use mem_folder::MemFolder;
pub use mem_sink::MemSink;
pub use mem_source::MemSource;
pub use sure::{SureFolder, SureSink, SureSource};

/// A file in memory.
#[derive(Drop)]
pub struct NamedFile {
    pub name: Text,
    pub bytes: Vec<u8>,
}

/// Files in memory. Where two have one name, the first is found.
pub type FileList = ItemList<NamedFile>;
