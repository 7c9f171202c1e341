//! What every crate of the pipeline shares: stamps, numbers, summaries, groups, verdicts and counts,
//! the lists of them that grow by refusable steps, and the traits of the outside (sources, sinks,
//! folders, pipe ends, choosers and gates) with objects in memory that keep their promises.
#![tactic(auto)]

mod capture;
mod chooser;
mod fakes;
mod folder;
mod gate;
mod item_list;
mod laws;
mod memory;
mod nums;
mod pipe;
mod profile_row;
mod sink;
mod source;
mod stamp;
mod summary;
#[cfg(test)]
mod tests;
mod text;
mod verdict;

pub use capture::{Bad, Counts, PcapFault, Tail};
pub use chooser::{Choice, Chooser, ListChooser};
pub use fakes::{
    FileList, MemFolder, MemSink, MemSource, NamedFile, SureFolder, SureSink, SureSource,
};
pub use folder::{Folder, NoFile};
pub use gate::{Gate, OpenGate};
pub use item_list::ItemList;
pub use laws::{parted, same_front};
pub use memory::OutOfMemory;
pub use nums::Nums;
pub use pipe::{PipeRx, PipeTx};
pub use profile_row::ProfileRow;
pub use sink::Sink;
pub use source::{Failed, Source};
pub use stamp::{HOUR, Stamp};
pub use summary::{Group, Summary};
pub use text::Text;
pub use verdict::{Answer, Verdict};

/// The names of variables, captures or files, in the order of their numbers.
pub type NameList = ItemList<Text>;

/// Summaries, mostly in the order of their stamps.
pub type SummaryList = ItemList<Summary>;

/// Groups, in the order of their firsts' stamps.
pub type GroupList = ItemList<Group>;

/// One row of counts for each capture.
pub type CountsList = ItemList<Counts>;

/// Opened sources. They may not be dropped, so each is taken out before the list ends.
pub type SourceList<S> = ItemList<S>;

/// Numbers, such as those of variables.
pub type KeyList = ItemList<u32>;
