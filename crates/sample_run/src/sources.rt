//! The captures of a sample as sources.
ghost use Rattle.std.specs.Prelude.{◌≡◌, IfOk, map};
ghost use Rattle.ds_base.specs.Files.{named_bytes};
ghost use Rattle.sample_run.specs.Made.{fresh_source};

use ds_base::{FileList, OutOfMemory, Source, SourceList, SureSource};
use job_table::put;
use std::alloc::Global;

/// A source of each file's bytes, in their order. It is refused for want of memory alone.
pub(crate) fn sources_of(
    alloc: Global,
    files: &FileList,
) -> Result<SourceList<SureSource>, OutOfMemory>
    ensures { IfOk result (λ sources. map ⟦<SureSource as Source>⟧.seen sources.items ≡ map fresh_source (map named_bytes files.now.items)) }
{
    let mut sources = SourceList::new(alloc);
    for k in 0..files.len() {
        let Ok(bytes) = Vec::from_slice(alloc, files.get(k).bytes.as_slice()) else {
            return Err(OutOfMemory);
        };
        put(&mut sources, SureSource::new(bytes))?;
    }
    Ok(sources)
}
