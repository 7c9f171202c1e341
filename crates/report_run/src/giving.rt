//! Giving sources back.
ghost use Rattle.std.specs.Prelude.{◌≡◌, [], map};
ghost use Rattle.report_run.specs.Giving.{GivesBack};

use ds_base::{Folder, SourceList};

/// Gives all sources back, of which some may have failed.
pub(crate) fn give_back_read<F: Folder>(folder: &mut F, sources: SourceList<F::Src>)
    ensures { GivesBack (map F.Src.seen sources.items) (F.seen folder.old) (F.seen folder.new) }
{
    let mut sources = sources;
    give_each(folder, &mut sources);
    sources.destroy_empty();
}

// The last one, and then those before it.
fn give_each<F: Folder>(folder: &mut F, sources: &mut SourceList<F::Src>)
    ensures given { GivesBack (map F.Src.seen sources.old.items) (F.seen folder.old) (F.seen folder.new) }
    ensures none { sources.new.items ≡ [] }
{
    let Some(last) = sources.pop() else {
        return;
    };
    folder.give_back(last);
    give_each(folder, sources);
}
