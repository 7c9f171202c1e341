//! Where the sources of parsers are gathered.
ghost use Rattle.std.specs.Prelude.{◌≡◌, ◌<◌, ◌≤◌, ℕ, [], IfOk, length, map};
ghost use Rattle.node_lists.specs.Lists.{HaveRoom, items_at};
ghost use Rattle.node_lists.specs.Dealing.{AreCounted, AreDealt};
ghost use Rattle.new_pipeline.specs.Rooms.{IsRoom, own_of};

use ds_base::{ItemList, OutOfMemory, Source, SourceList};
use node_layers::{ParserList, close_parsers};
use node_lists::{destroy_lists, gather, lists_with_room};
use std::alloc::Global;

/// A list for the sources of each parser, and one for those of all captures, so that closing the parsers takes no
/// memory.
pub struct SourceRoom<S> {
    pub lists: ItemList<SourceList<S>>,
    pub gathered: SourceList<S>,
}

impl<S> SourceRoom<S> {
    /// Room for the sources of so many captures, dealt out to so many parsers. It is refused for want of memory alone.
    pub(crate) fn new(alloc: Global, parsers: u32, captures: u64) -> Result<Self, OutOfMemory>
        ensures room { IfOk result (λ room. IsRoom parsers captures room.lists.items room.gathered) }
        ensures each { IfOk result (λ room. HaveRoom captures room.lists.items) }
    {
        let lists = lists_with_room(alloc, parsers, captures)?;
        let mut gathered = ItemList::new(alloc);
        match gathered.reserve(captures) {
            Ok(()) => Ok(SourceRoom { lists, gathered }),
            Err(_) => {
                gathered.destroy_empty();
                destroy_lists(lists);
                Err(OutOfMemory)
            }
        }
    }

    /// The end of room without sources.
    pub(crate) fn destroy(self)
        requires lists { (p : ℕ) → items_at self.lists.items p ≡ [] }
        requires gathered { self.gathered.items ≡ [] }
    {
        let SourceRoom { lists, gathered } = self;
        destroy_lists(lists);
        gathered.destroy_empty();
    }
}

/// Closes the parsers, and gathers the sources of so many captures from them, and from the lists of those parsers that
/// there are not, in the order of the captures. It takes no memory.
pub fn gather_sources<S: Source>(
    parsers: ParserList<'_, S>,
    room: SourceRoom<S>,
    captures: u64,
) -> SourceList<S>
    requires some { 0 < length room.lists.items }
    requires there { length parsers.items ≤ length room.lists.items }
    requires none { (p : ℕ) → p < length parsers.items → items_at room.lists.items p ≡ [] }
    requires counted { AreCounted (length room.lists.items) captures (own_of S.seen parsers.items room.lists.items) }
    requires room { (room.gathered.items ≡ []) × (captures ≤ room.gathered.spare) }
    ensures { AreDealt (length room.lists.items) (map S.seen result.items) (own_of S.seen parsers.entry.items room.lists.items) }
{
    let mut parsers = parsers;
    let SourceRoom {
        mut lists,
        mut gathered,
    } = room;
    close_parsers(&mut parsers, &mut lists);
    parsers.destroy_empty();
    gather(captures, &mut lists, &mut gathered);
    destroy_lists(lists);
    gathered
}
