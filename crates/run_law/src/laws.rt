//! The laws of a run: calls that do nothing.
ghost use Rattle.run_law.specs.Laws.{AnswersToComeAreLater, DoneIsWhole, GrouperKeepsOn, GroupsSentAreFront, LinesFollowRecords, MergeKeepsOn, NoGroupGains, NothingIsHeldBack, ProcessorKeepsOn, RowsAreLawful, RunWithoutRecordsEnds, StartIsMarked, StartIsSnapshot, WrittenIsFront};

/// At every moment the groups that a grouper sent, over all its links in the order of their closing, are the first
/// groups of its shard.
pub fn groups_sent_are_front_of_shard()
    ensures { GroupsSentAreFront }
{}

/// Whatever the files hold behind what was read, a group that was sent gains no member: each accepted summary that
/// could be in it is in it.
pub fn no_sent_group_gains()
    ensures { NoGroupGains }
{}

/// At every moment what was written is what stood there at the start and then a front of the report.
pub fn written_is_front_of_report()
    ensures { WrittenIsFront }
{}

/// At every moment each answer that the merge may write stands before every answer that is still to come.
pub fn answers_to_come_are_later()
    ensures { AnswersToComeAreLater }
{}

/// Where every frame of groupers and processors was taken, and no grouper, processor or merge holds anything back, the
/// lines of all groups are written that the marks have passed at each grouper that goes on.
pub fn nothing_is_held_back()
    ensures { NothingIsHeldBack }
{}

/// Where moreover every frame of parsers was taken, the lines of all groups are written that lie behind the newest
/// times of the captures that go on, of all records taken up but the last 32 at most of each, by more than its skew
/// and the window.
pub fn lines_follow_records()
    ensures { LinesFollowRecords }
{}

/// Where the end of every link was taken and the merge has written all its lines, the report was written, and
/// every frame that was put on a link was sent and taken.
pub fn done_has_written_report()
    ensures { DoneIsWhole }
{}

/// In the row of each link of such a run as many frames were sent as taken, and at least one; and from a parser to a
/// grouper at least the accepted summaries between them, an end for each of the parser's captures, and the end.
pub fn rows_of_done_links()
    ensures { RowsAreLawful }
{}

/// The start of a run, with nothing read, put, sent, taken or written, is such a moment, and no mark is behind the
/// records then.
pub fn start_is_snapshot()
    ensures snapshot { StartIsSnapshot }
    ensures marked { StartIsMarked }
{}

/// Where no capture has a record, and none is malformed, there is such a moment at which all is done. So what is
/// proved of runs that are done is not proved of none.
pub fn run_without_records_ends()
    ensures { RunWithoutRecordsEnds }
{}

/// The promise of a grouper stands as more frames are taken, whatever they are, if they are lawful: what it sent stays
/// a front of its closed groups, and no mark that it sent becomes wrong.
pub fn grouper_keeps_on()
    ensures { GrouperKeepsOn }
{}

/// The promise of a processor stands as more frames are taken, whatever they are, if they are lawful: what it sent stays
/// a front of its answers, and no mark that it sent becomes wrong.
pub fn processor_keeps_on()
    ensures { ProcessorKeepsOn }
{}

/// The promise of the merge stands as more frames are taken, whatever they are, if they are lawful: what was written
/// stays a front of the lines that may be written.
pub fn merge_keeps_on()
    ensures { MergeKeepsOn }
{}
