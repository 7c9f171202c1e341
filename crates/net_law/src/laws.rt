//! The laws of a pipeline of nodes: calls that do nothing.
ghost use Rattle.net_law.specs.Faults.{NoLinkFaultComes};
ghost use Rattle.net_law.specs.Laws.{NetIsSnapshot};
ghost use Rattle.net_law.specs.Pairs.{EachStands};
ghost use Rattle.net_law.specs.Rests.{RestedIsAtRest};
ghost use Rattle.net_law.specs.Rounds.{ViewIsSound, ViewIsLimited, ViewIsJoined, TurnsMakeRounds, DoneNodesAreDone, StillIsDone};
ghost use Rattle.net_law.specs.Starts.{GrouperStarts, MergeStarts, NewLinksStart, ParserStarts, ProcessorStarts};
ghost use Rattle.net_law.specs.Steps.{NetGoesOn};
ghost use Rattle.net_law.specs.Turned.{TurnsGoOn};

/// Each moment of a pipeline that stands is a Snapshot, as the laws of a run speak of it, whatever faults its nodes have
/// met. So what was written is a front of the report.
pub fn net_is_snapshot()
    ensures { NetIsSnapshot }
{}

/// A pipeline that stands goes on standing after steps of any of its nodes, where the links on which frames were taken
/// are then looked at: after a turn, a list of turns, or turns side by side.
pub fn net_goes_on()
    ensures { NetGoesOn }
{}

/// A turn of one node of any kind, and then a look at its links in, is such a step.
pub fn turns_go_on()
    ensures { TurnsGoOn }
{}

/// Both ends of each link of a pipeline stand, and their frames are fewer than a u64 counts.
pub fn each_stands()
    ensures { EachStands }
{}

/// No node of a pipeline over rings ever meets a fault of a link.
pub fn no_link_fault_comes()
    ensures { NoLinkFaultComes }
{}

/// A pipeline in which no node has met a fault is what the laws of rounds ask: sound, within its limits, and joined
/// after a look at all links.
pub fn view_is_sound()
    ensures sound { ViewIsSound }
    ensures limited { ViewIsLimited }
    ensures joined { ViewIsJoined }
{}

/// What a turn of a node says by its answer makes it a turn of a round, with the number of that node.
pub fn turns_make_rounds()
    ensures { TurnsMakeRounds }
{}

/// Where all nodes are done, so is the run; and a round after a look in which no node moved found and left it done.
pub fn still_is_done()
    ensures all { DoneNodesAreDone }
    ensures still { StillIsDone }
{}

/// New nodes, over new links and fresh sources, stand. So no clause of what nodes keep is impossible.
pub fn new_nodes_stand()
    ensures parser { ParserStarts }
    ensures grouper { GrouperStarts }
    ensures processor { ProcessorStarts }
    ensures merge { MergeStarts }
    ensures links { NewLinksStart }
{}

/// Where all groupers, processors and the merge have rested, and took what was put for them, nothing is held back.
pub fn rested_is_at_rest()
    ensures { RestedIsAtRest }
{}
