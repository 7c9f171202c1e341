//! Laws about links and networks. Each is a call that does nothing.

ghost use Rattle.std.specs.Prelude.{ℕ, Bool, IsTrue, List};
ghost use Rattle.ds_base.specs.Pipes.{PipeSeen};
ghost use Rattle.credit_link.specs.Ends.{RxSeen, TxSeen};
ghost use Rattle.credit_link.specs.declared.turn.Turn.{Turn};
ghost use Rattle.round_law.specs.Links.{DoneIsSettled, OwesWithin, Receiver, Sender, SentSome, StartsSound};
ghost use Rattle.round_law.specs.Measure.{FramesFit, MovesLower, RunHasBound, StartIsLimited};
ghost use Rattle.round_law.specs.Needed.{Clause, EachClauseIsNeeded, SomeNodeIsIdle, SomeRoundIsStill};
ghost use Rattle.round_law.specs.Network.{StillIsDone};
ghost use Rattle.round_law.specs.Pipeline.{JoinedComesThrough, Net, StartIsSound};
ghost use Rattle.round_law.specs.Rounds.{AllDoneIsSettled, QuietIsDone, QuietIsSettled};
ghost use Rattle.round_law.specs.Offers.{KindsAreFew};
ghost use Rattle.round_law.specs.Rows.{LooksKeep, NoneLowers, StillCounts, TurnAnswers};
ghost use Rattle.round_law.specs.Turns.{RoundBegins, RoundEnds, RoundGoesOn, RoundMoves, RoundRests, TurnLowersNone};
ghost use Rattle.round_law.specs.Views.{AnsweredAgain, LookedIsJoined, PartIsShort, PartOpensNone, RxIsGranted, RxIsReceiver, RxLooks, RxPumpRests, TxIsSender, TxLooks, TxPumpRests};
ghost use Rattle.round_law.specs.Waits.{DoneWaitsOnNothing, Node};

/// A law: a new link is sound, and joined where there is a credit.
pub fn start_is_sound()
    ensures { (credits : ℕ) → StartsSound credits }
{}

/// A law: a new pipeline, with any numbers of nodes and at least one credit, is sound and within the
/// limits.
pub fn new_is_sound()
    ensures sound { (credits parsers groupers processors : ℕ) → StartIsSound credits parsers groupers processors }
    ensures limited { (captures credits parsers groupers processors : ℕ) → StartIsLimited captures credits parsers groupers processors }
{}

/// A law: a link whose sender and receiver are done is settled, and it carried a frame.
pub fn done_is_settled()
    ensures settled { (credits : ℕ) (s : Sender) (r : Receiver) → DoneIsSettled credits s r }
    ensures sent { (s : Sender) → SentSome s }
{}

/// A law: over joined ends a receiver owes no more credits than its credit pipe has room for, and so no
/// more than there are.
pub fn owes_within()
    ensures { (credits : ℕ) (s : Sender) (r : Receiver) → OwesWithin credits s r }
{}

/// A law: a node that is done waits on no end of a pipe, so that it is not idle.
pub fn done_waits_on_nothing()
    ensures { (credits : ℕ) (node : Node) → DoneWaitsOnNothing credits node }
{}

/// A law: in any network whose links raise a rank, a round after a look in which no node moved leaves
/// all nodes done, and found them done.
pub fn still_is_done<N>()
    ensures { (there : N → Bool) (rank : N → ℕ) (credits : ℕ) (before after : N → Node) →
        StillIsDone (λ n. IsTrue (there n)) rank credits before after }
{}

/// A law: the same of the pipeline, with any numbers of parsers, groupers and processors; and each of its
/// links is settled, and was.
pub fn quiet_is_done()
    ensures done { (captures credits : ℕ) (before after : Net) → QuietIsDone captures credits before after }
    ensures settled { (captures credits : ℕ) (before after : Net) → QuietIsSettled captures credits before after }
{}

/// A law: where all nodes of a pipeline are done, each of its links is settled.
pub fn all_done_is_settled()
    ensures { (captures credits : ℕ) (net : Net) → AllDoneIsSettled captures credits net }
{}

/// A law: of joined ends, what came out is the front of what was put in.
pub fn joined_comes_through()
    ensures { (credits : ℕ) (net : Net) → JoinedComesThrough credits net }
{}

/// A law: a node that stands still has moved as much as before, and no answer lowers that count.
pub fn still_counts()
    ensures stays { (before after : Node) → StillCounts before after }
    ensures never_falls { (credits : ℕ) (before after : Node) → NoneLowers credits before after }
{}

/// A law: what a turn says by its answer, and of the bytes where its pipes tell, is one of the answers that
/// rounds are made of.
pub fn turn_answers()
    ensures { (credits : ℕ) (before after : Node) (turn : Turn) → TurnAnswers credits before after turn }
{}

/// A law: a look at its links leaves what an idle or done turn of a node says as it was.
pub fn looks_keep()
    ensures { (credits : ℕ) (before now after : Node) → LooksKeep credits before now after }
{}

/// A law: where a parser offers at most one Item and one Mark for each record, a grouper one head of a
/// group and one member for each Item and one GroupMark for each Mark or CaptureEnd, and a processor one
/// answer for each head and one GroupMark for each GroupMark or Finish, a node offers few frames.
pub fn kinds_are_few()
    ensures { (node : Node) → KindsAreFew node }
{}

/// A law: what a run has moved is at most what its captures and its shape allow, and so are the frames
/// of each link.
pub fn run_has_bound()
    ensures { (captures credits : ℕ) (net : Net) → RunHasBound captures credits net }
{}

/// A law: where no node's count falls and one rises, what is ahead of the run falls.
pub fn moves_lower()
    ensures { (captures : ℕ) (before after : Net) → MovesLower captures before after }
{}

/// A law: within the limits of a job and a shape, the frames of a link are fewer than 2^58, so that no
/// count of them comes near the end of a u64.
pub fn frames_fit()
    ensures { (captures parsers groupers : ℕ) → FramesFit captures parsers groupers }
{}

/// A law: no clause of the row of Idle can be dropped. For each there are two nodes, joined by a link and
/// at rest by all other clauses, of which neither is done.
pub fn each_clause_is_needed()
    ensures { (clause : Clause) → EachClauseIsNeeded clause }
{}

/// A law: the premises of `still_is_done` can be met together, by two nodes that are done; and a node
/// that waits for its first frame is idle.
pub fn some_round_is_still()
    ensures round { SomeRoundIsStill }
    ensures idle { SomeNodeIsIdle }
{}

/// Laws: a round goes through the nodes by their numbers. As long as each was idle or done, the others
/// are as they were; at the end all were. Once one has moved, the count of no node falls any more.
pub fn round_goes_on()
    ensures begins { (credits : ℕ) (net : Net) → RoundBegins credits net }
    ensures rests { (credits n : ℕ) (start now after : Net) → RoundRests credits n start now after }
    ensures moves { (credits n : ℕ) (start now after : Net) → RoundMoves credits n start now after }
    ensures lowers_none { (credits n : ℕ) (before after : Net) → TurnLowersNone credits n before after }
    ensures goes_on { (start now after : Net) → RoundGoesOn start now after }
    ensures ends { (credits : ℕ) (start now : Net) → RoundEnds credits start now }
{}

/// Laws: what the ends of links show is what a run asks of its plain records: of what stands, of a pull
/// that found no frame, of pumps that moved nothing, and of a look.
pub fn views_stand()
    ensures sender { (waiting : ℕ) (l : TxSeen) → TxIsSender waiting l }
    ensures receiver { (l : RxSeen) → RxIsReceiver l }
    ensures granted { (l : RxSeen) → RxIsGranted l }
    ensures none { (box : List ℕ) → PartOpensNone box }
    ensures short { (box : List ℕ) → PartIsShort box }
    ensures again { (start mid after : PipeSeen) → AnsweredAgain start mid after }
    ensures tx_rests { (waiting cut : ℕ) (before after : TxSeen) → TxPumpRests waiting cut before after }
    ensures rx_rests { (cut : ℕ) (before after : RxSeen) → RxPumpRests cut before after }
    ensures tx_looks { (waiting : ℕ) (before after : TxSeen) → TxLooks waiting before after }
    ensures rx_looks { (before after : RxSeen) → RxLooks before after }
    ensures joined { (waiting : ℕ) (tx : TxSeen) (rx : RxSeen) → LookedIsJoined waiting tx rx }
{}
