//! Where summaries come in and groups go out, whatever the links are.
ghost use Rattle.std.specs.Prelude.{ℕ, List, [], ◌∷◌, ◌++◌, ◌≡◌, ◌<◌, ◌≤◌, ◌+◌, ◌%◌, Bool, true, false, OnOk, IfOk, None, Some, Ok, length, replicate};
ghost use Rattle.credit_link.specs.Frames.{has_finish};
ghost use Rattle.node_frames.specs.declared.frame.Frame.{Frame as FrameSeen};
ghost use Rattle.node_frames.specs.declared.frame.Frame.TheVariants.{Item, Mark, CaptureEnd, GroupMark, Finish};
ghost use Rattle.summary_spec.specs.Declaration.{Declared};
ghost use Rattle.summary_spec.specs.Lawful.{IsLawful};
ghost use Rattle.watermarks.specs.Least.{least_mark};
ghost use Rattle.window_grouper.specs.Grouping.{IsSettled, out_mark};
ghost use Rattle.run_law.specs.Shapes.{Shape};
ghost use Rattle.grouper_state.specs.declared.due_frame.Due.{Due as DueSeen};
ghost use Rattle.grouper_state.specs.declared.due_frame.Due.TheVariants.{To};
ghost use Rattle.grouper_state.specs.Outgoing.{still_going, turn_after};
ghost use Rattle.grouper_state.specs.States.{CanPut, CanTake, IsAtRest, MayTake, due_count, state_is, taken_more, taken_on, with_due};

use crate::due_frame::Due;
use crate::outgoing::Going;
use ds_base::{OutOfMemory, Summary};
use node_frames::Frame;
use std::alloc::Global;
use window_grouper::Grouper;

/// What a grouper keeps between frames.
#[derive(Drop)]
pub struct GrouperState {
    /// The summaries that came, in groups that were not sent, and the marks of the captures.
    grouper: Grouper,
    /// The group that is being sent.
    going: Going,
    /// The processor to which that group goes, or else the next one.
    turn: u32,
    /// How many processors there are.
    processors: u32,
    /// The last mark that was put, 0 before the first.
    mark: u64,
    /// Whether the end was put.
    finished: bool,
}

impl GrouperState {
    /// The grouper with the number `me`, from 0, of a job with so many captures and this window in
    /// nanoseconds. Nothing was taken, and nothing put. It takes no memory.
    pub fn new(alloc: Global, captures: u32, window: u64, me: u32, processors: u32) -> Self
        requires captures { captures ≤ 64 }
        requires processors { 0 < processors }
        ensures { (job : Declared) (shape : Shape) → IsLawful job → captures ≡ length job.captures → window ≡ job.window → 0 < shape.parsers
            → processors ≡ shape.processors → state_is job shape me (replicate shape.parsers []) (replicate shape.processors []) result }
    {
        GrouperState {
            grouper: Grouper::new(alloc, captures, window),
            going: Going::none(alloc),
            turn: me % processors,
            processors,
            mark: 0,
            finished: false,
        }
    }

    /// Takes a frame that may stand where it stands on its link, whichever link that is. It is refused for
    /// want of memory alone, and the state is of no use then.
    pub fn take(&mut self, frame: &Frame) -> Result<(), OutOfMemory>
        requires { CanTake self.old frame.now }
        ensures takes { OnOk result ((job : Declared) (shape : Shape) (me : ℕ) (taken put : List (List FrameSeen)) (link : ℕ) → state_is job shape me taken put self.old
            → MayTake job shape me taken link frame.now → state_is job shape me (taken_more taken link frame.now) put self.new) }
    {
        match frame {
            Frame::Item(s) => self.take_item(*s),
            Frame::Mark { capture, mark } => {
                self.take_mark(*capture, *mark);
                Ok(())
            }
            Frame::CaptureEnd { capture } => {
                self.take_capture_end(*capture);
                Ok(())
            }
            // Each capture of the link has ended, so its end changes nothing.
            Frame::Finish => Ok(()),
            // No other frame may stand on a link from a parser.
            Frame::GroupHead { .. } => Ok(()),
            Frame::Member { .. } => Ok(()),
            Frame::GroupMark { .. } => Ok(()),
            Frame::AnswerRow(_) => Ok(()),
            Frame::Profile(_) => Ok(()),
            Frame::CountsRow { .. } => Ok(()),
        }
    }

    /// A summary was taken.
    fn take_item(&mut self, s: Summary) -> Result<(), OutOfMemory>
        requires { CanTake self.old (Item s) }
        ensures takes { OnOk result ((job : Declared) (shape : Shape) (me : ℕ) (taken put : List (List FrameSeen)) (link : ℕ) → state_is job shape me taken put self.old
            → MayTake job shape me taken link (Item s) → state_is job shape me (taken_more taken link (Item s)) put self.new) }
    {
        self.grouper.add(s)
    }

    /// A mark was taken.
    fn take_mark(&mut self, capture: u32, mark: u64)
        requires { CanTake self.old (Mark capture mark) }
        ensures takes { (job : Declared) (shape : Shape) (me : ℕ) (taken put : List (List FrameSeen)) (link : ℕ) → state_is job shape me taken put self.old
            → MayTake job shape me taken link (Mark capture mark) → state_is job shape me (taken_more taken link (Mark capture mark)) put self.new }
    {
        self.grouper.raise(capture, mark);
    }

    /// The end of a capture was taken.
    fn take_capture_end(&mut self, capture: u32)
        requires { CanTake self.old (CaptureEnd capture) }
        ensures takes { (job : Declared) (shape : Shape) (me : ℕ) (taken put : List (List FrameSeen)) (link : ℕ) → state_is job shape me taken put self.old
            → MayTake job shape me taken link (CaptureEnd capture) → state_is job shape me (taken_more taken link (CaptureEnd capture)) put self.new }
    {
        self.grouper.end(capture);
    }

    /// The next frame that is due, which is put then: the next piece of the group that is being sent, the head of
    /// the next closed group, a mark where the least of the captures that go on has risen, or, once all have
    /// ended and all groups were sent, the end. None exactly where nothing is due. It is refused for want of
    /// memory alone, and the state is of no use then.
    pub fn next_due(&mut self) -> Result<Option<Due>, OutOfMemory>
        requires { CanPut self.old }
        ensures puts { IfOk result (λ due. (job : Declared) (shape : Shape) (me : ℕ) (taken put : List (List FrameSeen)) → state_is job shape me taken put self.old
            → state_is job shape me taken (with_due put due) self.new) }
        ensures there { IfOk result (λ due. (q : ℕ) (frame : FrameSeen) → due ≡ Some (To q frame) → q < self.old.processors) }
        ensures less { IfOk result (λ due. (d : DueSeen) → due ≡ Some d → due_count self.new < due_count self.old) }
        ensures rests { result ≡ Ok None → IsAtRest self.new }
        ensures unchanged { result ≡ Ok None → self.new ≡ self.old }
    {
        if !self.going.is_over() {
            return Ok(Some(self.next_member()));
        }
        match self.grouper.next_closed()? {
            Some(group) => {
                self.going = Going::new(group);
                Ok(Some(Due::To(self.turn, self.going.head())))
            }
            None => Ok(self.next_for_all()),
        }
    }

    /// Whether the end was put, which is put on all links at once.
    pub fn ended(&self) -> bool
        ensures { (job : Declared) (shape : Shape) (me : ℕ) (taken put : List (List FrameSeen)) → state_is job shape me taken put self.now
            → (q : ℕ) → q < length put → has_finish (taken_on put q) ≡ result }
    {
        self.finished
    }

    /// The next member of the group that is being sent.
    fn next_member(&mut self) -> Due
        requires stands { CanPut self.old }
        requires going { self.old.going.next < length self.old.going.group.members }
        ensures puts { (job : Declared) (shape : Shape) (me : ℕ) (taken put : List (List FrameSeen)) → state_is job shape me taken put self.old
            → state_is job shape me taken (with_due put (Some result)) self.new }
        ensures there { (q : ℕ) (frame : FrameSeen) → result ≡ To q frame → q < self.old.processors }
        ensures less { due_count self.new < due_count self.old }
    {
        let turn = self.turn;
        let frame = self.going.next_member();
        self.turn = following(turn, self.processors, self.going.is_over());
        Due::To(turn, frame)
    }

    /// The mark or the end, where it is due and all closed groups were sent.
    fn next_for_all(&mut self) -> Option<Due>
        requires idle { still_going self.old.going ≡ None }
        requires settled { IsSettled self.old.grouper }
        requires ended { least_mark self.old.grouper.marks ≡ None → self.old.grouper.held ≡ [] }
        ensures puts { (job : Declared) (shape : Shape) (me : ℕ) (taken put : List (List FrameSeen)) → state_is job shape me taken put self.old
            → state_is job shape me taken (with_due put result) self.new }
        ensures all { (q : ℕ) (frame : FrameSeen) → result ≡ Some (To q frame) → ⊥ }
        ensures less { (d : DueSeen) → result ≡ Some d → due_count self.new < due_count self.old }
        ensures rests { result ≡ None → IsAtRest self.new × (self.new ≡ self.old) }
    {
        match self.grouper.out_mark() {
            Some(mark) => self.next_mark(mark),
            None => self.next_end(),
        }
    }

    /// The mark, where it has risen.
    fn next_mark(&mut self, mark: u64) -> Option<Due>
        requires is { out_mark (least_mark self.old.grouper.marks) self.old.grouper.window ≡ Some mark }
        requires idle { still_going self.old.going ≡ None }
        requires settled { IsSettled self.old.grouper }
        ensures puts { (job : Declared) (shape : Shape) (me : ℕ) (taken put : List (List FrameSeen)) → state_is job shape me taken put self.old
            → state_is job shape me taken (with_due put result) self.new }
        ensures all { (q : ℕ) (frame : FrameSeen) → result ≡ Some (To q frame) → ⊥ }
        ensures less { (d : DueSeen) → result ≡ Some d → due_count self.new < due_count self.old }
        ensures rests { result ≡ None → IsAtRest self.new × (self.new ≡ self.old) }
    {
        if mark <= self.mark {
            return None;
        }
        self.mark = mark;
        Some(Due::All(Frame::GroupMark { mark }))
    }

    /// The end, where it was not put.
    fn next_end(&mut self) -> Option<Due>
        requires none { least_mark self.old.grouper.marks ≡ None }
        requires idle { still_going self.old.going ≡ None }
        requires held { self.old.grouper.held ≡ [] }
        ensures puts { (job : Declared) (shape : Shape) (me : ℕ) (taken put : List (List FrameSeen)) → state_is job shape me taken put self.old
            → state_is job shape me taken (with_due put result) self.new }
        ensures all { (q : ℕ) (frame : FrameSeen) → result ≡ Some (To q frame) → ⊥ }
        ensures less { (d : DueSeen) → result ≡ Some d → due_count self.new < due_count self.old }
        ensures rests { result ≡ None → IsAtRest self.new × (self.new ≡ self.old) }
    {
        if self.finished {
            return None;
        }
        self.finished = true;
        Some(Due::All(Frame::Finish))
    }
}

// The processor whose turn it is: the next one, where the group before was sent whole.
fn following(turn: u32, processors: u32, is_over: bool) -> u32
    requires { turn < processors }
    ensures { result ≡ turn_after processors turn is_over }
{
    if is_over {
        (turn + 1) % processors
    } else {
        turn
    }
}
