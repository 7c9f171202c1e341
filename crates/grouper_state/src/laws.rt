//! What the state of a grouper stands for.
ghost use Rattle.std.specs.Prelude.{ℕ, List};
ghost use Rattle.node_frames.specs.declared.frame.Frame.{Frame};
ghost use Rattle.summary_spec.specs.Declaration.{Declared};
ghost use Rattle.run_law.specs.Shapes.{Shape};
ghost use Rattle.grouper_state.specs.declared.state.GrouperState.{GrouperState};
ghost use Rattle.grouper_state.specs.Promised.{HasPutEnds, IsPromised, KeepsPromise, PutsFew, SendsAll};

/// A law: what was put for the processors keeps the promise of a grouper over what was taken, and over
/// one frame more that may be taken, whatever becomes of the state then; where nothing is due, nothing
/// is held back; at most two frames were put on each link for each one taken, beside the end; and the
/// end was put on each link where the state has finished.
pub fn state_keeps_promise()
    ensures keeps { (job : Declared) (shape : Shape) (me : ℕ) (taken put : List (List Frame)) (s : GrouperState) → IsPromised job shape me taken put s }
    ensures keeps_on { (job : Declared) (shape : Shape) (me : ℕ) (taken put : List (List Frame)) (s : GrouperState) → KeepsPromise job shape me taken put s }
    ensures rests { (job : Declared) (shape : Shape) (me : ℕ) (taken put : List (List Frame)) (s : GrouperState) → SendsAll job shape me taken put s }
    ensures few { (job : Declared) (shape : Shape) (me : ℕ) (taken put : List (List Frame)) (s : GrouperState) → PutsFew job shape me taken put s }
    ensures ends { (job : Declared) (shape : Shape) (me : ℕ) (taken put : List (List Frame)) (s : GrouperState) → HasPutEnds job shape me taken put s }
{}
