//! What the state of a query processor stands for.
ghost use Rattle.std.specs.Prelude.{ℕ, List};
ghost use Rattle.node_frames.specs.declared.frame.Frame.{Frame};
ghost use Rattle.summary_spec.specs.Declaration.{Declared};
ghost use Rattle.query_state.specs.declared.state.QueryState.{QueryState};
ghost use Rattle.query_state.specs.Promised.{IsPromised, NothingIsDue, PutsFew};

/// A law: what was put for the merge keeps the promise of a query processor over what was taken; where no mark is due,
/// nothing is held back; and at most two frames were put for each one taken, beside the profile and the end.
pub fn state_keeps_promise()
    ensures keeps { (job : Declared) (taken : List (List Frame)) (put : List Frame) (s : QueryState) → IsPromised job taken put s }
    ensures rests { (job : Declared) (taken : List (List Frame)) (put : List Frame) (s : QueryState) → NothingIsDue job taken put s }
    ensures few { (job : Declared) (taken : List (List Frame)) (put : List Frame) (s : QueryState) → PutsFew job taken put s }
{}
