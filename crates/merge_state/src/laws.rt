//! What the state of the merge stands for.
ghost use Rattle.std.specs.Prelude.{ℕ, List};
ghost use Rattle.node_frames.specs.declared.frame.Frame.{Frame};
ghost use Rattle.summary_spec.specs.Declaration.{Declared};
ghost use Rattle.run_law.specs.Shapes.{Shape};
ghost use Rattle.merge_state.specs.Promised.{IsOfLinks, IsPromised};
ghost use Rattle.merge_state.specs.declared.state.MergeState.{MergeState};

/// A law: the text that was pushed keeps the promise of the merge over what was taken.
pub fn state_keeps_promise()
    ensures { (job : Declared) (shape : Shape) (counts taken : ℕ → List Frame) (gained : List ℕ) (d : MergeState) → IsPromised job shape counts taken gained d }
{}

/// A law: what a state stands for is told by what was taken on the links that there are.
pub fn links_tell()
    ensures { (job : Declared) (shape : Shape) (counts others taken more : ℕ → List Frame) (gained : List ℕ) (d : MergeState) → IsOfLinks job shape counts others taken more gained d }
{}
