//! What waits on the machine's stack.

ghost use Rattle.std.specs.Prelude.{◌≡◌, ◌+◌, true, false, [], ◌∷◌, length, OnOk, IfOk, MatchOption, option_copied, option_map};
ghost use Rattle.query_syntax.specs.Tree.{tree_of, Joined};
ghost use Rattle.query_syntax.specs.Frames.{frame_of, frames};
ghost use Rattle.query_syntax.specs.Machine.{Pending, topmost, frame_binds, binds, frame_compares, is_compared, reduce};

use crate::rank::{is_comparison, rank};
use crate::tree::Syntax;
use ds_base::OutOfMemory;
use query_tokens::Operator;
use std::alloc::Global;

/// What is pending while an expression is read.
#[derive(Drop)]
pub(crate) enum Frame {
    /// A left side, and its operator.
    Left(Syntax, Operator),
    /// A parenthesis that was opened.
    Open,
    /// The parenthesis of the `not` at this place.
    Not(u32),
}

/// Puts a frame on top of the others.
#[tactic(auto, using(crate::proofs::StackFrames::frames_push))]
pub(crate) fn put(stack: &mut Vec<Frame>, frame: Frame) -> Result<(), OutOfMemory>
    ensures { OnOk result (frames stack.new.items ≡ frame_of frame ∷ frames stack.old.items) }
{
    match stack.push(frame) {
        Ok(()) => Ok(()),
        Err(_) => Err(OutOfMemory),
    }
}

/// Takes the topmost frame off.
#[tactic(auto, using(crate::proofs::StackFrames::frames_push))]
pub(crate) fn take(stack: &mut Vec<Frame>) -> Option<Frame>
    ensures frame { MatchOption result ((frames stack.old.items ≡ []) × (frames stack.new.items ≡ []))
        (λ frame. frames stack.old.items ≡ frame_of frame ∷ frames stack.new.items) }
    ensures length { MatchOption result (length stack.new.items ≡ length stack.old.items)
        (λ _. length stack.new.items + 1 ≡ length stack.old.items) }
{
    stack.pop()
}

// The topmost frame.
#[tactic(auto, using(crate::proofs::StackFrames::topmost_is))]
fn top(stack: &Vec<Frame>) -> Option<&Frame>
    ensures { option_map frame_of (option_copied result) ≡ topmost (frames stack.now.items) }
{
    stack.last()
}

// Whether the frame is a left side whose operator binds at least as strongly as this level.
fn frame_binds(frame: &Frame, level: u8) -> bool
    ensures { result ≡ frame_binds level (frame_of frame.now) }
{
    match frame {
        Frame::Left(_, operator) => level <= rank(*operator),
        Frame::Open | Frame::Not(_) => false,
    }
}

// Whether the topmost frame is such a left side.
fn binds(stack: &Vec<Frame>, level: u8) -> bool
    ensures { result ≡ binds level (frames stack.now.items) }
{
    match top(stack) {
        Some(frame) => frame_binds(frame, level),
        None => false,
    }
}

// Whether the frame is a left side of a comparison.
fn frame_compares(frame: &Frame) -> bool
    ensures { result ≡ frame_compares (frame_of frame.now) }
{
    match frame {
        Frame::Left(_, operator) => is_comparison(*operator),
        Frame::Open | Frame::Not(_) => false,
    }
}

/// Whether the topmost frame is a left side of a comparison.
pub(crate) fn is_compared(stack: &Vec<Frame>) -> bool
    ensures { result ≡ is_compared (frames stack.now.items) }
{
    match top(stack) {
        Some(frame) => frame_compares(frame),
        None => false,
    }
}

// Takes the topmost frame off where it is a left side whose operator binds at least as strongly as
// this level.
fn take_left(stack: &mut Vec<Frame>, level: u8) -> Option<(Syntax, Operator)>
    ensures left { MatchOption result
        ((binds level (frames stack.old.items) ≡ false) × (stack.new.items ≡ stack.old.items))
        (λ left. (binds level (frames stack.old.items) ≡ true)
        × (frames stack.old.items ≡ Pending (tree_of left.0) left.1 ∷ frames stack.new.items)) }
    ensures length { MatchOption result (length stack.new.items ≡ length stack.old.items)
        (λ _. length stack.new.items + 1 ≡ length stack.old.items) }
{
    if !binds(stack, level) {
        return None;
    }
    match take(stack) {
        Some(Frame::Left(left, operator)) => Some((left, operator)),
        _ => unreachable!(),
    }
}

/// Joins to the tree the pending left sides whose operators bind at least as strongly as this level.
/// It is refused for want of memory alone.
#[tactic(auto, using(crate::proofs::StackFrames::reduce_stays, crate::proofs::StackFrames::reduce_joins))]
pub(crate) fn reduce(
    alloc: Global,
    level: u8,
    stack: &mut Vec<Frame>,
    tree: Syntax,
) -> Result<Syntax, OutOfMemory>
    ensures { IfOk result (λ t. reduce level (frames stack.old.items) (tree_of tree)
        ≡ (frames stack.new.items, tree_of t)) }
{
    let mut tree = tree;
    while let Some((left, operator)) = take_left(stack, level) {
        tree = join(alloc, operator, left, tree)?;
    }
    Ok(tree)
}

// An operator between two sides.
fn join(
    alloc: Global,
    operator: Operator,
    left: Syntax,
    right: Syntax,
) -> Result<Syntax, OutOfMemory>
    ensures { IfOk result (λ t. tree_of t ≡ Joined operator (tree_of left) (tree_of right)) }
{
    let left = boxed(alloc, left)?;
    let right = boxed(alloc, right)?;
    Ok(Syntax::Joined(operator, left, right))
}

/// The tree in a box.
pub(crate) fn boxed(alloc: Global, tree: Syntax) -> Result<Box<Syntax>, OutOfMemory>
    ensures { IfOk result (λ b. b.value ≡ tree) }
{
    match Box::new(alloc, tree) {
        Ok(b) => Ok(b),
        Err(_) => Err(OutOfMemory),
    }
}
