//! The machine that reads tokens.

ghost use Rattle.std.specs.Prelude.{◌≡◌, IfOk, option_map};
ghost use Rattle.query_syntax.specs.Tree.{tree_of};
ghost use Rattle.query_syntax.specs.Frames.{frames, state_of};
ghost use Rattle.query_syntax.specs.Machine.{step, turned, joined, closed_by, reduce, whole};
ghost use Rattle.query_syntax.specs.Grammar.{left_rank};

use crate::call::{Call, Turn, inside, want};
use crate::rank::{is_comparison, left_rank};
use crate::stack::{Frame, boxed, is_compared, put, reduce, take};
use crate::tree::Syntax;
use ds_base::OutOfMemory;
use query_tokens::{Operator, Token};
use std::alloc::Global;

/// What the reading of an expression stands at.
#[derive(Drop)]
pub(crate) enum Mode {
    /// An operand is wanted.
    Want,
    /// A tree was read.
    Have(Syntax),
    /// Some tokens of a call were read.
    Inside(Call),
}

/// Reads one token: the next mode, or `None` where the token cannot stand here.
pub(crate) fn step(
    alloc: Global,
    stack: &mut Vec<Frame>,
    mode: Mode,
    token: Token,
) -> Result<Option<Mode>, OutOfMemory>
    ensures { IfOk result (λ next. option_map (state_of stack.new.items) next
        ≡ step (state_of stack.old.items mode) token) }
{
    match mode {
        Mode::Want => turn(stack, want(token)),
        Mode::Inside(call) => turn(stack, inside(call, token)),
        Mode::Have(tree) => match token {
            Token::Between(operator) => pend(alloc, stack, tree, operator),
            Token::Close => close(alloc, stack, tree),
            _ => Ok(None),
        },
    }
}

// What a token made of the place.
fn turn(stack: &mut Vec<Frame>, turn: Option<Turn>) -> Result<Option<Mode>, OutOfMemory>
    ensures { IfOk result (λ next. option_map (state_of stack.new.items) next
        ≡ option_map (turned (frames stack.old.items)) turn) }
{
    match turn {
        None => Ok(None),
        Some(Turn::Reads(atom)) => Ok(Some(Mode::Have(Syntax::Leaf(atom)))),
        Some(Turn::Calls(call)) => Ok(Some(Mode::Inside(call))),
        Some(Turn::Opens) => {
            put(stack, Frame::Open)?;
            Ok(Some(Mode::Want))
        }
        Some(Turn::OpensNot(at)) => {
            put(stack, Frame::Not(at))?;
            Ok(Some(Mode::Want))
        }
    }
}

// An operator behind a tree.
fn pend(
    alloc: Global,
    stack: &mut Vec<Frame>,
    tree: Syntax,
    operator: Operator,
) -> Result<Option<Mode>, OutOfMemory>
    ensures { IfOk result (λ next. option_map (state_of stack.new.items) next
        ≡ joined operator (reduce (left_rank operator) (frames stack.old.items) (tree_of tree))) }
{
    let tree = reduce(alloc, left_rank(operator), stack, tree)?;
    if is_comparison(operator) && is_compared(stack) {
        return Ok(None);
    }
    put(stack, Frame::Left(tree, operator))?;
    Ok(Some(Mode::Want))
}

// A `)` behind a tree.
fn close(alloc: Global, stack: &mut Vec<Frame>, tree: Syntax) -> Result<Option<Mode>, OutOfMemory>
    ensures { IfOk result (λ next. option_map (state_of stack.new.items) next
        ≡ closed_by (reduce 0 (frames stack.old.items) (tree_of tree))) }
{
    let tree = reduce(alloc, 0, stack, tree)?;
    match take(stack) {
        Some(Frame::Open) => {
            let inner = boxed(alloc, tree)?;
            Ok(Some(Mode::Have(Syntax::Parenthesis(inner))))
        }
        Some(Frame::Not(at)) => {
            let inner = boxed(alloc, tree)?;
            Ok(Some(Mode::Have(Syntax::Negated(at, inner))))
        }
        Some(Frame::Left(_, _)) | None => Ok(None),
    }
}

/// The whole tree, or `None` where the tokens are no whole expression.
pub(crate) fn finish(
    alloc: Global,
    stack: Vec<Frame>,
    mode: Mode,
) -> Result<Option<Syntax>, OutOfMemory>
    ensures { IfOk result (λ tree. option_map tree_of tree ≡ whole (state_of stack.items mode)) }
{
    match mode {
        Mode::Have(tree) => {
            let mut stack = stack;
            let tree = reduce(alloc, 0, &mut stack, tree)?;
            match take(&mut stack) {
                Some(_) => Ok(None),
                None => Ok(Some(tree)),
            }
        }
        Mode::Want | Mode::Inside(_) => Ok(None),
    }
}
