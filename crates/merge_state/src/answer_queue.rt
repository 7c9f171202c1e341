//! The answers whose lines were not pushed.
ghost use Rattle.std.specs.Prelude.{◌≡◌, [], drop, slice_get, MatchOption, OnOk, Some};
ghost use Rattle.merge_state.specs.Queues.{put_in};

use ds_base::{Answer, OutOfMemory, Stamp};
use std::alloc::Global;
use std::collections::BTreeMap;
use std::marker::Model;

/// Answers in the order of their firsts' stamps, of which no two are equal. Contracts see them in this
/// order.
#[derive(Drop)]
pub(crate) struct AnswerQueue {
    /// Where an answer takes its memory.
    alloc: Global,
    /// The answers by their firsts' stamps. An answer is large, so what the map moves about is its box.
    answers: BTreeMap<Stamp, Box<Answer>>,
}

impl Model for AnswerQueue {
    ghost use Rattle.std.specs.Prelude.{List};
    ghost use Rattle.ds_base.specs.declared.verdict.Answer.{Answer};
    ghost use Rattle.merge_state.specs.Queues.{AreStamped, unboxed};

    ghost Value = { List Answer };

    ghost view = { λ q. unboxed q.answers.entries };

    ghost invariant = { λ q. AreStamped q.answers.entries };
}

impl AnswerQueue {
    /// No answer. It takes no memory.
    pub(crate) fn new(alloc: Global) -> Self
        ensures { result ≡ [] }
    {
        AnswerQueue {
            alloc,
            answers: BTreeMap::new(alloc),
        }
    }

    /// Puts an answer in its place. It takes the place of one of equal stamp, of which a run has none. It
    /// is refused for want of memory alone.
    pub(crate) fn add(&mut self, answer: &Answer) -> Result<(), OutOfMemory>
        ensures { OnOk result (self.new ≡ put_in answer.now self.old) }
    {
        let Ok(held) = Box::new(self.alloc, *answer) else {
            return Err(OutOfMemory);
        };
        let Ok(_) = self.answers.insert(answer.first, held) else {
            return Err(OutOfMemory);
        };
        Ok(())
    }

    /// The first answer.
    pub(crate) fn first(&self) -> Option<&Answer>
        ensures { MatchOption result (self.now ≡ []) (λ answer. slice_get self.now 0 ≡ Some answer.now) }
    {
        let (_, held) = self.answers.first_key_value()?;
        Some(held.as_ref())
    }

    /// Takes the first answer out, if there is one.
    pub(crate) fn pop(&mut self)
        ensures { self.new ≡ drop 1 self.old }
    {
        self.answers.pop_first();
    }
}
