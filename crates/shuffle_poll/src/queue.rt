//! The frames that wait for a link, of which there are at most two.
ghost use Rattle.std.specs.Prelude.{◌≡◌, ◌==◌, ◌<◌, ◌≤◌, [], ◌∷◌, ◌++◌, length, drop, MatchOption};

use node_frames::Frame;
use std::marker::Model;

/// At most two frames, in the order in which they were put.
#[derive(Drop)]
pub(crate) struct Queue {
    first: Option<Frame>,
    second: Option<Frame>,
}

impl Model for Queue {
    ghost use Rattle.std.specs.Prelude.{List, ◌≡◌, ◌++◌, option_to_list, None};
    ghost use Rattle.node_frames.specs.declared.frame.Frame.{Frame};

    ghost Value = { List Frame };

    ghost view = { λ q. option_to_list q.first ++ option_to_list q.second };

    ghost invariant = { λ q. q.first ≡ None → q.second ≡ None };
}

impl Queue {
    /// No frames.
    pub(crate) fn new() -> Self
        ensures { result ≡ [] }
    {
        Queue {
            first: None,
            second: None,
        }
    }

    /// How many frames wait.
    pub(crate) fn len(&self) -> u32
        ensures long { result ≡ length self.now }
        ensures few { length self.now ≤ 2 }
    {
        match (&self.first, &self.second) {
            (None, _) => 0,
            (Some(_), None) => 1,
            (Some(_), Some(_)) => 2,
        }
    }

    /// Puts a frame behind those that wait.
    pub(crate) fn push(&mut self, frame: Frame)
        requires { length self.old < 2 }
        ensures { self.new ≡ self.old ++ frame ∷ [] }
    {
        if self.first.is_none() {
            self.first = Some(frame);
        } else {
            self.second = Some(frame);
        }
    }

    /// The frame that was put first.
    pub(crate) fn front(&self) -> Option<&Frame>
        ensures { MatchOption result (self.now ≡ []) (λ frame. self.now ≡ frame.now ∷ drop 1 self.now) }
    {
        self.first.as_ref()
    }

    /// Takes the frame that was put first out.
    pub(crate) fn drop_front(&mut self)
        ensures { self.new ≡ drop 1 self.old }
    {
        self.first = self.second;
        self.second = None;
    }
}
