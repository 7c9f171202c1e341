//! The two ends of a one-way pipe of bytes.
//!
//! Both count how often in a row they answered 0 (`silent`), and may know of bytes that they will
//! move (`sure`), as an end of a ring knows its free places. An end that tells nothing, as a socket,
//! is sure of none. That an end answered 0 in a call of a layer above is `AnsweredZero`: `silent` rose
//! and `sure` was 0. `silent` alone does not say it, since a count that stands at its end stays there.

ghost use Rattle.std.specs.Prelude.{◌≡◌, drop, IsTrue, IfOk};
ghost use Rattle.ds_base.specs.Pipes.{PipeSeen, PipeSteps};

use crate::Failed;

/// The end of a pipe into which bytes are sent.
pub trait PipeTx {
    /// What a contract sees. An object that tells is held to what it tells: the bytes sent.
    ghost seen: { Self → PipeSeen };

    /// Sends some bytes from the front of `piece` and answers how many. 0 for a `piece` that is not
    /// empty means that the pipe was full at a step of this call.
    fn write(&mut self, piece: &[u8]) -> Result<usize, Failed>
        ensures steps { PipeSteps (seen self.old) (seen self.new) piece.now result };
}

/// The end of a pipe from which bytes are received.
pub trait PipeRx {
    /// What a contract sees. An object that tells is held to what it tells: the bytes received.
    ghost seen: { Self → PipeSeen };

    /// Puts some bytes at the front of `buf` and answers how many. 0 for a `buf` that is not empty
    /// means that the pipe was empty at a step of this call.
    fn read(&mut self, buf: &mut [u8]) -> Result<usize, Failed>
        ensures steps { PipeSteps (seen self.old) (seen self.new) buf.new result }
        ensures rest { IsTrue (seen self.old).told → IfOk result (λ n. drop n buf.new ≡ drop n buf.old) };
}
