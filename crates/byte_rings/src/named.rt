//! Ends of pipes that say which pipe they belong to.
//!
//! A link stands on such ends, so that a contract can say that two ends belong together however many
//! calls went between. An end of a pipe that is no ring has any name at all.
ghost use Rattle.std.specs.Prelude.{◌≡◌, drop, IsTrue, IfOk};
ghost use Rattle.ds_base.specs.Pipes.{PipeSteps};
ghost use Rattle.byte_rings.specs.Rings.{PipeName};

use ds_base::{Failed, PipeRx, PipeTx};

/// The sending end of a pipe with a name.
pub trait NamedTx: PipeTx {
    /// Which pipe this is an end of.
    ghost name: { Self → PipeName };

    /// As `write`, and the end stays that of its pipe.
    fn send(&mut self, piece: &[u8]) -> Result<usize, Failed>
        ensures steps { PipeSteps (Self.seen self.old) (Self.seen self.new) piece.now result }
        ensures name { name self.new ≡ name self.old };
}

/// The receiving end of a pipe with a name.
pub trait NamedRx: PipeRx {
    /// Which pipe this is an end of.
    ghost name: { Self → PipeName };

    /// As `read`, and the end stays that of its pipe.
    fn receive(&mut self, buf: &mut [u8]) -> Result<usize, Failed>
        ensures steps { PipeSteps (Self.seen self.old) (Self.seen self.new) buf.new result }
        ensures rest { IsTrue (Self.seen self.old).told → IfOk result (λ n. drop n buf.new ≡ drop n buf.old) }
        ensures name { name self.new ≡ name self.old };
}
