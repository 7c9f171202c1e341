//! The trait of what is read from the outside.

ghost use Rattle.std.specs.Prelude.{◌≡◌, ◌<◌, ◌≤◌, ◌++◌, [], length, take, IsTrue, IfOk, OnErr, MatchResult, Ok};
ghost use Rattle.ds_base.specs.Faults.{Rose};
ghost use Rattle.ds_base.specs.Outside.{SourceSeen, SourceStays};

use thiserror::Error;

/// A call of the outside failed. The object's count of failures rose in that call.
#[derive(Clone, Copy, Debug, PartialEq, Eq, Error)]
#[error("a call of the outside failed")]
pub struct Failed;

/// Bytes that come from the outside, such as an opened file.
///
/// A source is *told* where it tells what it holds: its `seen` has `told` true, and `whole` and `left`
/// are its bytes, all of them and those not yet read. What a source does to bytes is promised of told
/// ones alone, so each clause on `left` begins with told, and a source in memory is told. A file of
/// the disk is *untold*: nothing can be proved of what it holds, and its lists mean nothing. Told or
/// untold, the count `faults` rises exactly where a read fails, and no call makes a told object untold.
/// The other traits of the outside speak in the same way.
pub trait Source {
    /// What a contract sees. An object that tells is held to what it tells.
    ghost seen: { Self → SourceSeen };

    /// Moves some of the bytes left to the front of `buf` and answers how many. 0 for a `buf` that is
    /// not empty is the end.
    fn read(&mut self, buf: &mut [u8]) -> Result<usize, Failed>
        ensures stays { SourceStays (seen self.old) (seen self.new) }
        ensures faults { MatchResult result
            (λ _. (seen self.new).faults ≡ (seen self.old).faults)
            (λ _. Rose (seen self.old).faults (seen self.new).faults) }
        ensures within { IfOk result (λ n. n ≤ length buf.old) }
        ensures moved { IsTrue (seen self.old).told →
            IfOk result (λ n. (seen self.old).left ≡ take n buf.new ++ (seen self.new).left) }
        ensures at_end { IsTrue (seen self.old).told → 0 < length buf.old → result ≡ Ok 0 → (seen self.old).left ≡ [] }
        ensures failed { IsTrue (seen self.old).told → OnErr result ((seen self.new).left ≡ (seen self.old).left) };
}
