//! The trait of what workers pass at the beginning of a phase.

/// What each worker passes once at the beginning of a phase.
pub trait Gate {
    /// Lets a worker pass. It returns for every worker.
    fn pass(&self, worker: u32);
}

/// A gate at which nobody waits.
#[derive(Clone, Copy, Debug, PartialEq, Eq)]
pub struct OpenGate;

impl Gate for OpenGate {
    fn pass(&self, _worker: u32) {}
}
