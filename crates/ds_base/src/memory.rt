//! Want of memory.

use thiserror::Error;

/// Memory was asked for and there was none. No contract says when it comes.
#[derive(Clone, Copy, Debug, PartialEq, Eq, Error)]
#[error("out of memory")]
pub struct OutOfMemory;
