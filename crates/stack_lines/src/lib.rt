//! The lines of a capture: for each record its number, its time and its headers, or the value of one
//! field; then whether the file ends inside a record. They are written while the capture is read, and
//! before a malformed place all lines of the records before it.
#![tactic(auto)]

mod fault;
mod line;
mod printer;
mod printing;

pub use fault::StackFault;
pub use line::Asking;
pub use printing::print_stack;
