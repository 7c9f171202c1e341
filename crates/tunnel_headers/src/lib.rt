//! The headers of GRE and VXLAN, after which another packet begins: for each, whether it stands at
//! the start of some bytes, how long it is, what stands after it and where the bytes after it end.
//! One file a header; whoever adds one adds a file here and a line in the header stack.
#![tactic(auto)]

mod gre;
mod vxlan;

pub use gre::read_gre;
pub use vxlan::read_vxlan;
