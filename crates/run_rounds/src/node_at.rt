//! Which node met a fault.
use credit_link::NodeFault;

/// A node's fault, and which node it is.
#[derive(Clone, Copy, Debug, PartialEq, Eq)]
pub struct NodeAt {
    /// The node's number: parsers, groupers, processors, merge.
    pub node: u32,
    /// Why it goes no further.
    pub fault: NodeFault,
}
