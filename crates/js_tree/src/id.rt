//! Numbers of nodes.

/// The number of a node, counted from 0: its place in each column of nodes. Program has 0.
#[derive(Debug, Clone, Copy, PartialEq, Eq)]
pub struct NodeId(pub usize);
