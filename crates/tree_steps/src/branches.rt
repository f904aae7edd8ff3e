//! The branches of a node.

/// One alternative: its percentage and its children.
#[derive(Drop)]
pub struct Branch<N> {
    pub percent: u8,
    pub nodes: Vec<N>,
}

/// The alternatives of a node, in order.
#[derive(Drop)]
pub struct Branches<N> {
    pub alternatives: Vec<Branch<N>>,
}
