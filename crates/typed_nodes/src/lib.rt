//! Clusters of well-formed goals, and the nodes of the unfolding of a well-formed type, are well formed. Each law is the contract of a function with an empty body; there is
//! no code.
#![tactic(auto)]

ghost use Rattle.typed_nodes.specs.Laws.{ClustersAreFormed, NodesAreFormed};

/// Clusters of well-formed goals are well formed.
pub fn clusters_are_formed()
    ensures { ClustersAreFormed }
{}

/// So is every node of the unfolding.
pub fn nodes_are_formed()
    ensures { NodesAreFormed }
{}
