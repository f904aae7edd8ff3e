//! Laws, each the contract of a function that does nothing.

ghost use Rattle.printed_trees.specs.Laws.{PrintedTypesHaveTheirTrees};

/// A law: the grammar reads the tokens of a printed type as a tree of it.
pub fn printed_types_have_their_trees()
    ensures { PrintedTypesHaveTheirTrees }
{}
