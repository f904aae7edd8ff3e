//! Laws, each the contract of a function that does nothing.

ghost use Rattle.printed_types.specs.Laws.{PrintedTreesAreReadBack, PrintedTypesReadBack};

/// A law: elaborating a tree of a printed type gives the type.
pub fn printed_trees_are_read_back()
    ensures { PrintedTreesAreReadBack }
{}

/// A law: what is printed for a well-formed type at depth 0 reads back to it, under the limits of the
/// language.
pub fn printed_types_read_back()
    ensures { PrintedTypesReadBack }
{}
