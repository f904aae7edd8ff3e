//! Right blocks can be written: their terms are closed, and their steps name rules of the book. The law is the contract of a function with an empty body; there is no code.
#![tactic(auto)]

ghost use Rattle.written_answers.specs.Laws.{RightBlocksAreWritable};

/// A right block for a theorem over a book can be written by its names.
pub fn right_blocks_are_writable()
    ensures { RightBlocksAreWritable }
{}
