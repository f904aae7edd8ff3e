//! Laws, each the contract of a function that does nothing.

ghost use Rattle.rule_problem.specs.Laws.{BranchesAreOfAlternatives, TypesOverBooksAreTheorems};

/// The branches of a book are those of its rules: a tree over it stands over the unfolding.
pub fn branches_are_of_alternatives()
    ensures { BranchesAreOfAlternatives }
{}

/// A well-formed type over a book is what laws of theorems ask for.
pub fn types_over_books_are_theorems()
    ensures { TypesOverBooksAreTheorems }
{}
