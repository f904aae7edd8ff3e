//! The laws of what there is to say of the tree of a term, a type or a kind in a file: it is read as
//! one, or refused for one fault. `elab_terms` says what each of these means, and that no tree has
//! two verdicts; here is that each has one, over a well-formed signature and in any well-formed
//! context. So whoever reads has an answer to give, and no tree is left out.
//! Each law is the contract of a function with an empty body; there is no code.
#![tactic(auto)]

ghost use Rattle.reading_verdicts.specs.Verdicts.{TreesHaveOneVerdict};

/// A tree has exactly one verdict, as a term of a given type, as a type and as a kind.
pub fn trees_have_one_verdict()
    ensures { TreesHaveOneVerdict }
{}
