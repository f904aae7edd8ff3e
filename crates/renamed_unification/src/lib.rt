//! Unification goes along with renamings of metavariables, and looks at no metavariable that its equations don't mention. Each law is the contract of a function
//! with an empty body; there is no code.
#![tactic(auto)]

ghost use Rattle.renamed_unification.specs.Laws.{UnificationIsRenamed, RenamedEquationsEndAlike, UnificationLooksAtWhatOccurs};

/// Renamed equations end as the equations do, renamed.
pub fn unification_is_renamed()
    ensures { UnificationIsRenamed }
{}

/// Renamed equations end with nothing else: for the same reason, at the same path.
pub fn renamed_equations_end_alike()
    ensures { RenamedEquationsEndAlike }
{}

/// The end depends on the equations, and on which of the metavariables that they mention are frozen.
pub fn unification_looks_at_what_occurs()
    ensures { UnificationLooksAtWhatOccurs }
{}
