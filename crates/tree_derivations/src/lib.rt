//! The tree of copied and regrouped goals closes exactly where one list of goals under one substitution does. Each law is the contract of a function with an empty body;
//! there is no code.
#![tactic(auto)]

ghost use Rattle.tree_derivations.specs.Laws.{MarksDecideDerivability, SmallTheoremsAreDecided};

/// A theorem is derivable where its root is proved, and not where it is stuck; one that is derivable is proved in some finite set.
pub fn marks_decide_derivability()
    ensures { MarksDecideDerivability }
{}

/// As many addresses as the unfolding of a theorem has decide it.
pub fn small_theorems_are_decided()
    ensures { SmallTheoremsAreDecided }
{}
