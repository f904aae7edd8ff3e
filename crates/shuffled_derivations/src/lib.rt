//! Derivations of lists that fall apart: a derivation of a list is one of each of its clusters. Each law is the contract of a function with an empty body; there is no code.
#![tactic(auto)]

ghost use Rattle.shuffled_derivations.specs.Laws.{LengthsAreOfDerivations, RenumberedListsDeriveAlike, DerivationsShuffle, DerivationsAreOfClusters, DerivationsAreOfChildren, DerivableTypesOpen};

/// Derivations have lengths.
pub fn lengths_are_of_derivations()
    ensures { LengthsAreOfDerivations }
{}

/// Numbers of goals make no difference to derivations.
pub fn renumbered_lists_derive_alike()
    ensures { RenumberedListsDeriveAlike }
{}

/// Where no mention crosses a border, a derivation is one of what is inside and one of what is outside.
pub fn derivations_shuffle()
    ensures { DerivationsShuffle }
{}

/// A derivation of a list is one of each of its clusters.
pub fn derivations_are_of_clusters()
    ensures { DerivationsAreOfClusters }
{}

/// A derivation of a list that has a goal is one of each child of one of its branches.
pub fn derivations_are_of_children()
    ensures { DerivationsAreOfChildren }
{}

/// A type is derivable where its opening list is.
pub fn derivable_types_open()
    ensures { DerivableTypesOpen }
{}
