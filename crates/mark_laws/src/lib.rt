//! What the marks of a tree mean: over any branches for which derivations follow children, what is proved has a derivation and what is stuck has none. Each law is the
//! contract of a function with an empty body; there is no code.
#![tactic(auto)]

ghost use Rattle.std.specs.Prelude.{ℕ, List};
ghost use Rattle.mark_laws.specs.Laws.{ProvedHasDerivation, StuckHasNoDerivation, DerivationsAreFound, SmallUnfoldingsAreDecided};

/// Any branches, and any derivations. A clause can't range over these, so the laws take them as members of a bound.
pub trait Derivable {
    /// Which nodes are own ones.
    ghost is_own: { Self → Type 0 };

    /// For each alternative its percentage and its children.
    ghost branches: { Self → List (ℕ × List Self) };

    /// A node has a derivation of this length.
    ghost derives: { ℕ → Self → Type 0 };
}

/// What is proved has a derivation.
pub fn proved_has_derivation<S: Derivable>()
    ensures { ProvedHasDerivation S.is_own S.branches S.derives }
{}

/// What is stuck has none.
pub fn stuck_has_no_derivation<S: Derivable>()
    ensures { StuckHasNoDerivation S.is_own S.branches S.derives }
{}

/// Whatever has a derivation is proved in some finite set.
pub fn derivations_are_found<S: Derivable>()
    ensures { DerivationsAreFound S.is_own S.branches S.derives }
{}

/// As many addresses as the unfolding has decide the root.
pub fn small_unfoldings_are_decided<S>()
    ensures { SmallUnfoldingsAreDecided S }
{}
