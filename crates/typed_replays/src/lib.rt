//! The terms of theorems are typed. The law is the contract of a function with an empty body; there is no code.
#![tactic(auto)]

ghost use Rattle.typed_replays.specs.Laws.{ReplayedTermsAreTyped};

/// What a script closes has the theorem's type, and mentions no metavariable.
pub fn replayed_terms_are_typed()
    ensures { ReplayedTermsAreTyped }
{}
