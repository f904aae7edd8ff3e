//! Opening a type in a context: its definition, as a relation, the conditions under which a type may be opened, and the laws of both. Each law
//! is the contract of a function with an empty body; there is no code.
#![tactic(auto)]

ghost use Rattle.opening_laws.specs.Laws.{AllMayBeKept, OpeningsAreUnique, TypesAreOpened, OpeningsAreShaped, FreshGoalsAreNumbered, OpeningsMention, OpeningsAreRenamed, OpeningsAreTyped};

/// Where all of the context is kept, little is asked, and nothing is seen otherwise.
pub fn all_may_be_kept()
    ensures { AllMayBeKept }
{}

/// A type is opened in one way at most.
pub fn openings_are_unique()
    ensures { OpeningsAreUnique }
{}

/// Under the conditions there is exactly one result.
pub fn types_are_opened()
    ensures { TypesAreOpened }
{}

/// Terms, fresh goals and conclusion are shaped, among the goals and the fresh ones.
pub fn openings_are_shaped()
    ensures { OpeningsAreShaped }
{}

/// There is one fresh goal for each argument that isn't fixed, and the fresh numbers follow one another.
pub fn fresh_goals_are_numbered()
    ensures { FreshGoalsAreNumbered }
{}

/// Terms, fresh goals and conclusion mention no metavariables but fresh ones and those of the context and the type.
pub fn openings_mention()
    ensures { OpeningsMention }
{}

/// Opening goes along with a renaming of metavariables that takes the fresh numbers to fresh numbers.
pub fn openings_are_renamed()
    ensures { OpeningsAreRenamed }
{}

/// Where the context and the type are well formed, and each fixed argument asks for the type of its hypothesis, all is typed and well formed.
pub fn openings_are_typed()
    ensures { OpeningsAreTyped }
{}
