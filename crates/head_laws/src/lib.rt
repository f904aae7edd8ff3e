//! Laws above the definitions of terms, substitution and typing: where heads occur, and that renaming, replacing and typing look at no
//! other head; how assignments compose; how all of it goes along with renamings of metavariables, and lists of goals with new numbers.
//! Below stand the definitions and their laws alone. Each law is the contract of a function with an empty body; there is no code.
#![tactic(auto)]

ghost use Rattle.head_laws.specs.OccurrenceLaws.{OccurrenceIsDecided, RenamingsAgree, OccurrencesAreRenamed, ReplacementsAgree, UnreplacedTermsStay, ResultsMention};
ghost use Rattle.head_laws.specs.ReplacementLaws.{TypesAndContextsHaveOneResult, ReplacementsCompose, GoalsAreInstantiatedAsTypes};
ghost use Rattle.head_laws.specs.AssignmentLaws.{AssignmentsCompose, AssignmentsHaveAComposite, InstantiationGoesAlongWithSubstitution};
ghost use Rattle.head_laws.specs.MetavariableLaws.{ResultsOfRenamedTermsAreRenamed, InstantiationsAreRenamed, ResultsOfInstantiationAreRenamed, RenamedMetavariablesKeepShapes, TypingIsRenamed, FailuresAreRenamed, MetavariablesOccurRenamed, GoalTypesAreRenamed};
ghost use Rattle.head_laws.specs.LookupLaws.{TypingLooksUpWhatOccurs, TypedHeadsAreKnown, GoalsMayChange};
ghost use Rattle.head_laws.specs.GoalListLaws.{AboveIsGreater, GoalsMentionNoOthers, UpToIsByPlace, UpToIsInjective, CanonNumbersByPlace, CanonIsUndone, CanonForgetsNumbers, RenumberedGoalsStayClosed};
ghost use Rattle.head_laws.specs.RenamedGoalLaws.{SignaturesMentionNoMetavariable, RenamedGoalsHaveTypesRenamed, RenamedGoalsAreFormed};

/// Whether a head occurs in a term, a spine, a type or a context is decided by truth values, and so is whether it does rigidly.
pub fn occurrence_is_decided()
    ensures { OccurrenceIsDecided }
{}

/// Renamings that agree on the heads that occur give the same.
pub fn renamings_agree()
    ensures { RenamingsAgree }
{}

/// What occurs in a renamed term is what a head that occurs in the term became.
pub fn occurrences_are_renamed()
    ensures { OccurrencesAreRenamed }
{}

/// Replacements that agree on the heads that occur have the same results.
pub fn replacements_agree()
    ensures { ReplacementsAgree }
{}

/// Where each head that occurs stays, nothing changes.
pub fn unreplaced_terms_stay()
    ensures { UnreplacedTermsStay }
{}

/// What occurs in a result comes from the image of a head that occurs in what was replaced in.
pub fn results_mention()
    ensures { ResultsMention }
{}

/// In shaped types, contexts and goals there is exactly one result, and it is shaped.
pub fn types_and_contexts_have_one_result()
    ensures { TypesAndContextsHaveOneResult }
{}

/// One replacement after another is one that does to each head what they do.
pub fn replacements_compose()
    ensures { ReplacementsCompose }
{}

/// A goal is instantiated, and shaped, as its type is.
pub fn goals_are_instantiated_as_types()
    ensures { GoalsAreInstantiatedAsTypes }
{}

/// One assignment after another is one that does to each metavariable that is known what they do.
pub fn assignments_compose()
    ensures { AssignmentsCompose }
{}

/// There is such an assignment.
pub fn assignments_have_a_composite()
    ensures { AssignmentsHaveAComposite }
{}

/// Closed terms may be put for metavariables before a list is substituted, or afterwards.
pub fn instantiation_goes_along_with_substitution()
    ensures { InstantiationGoesAlongWithSubstitution }
{}

/// Each result of a renamed term is a renamed result.
pub fn results_of_renamed_terms_are_renamed()
    ensures { ResultsOfRenamedTermsAreRenamed }
{}

/// Instantiation goes along with a renaming of metavariables, both ways.
pub fn instantiations_are_renamed()
    ensures { InstantiationsAreRenamed }
{}

/// What a renamed assignment makes of something renamed is a renamed result.
pub fn results_of_instantiation_are_renamed()
    ensures { ResultsOfInstantiationAreRenamed }
{}

/// Shapes stay where metavariables are renamed.
pub fn renamed_metavariables_keep_shapes()
    ensures { RenamedMetavariablesKeepShapes }
{}

/// Typing goes along with a renaming of metavariables, both ways.
pub fn typing_is_renamed()
    ensures { TypingIsRenamed }
{}

/// The first failure is at the same path where metavariables are renamed.
pub fn failures_are_renamed()
    ensures { FailuresAreRenamed }
{}

/// A head occurs where its new one does afterwards.
pub fn metavariables_occur_renamed()
    ensures { MetavariablesOccurRenamed }
{}

/// The type of a renamed goal is the goal's, renamed.
pub fn goal_types_are_renamed()
    ensures { GoalTypesAreRenamed }
{}

/// Typing, being well formed and failing depend on the types of the heads that occur alone.
pub fn typing_looks_up_what_occurs()
    ensures { TypingLooksUpWhatOccurs }
{}

/// Each head that occurs in what is typed or well formed has a type.
pub fn typed_heads_are_known()
    ensures { TypedHeadsAreKnown }
{}

/// Typing among goals depends on the goals that are mentioned alone.
pub fn goals_may_change()
    ensures { GoalsMayChange }
{}

/// `above` is greater than each number of the list.
pub fn above_is_greater()
    ensures { AboveIsGreater }
{}

/// Goals that are well formed mention no metavariable but these goals.
pub fn goals_mention_no_others()
    ensures { GoalsMentionNoOthers }
{}

/// `up_to` gives the number at a place of a list, and further numbers past its end.
pub fn up_to_is_by_place()
    ensures { UpToIsByPlace }
{}

/// `up_to` is injective for numbers that differ, with further numbers above them.
pub fn up_to_is_injective()
    ensures { UpToIsInjective }
{}

/// The numbers of `canon` are the places.
pub fn canon_numbers_by_place()
    ensures { CanonNumbersByPlace }
{}

/// The old numbers, put for the places, give the goals back.
pub fn canon_is_undone()
    ensures { CanonIsUndone }
{}

/// Goals and the same with other numbers have one `canon`.
pub fn canon_forgets_numbers()
    ensures { CanonForgetsNumbers }
{}

/// Goals with other numbers are still closed, and their numbers still differ.
pub fn renumbered_goals_stay_closed()
    ensures { RenumberedGoalsStayClosed }
{}

/// The kinds and the types of a shaped signature mention no metavariable.
pub fn signatures_mention_no_metavariable()
    ensures { SignaturesMentionNoMetavariable }
{}

/// Among renamed goals each head has its type, renamed.
pub fn renamed_goals_have_types_renamed()
    ensures { RenamedGoalsHaveTypesRenamed }
{}

/// Goals are well formed where they are so under other numbers, or under their places.
pub fn renamed_goals_are_formed()
    ensures { RenamedGoalsAreFormed }
{}
