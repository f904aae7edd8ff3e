//! Instances, typing and unification as functions that are total on all data, above the relations that define them. Each law says that on shaped data a function
//! is what its relation gives, or that it goes along with renamings of metavariables; it is the contract of a function with an empty body, and there is no code.
#![tactic(auto)]

ghost use Rattle.lf_functions.specs.Laws.{ReplacedIsTheOneResult, InstancesAreTheOneResult, ResultsAreTheOneResult, InstancesAreRenamed, ResultsAreRenamed};
ghost use Rattle.lf_functions.specs.ReplacingLaws.{ReplacedGoesPartByPart, ReplacedKeepsShapes, ReplacedIsRenamed, ReplacedLooksAtWhatOccurs, UnreplacedIsTheSame};
ghost use Rattle.lf_functions.specs.InstanceLaws.{InstancesGoPartByPart, InstancesKeepShapes, ResultsGoPartByPart, InstancesLookAtWhatOccurs, UnassignedInstancesAreTheSame};
ghost use Rattle.lf_functions.specs.MentionLaws.{InstancesMentionWhatIsPut, ResultsMentionWhatIsPut, InstancesAreAmongAnyGoals};
ghost use Rattle.lf_functions.specs.CompositionLaws.{InstancesCompose, FollowingGoesOn, InstancesGoAlongWithResults};
ghost use Rattle.lf_functions.specs.CheckingLaws.{EqualityIsDecided, HasTypeIsTyping, HasTypeIsRenamed, HasTypeLooksAtWhatOccurs, HasTypeKnowsWhatOccurs};
ghost use Rattle.lf_functions.specs.TypedInstanceLaws.{TakenGoalsGoToOthers, InstancesHaveTheirTypes};
ghost use Rattle.lf_functions.specs.EndingLaws.{UnifiersAreTheOneEnd, UnifiersAreAnswers, UnifiersAreRenamed, EntriesAreRenamed, UnifiersLookAtWhatOccurs};

/// What a replacement makes of something shaped is the one result, and is shaped.
pub fn replaced_is_the_one_result()
    ensures { ReplacedIsTheOneResult }
{}

/// The instance of something that is shaped among goals, under an assignment that goes from these to others, is the one that the relation gives.
pub fn instances_are_the_one_result()
    ensures { InstancesAreTheOneResult }
{}

/// The result of a shaped list in something shaped is the one that the relation gives.
pub fn results_are_the_one_result()
    ensures { ResultsAreTheOneResult }
{}

/// Instances go along with a renaming of metavariables.
pub fn instances_are_renamed()
    ensures { InstancesAreRenamed }
{}

/// Results go along with a renaming of metavariables.
pub fn results_are_renamed()
    ensures { ResultsAreRenamed }
{}

/// A replacement goes part by part.
pub fn replaced_goes_part_by_part()
    ensures { ReplacedGoesPartByPart }
{}

/// A replacement keeps the shapes of types and contexts.
pub fn replaced_keeps_shapes()
    ensures { ReplacedKeepsShapes }
{}

/// What replacements make of terms goes along with a renaming of metavariables.
pub fn replaced_is_renamed()
    ensures { ReplacedIsRenamed }
{}

/// What replacements make of terms depends on the heads that occur alone.
pub fn replaced_looks_at_what_occurs()
    ensures { ReplacedLooksAtWhatOccurs }
{}

/// Where each head that occurs stays, nothing changes.
pub fn unreplaced_is_the_same()
    ensures { UnreplacedIsTheSame }
{}

/// Arguments are instantiated one by one, and a goal as its type.
pub fn instances_go_part_by_part()
    ensures { InstancesGoPartByPart }
{}

/// Instances of types and contexts keep their shapes.
pub fn instances_keep_shapes()
    ensures { InstancesKeepShapes }
{}

/// Results of lists go part by part, and keep shapes.
pub fn results_go_part_by_part()
    ensures { ResultsGoPartByPart }
{}

/// Instances depend on what is assigned to the metavariables that occur alone.
pub fn instances_look_at_what_occurs()
    ensures { InstancesLookAtWhatOccurs }
{}

/// What mentions no assigned metavariable is its own instance.
pub fn unassigned_instances_are_the_same()
    ensures { UnassignedInstancesAreTheSame }
{}

/// A metavariable that an instance mentions stayed, or is mentioned in what was put.
pub fn instances_mention_what_is_put()
    ensures { InstancesMentionWhatIsPut }
{}

/// A metavariable that a result mentions was mentioned before, or is mentioned in the list.
pub fn results_mention_what_is_put()
    ensures { ResultsMentionWhatIsPut }
{}

/// The instance of something shaped does not depend on the goals among which it is taken.
pub fn instances_are_among_any_goals()
    ensures { InstancesAreAmongAnyGoals }
{}

/// Instances of instances are those of one assignment after another.
pub fn instances_compose()
    ensures { InstancesCompose }
{}

/// One assignment after another goes from the first goals to the last.
pub fn following_goes_on()
    ensures { FollowingGoesOn }
{}

/// Under an assignment of closed terms, the instance of a result is the result of instances.
pub fn instances_go_along_with_results()
    ensures { InstancesGoAlongWithResults }
{}

/// Equality of terms, spines and types is decided by truth values.
pub fn equality_is_decided()
    ensures { EqualityIsDecided }
{}

/// Where all types are shaped, `has_type` is true exactly where a term has the type.
pub fn has_type_is_typing()
    ensures { HasTypeIsTyping }
{}

/// Whether a term has a type does not change where metavariables are renamed.
pub fn has_type_is_renamed()
    ensures { HasTypeIsRenamed }
{}

/// Whether a term has a type depends on the goals that it mentions alone.
pub fn has_type_looks_at_what_occurs()
    ensures { HasTypeLooksAtWhatOccurs }
{}

/// A term that has a type mentions no metavariable but the goals.
pub fn has_type_knows_what_occurs()
    ensures { HasTypeKnowsWhatOccurs }
{}

/// An assignment that takes goals to others goes from the ones to the others.
pub fn taken_goals_go_to_others()
    ensures { TakenGoalsGoToOthers }
{}

/// Where goals are taken to others, instances have the instances of their types.
pub fn instances_have_their_types()
    ensures { InstancesHaveTheirTypes }
{}

/// Shaped equations between atoms have `unifier_of` as their one end.
pub fn unifiers_are_the_one_end()
    ensures { UnifiersAreTheOneEnd }
{}

/// Where they are solved, the entries are an answer.
pub fn unifiers_are_answers()
    ensures { UnifiersAreAnswers }
{}

/// The end goes along with a renaming of metavariables.
pub fn unifiers_are_renamed()
    ensures { UnifiersAreRenamed }
{}

/// Renamed entries assign what the entries assign, renamed.
pub fn entries_are_renamed()
    ensures { EntriesAreRenamed }
{}

/// The end depends on the equations, and on which of the metavariables that they mention are frozen.
pub fn unifiers_look_at_what_occurs()
    ensures { UnifiersLookAtWhatOccurs }
{}
