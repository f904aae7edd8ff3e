//! The laws of typing under replacements, substitutions and instantiations. The definitions stand below; the laws are the contracts of
//! functions with an empty body, and there is no other code here.
#![tactic(auto)]

ghost use Rattle.typing_laws.specs.ClosedTypes.{ShapedTypingsAreClosed, SignaturesAreClosed, SignaturesStay, FormedGoalsAreClosed, TypingsAreClosed};
ghost use Rattle.typing_laws.specs.EtaLaws.{EtaFormsHaveTheirTypes, OwnVariablesAreTyped, ExpansionsHaveTheirTypes};
ghost use Rattle.typing_laws.specs.GoalLaws.{GoalsAreTheirTypes, GoalsGrow, GoalsThatStayAreKept, AssignedGoalsAreKept};
ghost use Rattle.typing_laws.specs.InstantiationLaws.{InstantiationsKeepTypes, InstantiationsHaveResults, InstantiationsKeepWhatIsFormed};
ghost use Rattle.typing_laws.specs.Laws.{ReplacementsKeepTypes, TypedTermsHaveResults, ReplacementsKeepWhatIsFormed, SubstitutionsKeepTypes, SubstitutionsKeepWhatIsFormed};

/// A replacement that goes from one typing to another keeps the types of terms and of arguments.
pub fn replacements_keep_types()
    ensures { ReplacementsKeepTypes }
{}

/// A typed term and its type have results under a replacement that goes from one typing to another.
pub fn typed_terms_have_results()
    ensures { TypedTermsHaveResults }
{}

/// A replacement that goes from one typing to another, and leaves the kinds as they are, keeps well-formed types and contexts.
pub fn replacements_keep_what_is_formed()
    ensures { ReplacementsKeepWhatIsFormed }
{}

/// A typed list, put for the innermost variables outside local binders, keeps the types of terms and of arguments.
pub fn substitutions_keep_types()
    ensures { SubstitutionsKeepTypes }
{}

/// A typed list, put for the innermost variables outside local binders, keeps well-formed types and contexts.
pub fn substitutions_keep_what_is_formed()
    ensures { SubstitutionsKeepWhatIsFormed }
{}

/// Where all types of heads are shaped, those of constants and metavariables speak of no variable, and neither do the kinds.
pub fn shaped_typings_are_closed()
    ensures { ShapedTypingsAreClosed }
{}

/// In a well-formed signature types and kinds speak of no variable and of no metavariable.
pub fn signatures_are_closed()
    ensures { SignaturesAreClosed }
{}

/// What keeps constants leaves the types and kinds of a well-formed signature as they are.
pub fn signatures_stay()
    ensures { SignaturesStay }
{}

/// The types of well-formed goals speak of no variable, and the goals are shaped.
pub fn formed_goals_are_closed()
    ensures { FormedGoalsAreClosed }
{}

/// Over a well-formed signature and well-formed goals, constants and metavariables have closed types in every context.
pub fn typings_are_closed()
    ensures { TypingsAreClosed }
{}

/// An assignment that keeps the types of goals keeps those of terms and of arguments, in every context. No order among the goals is asked for.
pub fn instantiations_keep_types()
    ensures { InstantiationsKeepTypes }
{}

/// Under such an assignment contexts, types and typed terms have results.
pub fn instantiations_have_results()
    ensures { InstantiationsHaveResults }
{}

/// It keeps well-formed types, contexts and goals.
pub fn instantiations_keep_what_is_formed()
    ensures { InstantiationsKeepWhatIsFormed }
{}

/// The eta-long form of a head has the head's type.
pub fn eta_forms_have_their_types()
    ensures { EtaFormsHaveTheirTypes }
{}

/// A context's own variables have the types of its entries.
pub fn own_variables_are_typed()
    ensures { OwnVariablesAreTyped }
{}

/// A head whose first arguments have their types, made eta-long, has the type of what it still takes.
pub fn expansions_have_their_types()
    ensures { ExpansionsHaveTheirTypes }
{}

/// A goal is well formed where its type is, with no variables.
pub fn goals_are_their_types()
    ensures { GoalsAreTheirTypes }
{}

/// What is typed or well formed among goals is so among more goals, if their numbers differ.
pub fn goals_grow()
    ensures { GoalsGrow }
{}

/// An assignment keeps a goal that it leaves, where the goal's instance is one of the others.
pub fn goals_that_stay_are_kept()
    ensures { GoalsThatStayAreKept }
{}

/// An assignment keeps a goal for which it puts a body that is typed at the goal's instance.
pub fn assigned_goals_are_kept()
    ensures { AssignedGoalsAreKept }
{}
