//! The definitions that every layer above speaks of: terms, shapes and types of LF as plain data, hereditary substitution and typing as
//! relations. The laws are the contracts of functions with an empty body. There is no other code here.
#![tactic(auto)]

ghost use Rattle.lf_definitions.specs.Laws.{ImagesAreByNumber, ShapedSubstitutionsHaveOneResult, SubstitutionsCompose, SubstitutionsAreSimultaneous, OwnVariablesChangeNothing, EtaVariablesBecomeTheirTerms, EtaFormsRename, EtaFormsAreShaped, RenamingsCompose, RenamingsKeepShapes, RenamingsKeepSizes, RenamingsAreInjective, SubstitutionsAreRenamed, RenamingsKeepTypes, TypedTermsAreShaped};
ghost use Rattle.lf_definitions.specs.TypingLaws.{FailuresExcludeDerivations, FirstFailuresAreUnique, ShapedChecksHaveAResult, FormedContextsAreShaped, RenamingsKeepWhatIsFormed, SignaturesGrow, EntriesAreFormed};

/// What a list for the innermost variables does to each head, by numbers.
pub fn images_are_by_number()
    ensures { ImagesAreByNumber }
{}

/// Every shaped substitution has exactly one result, and it is shaped.
pub fn shaped_substitutions_have_one_result()
    ensures { ShapedSubstitutionsHaveOneResult }
{}

/// One substitution after another is one, where the second's list was for the variables that remain.
pub fn substitutions_compose()
    ensures { SubstitutionsCompose }
{}

/// Two lists that don't speak of each other's variables may be put one after the other, or at once.
pub fn substitutions_are_simultaneous()
    ensures { SubstitutionsAreSimultaneous }
{}

/// Eta-long variables, put for themselves, change nothing.
pub fn own_variables_change_nothing()
    ensures { OwnVariablesChangeNothing }
{}

/// A term put for an eta-long variable stands in its place.
pub fn eta_variables_become_their_terms()
    ensures { EtaVariablesBecomeTheirTerms }
{}

/// Eta-long forms, put for heads, rename these.
pub fn eta_forms_rename()
    ensures { EtaFormsRename }
{}

/// The eta-long form of a head has its shape.
pub fn eta_forms_are_shaped()
    ensures { EtaFormsAreShaped }
{}

/// One renaming after another is a renaming.
pub fn renamings_compose()
    ensures { RenamingsCompose }
{}

/// A renaming that keeps the shapes of heads keeps those of terms.
pub fn renamings_keep_shapes()
    ensures { RenamingsKeepShapes }
{}

/// A renaming keeps sizes.
pub fn renamings_keep_sizes()
    ensures { RenamingsKeepSizes }
{}

/// A renaming that keeps heads apart keeps terms apart.
pub fn renamings_are_injective()
    ensures { RenamingsAreInjective }
{}

/// Renaming goes through substitution.
pub fn substitutions_are_renamed()
    ensures { SubstitutionsAreRenamed }
{}

/// A renaming of variables that keeps the types of heads keeps those of terms.
pub fn renamings_keep_types()
    ensures { RenamingsKeepTypes }
{}

/// Typed terms are shaped, and so are well-formed types.
pub fn typed_terms_are_shaped()
    ensures { TypedTermsAreShaped }
{}

/// What fails at a path isn't typed or well formed.
pub fn failures_exclude_derivations()
    ensures { FailuresExcludeDerivations }
{}

/// The path of the first failure is unique.
pub fn first_failures_are_unique()
    ensures { FirstFailuresAreUnique }
{}

/// Where all types are shaped, each term is typed or fails at a path, and each type, context and kind is well formed or fails at a path.
pub fn shaped_checks_have_a_result()
    ensures { ShapedChecksHaveAResult }
{}

/// Well-formed contexts, kinds and signatures are shaped.
pub fn formed_contexts_are_shaped()
    ensures { FormedContextsAreShaped }
{}

/// A renaming of variables that keeps the types of heads keeps well-formed types and contexts.
pub fn renamings_keep_what_is_formed()
    ensures { RenamingsKeepWhatIsFormed }
{}

/// What is typed or well formed over a signature is so over each that begins with it.
pub fn signatures_grow()
    ensures { SignaturesGrow }
{}

/// In a well-formed signature each entry is well formed over the whole, and the names differ.
pub fn entries_are_formed()
    ensures { EntriesAreFormed }
{}
