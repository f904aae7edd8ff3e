//! Laws, each the contract of a function that does nothing.

ghost use Rattle.printed_terms.specs.Laws.{NamesHaveNameBytes, NamesHaveNoSigns, PrintedTermsAreLines, PrintedTermsAreOne, PrintedTermsEndThemselves, PrintedTermsHaveTheirTrees, PrintedTermsReadBack, PrintedTypesAreOne};

/// A law: a byte of a name is a letter, a digit or an underscore, or of a character above ASCII. So it is no
/// space, no line end and no sign.
pub fn names_have_no_signs()
    ensures bytes { NamesHaveNameBytes }
    ensures signs { NamesHaveNoSigns }
{}

/// A law: a printed term has no line end, no slash and no at sign.
pub fn printed_terms_are_lines()
    ensures { PrintedTermsAreLines }
{}

/// A law: two terms with one text are the same, also where other text follows with which neither goes on.
pub fn printed_terms_are_one()
    ensures same { PrintedTermsAreOne }
    ensures parts { PrintedTermsEndThemselves }
{}

/// A law: two types with one text are the same.
pub fn printed_types_are_one()
    ensures { PrintedTypesAreOne }
{}

/// A law: a printed term is cut into its tokens, and the grammar reads these as a tree of it.
pub fn printed_terms_have_their_trees()
    ensures { PrintedTermsHaveTheirTrees }
{}

/// A law: what is printed for a closed term at depth 0 reads back to it at its type.
pub fn printed_terms_read_back()
    ensures { PrintedTermsReadBack }
{}
