//! Laws, each the contract of a function that does nothing.

ghost use Rattle.file_elab.specs.Laws.{AFileHasOneProgram, ProgramsHaveGrammarNames};

/// A law: a file has one program at most, or is refused for one fault.
pub fn a_file_has_one_program()
    ensures { AFileHasOneProgram }
{}

/// A law: the names of a program that is read from a file are names of the grammar.
pub fn programs_have_grammar_names()
    ensures { ProgramsHaveGrammarNames }
{}
