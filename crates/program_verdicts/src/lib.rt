//! The laws of what there is to say of the declarations of a file: they make one program, or the first
//! of them that is refused is so for one fault. `file_elab` says what each of these means, and that no
//! file has two verdicts; here is that any declarations have one. So whoever elaborates a file has an
//! answer to give, and no declaration is left out.
//! Each law is the contract of a function with an empty body; there is no code.
#![tactic(auto)]

ghost use Rattle.program_verdicts.specs.Verdicts.{DeclarationsHaveOneVerdict};

/// Declarations, with the bytes of any file, have exactly one verdict.
pub fn declarations_have_one_verdict()
    ensures { DeclarationsHaveOneVerdict }
{}
