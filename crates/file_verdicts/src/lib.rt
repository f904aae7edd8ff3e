//! The laws of what there is to say of the bytes of a file: they are accepted with this program, or
//! refused at this place for this. `aesop_session` says what each of these means; here is that any
//! bytes have one of them, in one way, and none besides. So whoever reads a file has an answer to
//! give, and no two answers are right. Below stand the laws of texts, of tokens and of declarations.
//! Each law is the contract of a function with an empty body; there is no code.
#![tactic(auto)]

ghost use Rattle.file_verdicts.specs.Verdicts.{FilesHaveOneVerdict};

/// Each list of bytes is accepted with one program, or refused at one place for one kind, and not both.
pub fn files_have_one_verdict()
    ensures { FilesHaveOneVerdict }
{}
