//! The laws of what there is to say of tokens: they are a file with these declarations, or here
//! stands the first token that no file has after the tokens before it, or the first that is nested
//! too deep. `file_syntax` says what each of these means; here is that any tokens have one of them,
//! in one way, and none besides. So whoever parses has an answer to give, and no two answers are
//! right. Each law is the contract of a function with an empty body; there is no code.
#![tactic(auto)]

ghost use Rattle.syntax_verdicts.specs.Verdicts.{TokensHaveOneVerdict};

/// Tokens, with the bytes and the size of their text, have exactly one verdict.
pub fn tokens_have_one_verdict()
    ensures { TokensHaveOneVerdict }
{}
