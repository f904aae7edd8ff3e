//! The laws of what there is to say of a text: these are its tokens, or here stands the first byte
//! that begins no character, or this is the first thing wrong with its characters. `lex_text` says
//! what each of these means; here is that every text has one of them, in one way, and none besides.
//! So whoever reads a text has an answer to give, and no two answers are right. Each law is the
//! contract of a function with an empty body; there is no code.
#![tactic(auto)]

ghost use Rattle.token_verdicts.specs.Verdicts.{TextsHaveOneVerdict};

/// Each list of bytes has exactly one verdict.
pub fn texts_have_one_verdict()
    ensures { TextsHaveOneVerdict }
{}
