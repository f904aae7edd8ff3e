//! What the grammar tells apart of a token.

ghost use Rattle.std.specs.Prelude.{◌≡◌, ◌≤◌, ◌<◌, length};
ghost use Rattle.lex_text.specs.Tokens.{IsWithin};
ghost use Rattle.file_syntax.specs.Terminals.{keyword_of, word_of, terminal_of};

use file_trees::Span;
use lex_text::{Mark, Token};

/// The words that the grammar has in some places. Each may be a name in others.
#[derive(Clone, Copy)]
pub enum Keyword {
    Family,
    Const,
    Theorem,
    Data,
    Rule,
    Norm,
    Safe,
    Unsafe,
    Apply,
    Constructors,
    Cases,
    Forward,
    Destruct,
    At,
    In,
    /// Any other word but `type`.
    Other,
}

/// What the grammar sees of a token, with its span: the word `type`, another word, or what its mark
/// says. Contracts speak of it.
#[derive(Clone, Copy)]
pub enum Terminal {
    TypeWord(Span),
    Word(Keyword, Span),
    Var(Span),
    Number(Span),
    Colon(Span),
    Dot(Span),
    Equals(Span),
    Arrow(Span),
    LParen(Span),
    RParen(Span),
    LBrace(Span),
    RBrace(Span),
    LBracket(Span),
    RBracket(Span),
}

/// Which word a text is, other than `type`.
fn keyword_at(text: &[u8]) -> Keyword
    ensures { result ≡ keyword_of text.now }
{
    if text == b"family".as_slice() {
        Keyword::Family
    } else if text == b"const".as_slice() {
        Keyword::Const
    } else if text == b"theorem".as_slice() {
        Keyword::Theorem
    } else if text == b"data".as_slice() {
        Keyword::Data
    } else if text == b"rule".as_slice() {
        Keyword::Rule
    } else if text == b"norm".as_slice() {
        Keyword::Norm
    } else if text == b"safe".as_slice() {
        Keyword::Safe
    } else if text == b"unsafe".as_slice() {
        Keyword::Unsafe
    } else if text == b"apply".as_slice() {
        Keyword::Apply
    } else if text == b"constructors".as_slice() {
        Keyword::Constructors
    } else if text == b"cases".as_slice() {
        Keyword::Cases
    } else if text == b"forward".as_slice() {
        Keyword::Forward
    } else if text == b"destruct".as_slice() {
        Keyword::Destruct
    } else if text == b"at".as_slice() {
        Keyword::At
    } else if text == b"in".as_slice() {
        Keyword::In
    } else {
        Keyword::Other
    }
}

/// The terminal of a word.
fn word_at(text: &[u8], span: Span) -> Terminal
    ensures { result ≡ word_of text.now span }
{
    if text == b"type".as_slice() {
        Terminal::TypeWord(span)
    } else {
        Terminal::Word(keyword_at(text), span)
    }
}

/// The terminal of a token.
pub(crate) fn terminal_at(bytes: &[u8], token: &Token) -> Terminal
    requires { IsWithin (length bytes.now) token.now }
    ensures { result ≡ terminal_of bytes.now token.now }
{
    let span = Span {
        start: token.start,
        end: token.end,
    };
    match token.mark {
        Mark::Word => word_at(token.text(bytes), span),
        Mark::Var => Terminal::Var(span),
        Mark::Number => Terminal::Number(span),
        Mark::Colon => Terminal::Colon(span),
        Mark::Dot => Terminal::Dot(span),
        Mark::Equals => Terminal::Equals(span),
        Mark::Arrow => Terminal::Arrow(span),
        Mark::LParen => Terminal::LParen(span),
        Mark::RParen => Terminal::RParen(span),
        Mark::LBrace => Terminal::LBrace(span),
        Mark::RBrace => Terminal::RBrace(span),
        Mark::LBracket => Terminal::LBracket(span),
        Mark::RBracket => Terminal::RBracket(span),
    }
}
