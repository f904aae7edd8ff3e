//! What is answered for a text by its tokens and its tree.

use crate::tokens_of::tokens_answer;
use crate::trees::{Fault, fault_text, tree_of};
use basics::{Bytes, NoMemory};
use file_syntax::ParseFault;
use file_trees::{DeclTree, FileTree, Last, TermTrees, place};
use lex_text::LexFault;
use lex_text::tokens::tokens;
use std::alloc::Global;
use test_rows::{Answers, append_number, written};

/// What is asked of a text.
#[derive(Clone, Copy)]
pub(crate) enum Asked {
    /// Its tokens.
    Tokens,
    /// How many declarations it has, or its fault.
    Declarations,
    /// The places of the arguments of its constants' types.
    Places,
}

impl Answers for Asked {
    fn answer(&self, alloc: Global, given: &str) -> Result<Bytes, NoMemory> {
        match self {
            Asked::Tokens => cut_answer(alloc, given),
            Asked::Declarations => declarations_answer(alloc, given),
            Asked::Places => places_answer(alloc, given),
        }
    }
}

fn cut_answer(alloc: Global, given: &str) -> Result<Bytes, NoMemory> {
    let text = written(alloc, given)?;
    if text.len() > 100_000_000 {
        return Err(NoMemory);
    }
    tokens_answer(alloc, text.as_slice())
}

fn count_text(alloc: Global, count: usize, word: &str) -> Result<Bytes, NoMemory> {
    let text = format!(in alloc; "{count} {word}")?;
    Bytes::from_slice(alloc, text.as_bytes())
}

fn declarations_answer(alloc: Global, given: &str) -> Result<Bytes, NoMemory> {
    let text = written(alloc, given)?;
    match tree_of(alloc, text.as_slice()) {
        Ok(tree) => count_text(alloc, tree.decls.len(), "declarations"),
        Err(fault) => fault_text(alloc, fault),
    }
}

fn places_answer(alloc: Global, given: &str) -> Result<Bytes, NoMemory> {
    let text = written(alloc, given)?;
    match tree_of(alloc, text.as_slice()) {
        Ok(tree) => places_text(alloc, &tree),
        Err(fault) => fault_text(alloc, fault),
    }
}

fn places_text(alloc: Global, tree: &FileTree) -> Result<Bytes, NoMemory> {
    let mut text = Bytes::new(alloc);
    for declaration in tree.decls.as_slice() {
        if let DeclTree::Const(_, tree) = declaration {
            if let (_, Last::Fam(_, arguments)) = tree.parts() {
                append_places(alloc, &mut text, arguments)?;
            }
        }
    }
    Ok(text)
}

fn append_places(alloc: Global, text: &mut Bytes, terms: &TermTrees) -> Result<(), NoMemory> {
    for term in terms.as_slice() {
        append_number(alloc, text, place(term))?;
        text.push(b';')?;
    }
    Ok(())
}

/// How many beginnings of a text are neither read nor refused where they are cut.
pub(crate) fn strange_beginnings(alloc: Global, text: &[u8]) -> usize {
    let mut strange: usize = 0;
    for count in 0..text.len() {
        if !is_read_or_cut(alloc, &text[..count]) {
            strange = strange.saturating_add(1);
        }
    }
    strange
}

/// Whether a beginning of a text is read, or refused at its end or at its last token.
fn is_read_or_cut(alloc: Global, beginning: &[u8]) -> bool {
    match tree_of(alloc, beginning) {
        Ok(_) => true,
        Err(Fault::Lex(LexFault::BadChar(at))) => {
            at as usize + 1 == beginning.len() && beginning.last() == Some(&b'-')
        }
        Err(Fault::Parse(ParseFault::Expected(at))) => {
            at as usize == beginning.len() || last_start(alloc, beginning) == Some(at)
        }
        Err(_) => false,
    }
}

/// Where the last token starts.
fn last_start(alloc: Global, text: &[u8]) -> Option<u32> {
    if text.len() > 100_000_000 {
        return None;
    }
    let cut = tokens(alloc, text).ok()?;
    let last = cut.items.as_slice().last()?;
    Some(last.start)
}
