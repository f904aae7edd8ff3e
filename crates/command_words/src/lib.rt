//! The words of a command line. The first is taken by hand, a word that begins with a hyphen and has none of the listed forms is
//! refused, and `clap` reads the rest as one simple command.
//! Proved: the options are those of the command where the words are one, and there are none otherwise.
#![tactic(auto)]

ghost use Rattle.std.specs.Prelude.{◌≡◌, ◌↔◌, ◌∷◌, ℕ, codes, Some, None, IsTrue, IfOk, IfSome, IsNone, option_map, All, map};
ghost use Rattle.std.specs.Str.{IsUtf8};
ghost use Rattle.clap.specs.Words.{app_of};
ghost use Rattle.command_words.specs.Commands.{LfOptions, IsProve, WritesNumber, WritesWorkers, WritesBudget, number_of};
ghost use Rattle.command_words.specs.Given.{options_of, IsOption, IsJoined, IsListed, IsReadable, GivenWorkers, GivenBudget, GivesOptions};
ghost use Rattle.command_words.specs.ProveApp.{prove_app};

use basics::{Name, NoMemory, Words};
use clap::error::ErrorKind;
use clap::{Arg, ArgAction, Command};
use std::alloc::Global;

/// Workers where no number is given.
const USUAL_WORKERS: u32 = 4;

/// The greatest number of workers.
const MOST_WORKERS: u32 = 64;

/// The budget where none is given.
const USUAL_BUDGET: u32 = 1_000;

/// The greatest budget.
const MOST_BUDGET: u32 = 50_000;

/// Digits in a number.
const MOST_DIGITS: usize = 5;

/// The options of a search: how many workers there are, the caller among them (none: the caller searches alone), how many nodes are
/// expanded at most, and whether the events of proved theorems are shown.
#[derive(Clone, Copy, Debug, PartialEq, Eq)]
pub struct Opts {
    pub workers: u32,
    pub budget: u32,
    pub trace: bool,
}

/// The options of `prove`: `--workers N` with N at most 64, `--budget N` with N from 1 to 50,000, and `--trace`, each at most once, in
/// any order; also `--workers=N` and `--budget=N`. `None` where the words are no such command. Refused when out of memory.
pub fn prove_options(alloc: Global, words: &Words) -> Result<Option<Opts>, NoMemory>
    ensures { IfOk result (λ found. (o : LfOptions) → (option_map options_of found ≡ Some o) ↔ IsProve words.now o) }
{
    match words.as_slice() {
        [command, rest @ ..] if command.is(b"prove") => {
            let found = options_after(alloc, rest)?;
            Ok(found)
        }
        _ => Ok(None),
    }
}

/// The options that the words after `prove` give.
fn options_after(alloc: Global, words: &[Name]) -> Result<Option<Opts>, NoMemory>
    ensures { IfOk result (λ found. (o : LfOptions) → (option_map options_of found ≡ Some o) ↔ IsProve (codes "prove" ∷ words.now) o) }
{
    let texts = listed_texts(alloc, words)?;
    match texts {
        Some(texts) => {
            let found = options_in(alloc, texts.as_slice())?;
            Ok(found)
        }
        None => Ok(None),
    }
}

/// The words as texts, where each has one of the listed forms.
fn listed_texts<'a>(alloc: Global, words: &'a [Name]) -> Result<Option<Vec<&'a str>>, NoMemory>
    ensures some { IfOk result (λ found. IfSome found (λ texts. (map (λ text. text.now) texts.items ≡ words.entry.now) × All IsListed words.entry.now)) }
    ensures none { IfOk result (λ found. IsNone found → All IsReadable words.entry.now → ⊥) }
{
    let mut texts = Vec::new(alloc);
    for word in words {
        match listed_text(word) {
            Some(text) => texts.push(text)?,
            None => return Ok(None),
        }
    }
    Ok(Some(texts))
}

/// The word as a text, where it is one and has one of the listed forms.
fn listed_text(word: &Name) -> Option<&str>
    ensures some { IfSome result (λ text. (text.now ≡ word.now) × IsListed word.now) }
    ensures none { IsNone result → IsUtf8 word.now → IsListed word.now → ⊥ }
{
    if !is_listed(word.as_bytes()) {
        return None;
    }
    match std::str::from_utf8(word.as_bytes()) {
        Ok(text) => Some(text),
        Err(_) => None,
    }
}

/// Whether the word begins with no hyphen, or has one of the forms of options.
fn is_listed(word: &[u8]) -> bool
    ensures { IsTrue result ↔ IsListed word.now }
{
    !word.starts_with(b"-") || is_option(word) || is_joined(word)
}

/// Whether the word is the name of an option.
fn is_option(word: &[u8]) -> bool
    ensures { IsTrue result ↔ IsOption word.now }
{
    word == b"--trace".as_slice()
        || word == b"--workers".as_slice()
        || word == b"--budget".as_slice()
}

/// Whether the word is an option with its value.
fn is_joined(word: &[u8]) -> bool
    ensures { IsTrue result ↔ IsJoined word.now }
{
    word.starts_with(b"--workers=") || word.starts_with(b"--budget=")
}

/// The options in words of listed forms.
fn options_in<'a>(alloc: Global, texts: &'a [&'a str]) -> Result<Option<Opts>, NoMemory>
    requires { All IsListed (map (λ text. text.now) texts.now) }
    ensures { IfOk result (λ found. (o : LfOptions) → (option_map options_of found ≡ Some o) ↔ IsProve (codes "prove" ∷ map (λ text. text.now) texts.entry.now) o) }
{
    let command = prove_command(alloc)?;
    match command.try_get_matches_from(texts) {
        Ok(matches) => {
            let workers = matches.get_str("workers");
            let budget = matches.get_str("budget");
            Ok(options_given(workers, budget, matches.get_flag("trace")))
        }
        Err(error) if error.kind() == ErrorKind::OutOfMemory => Err(NoMemory),
        Err(_) => Ok(None),
    }
}

/// The command with its options.
fn prove_command<'a>(alloc: Global) -> Result<Command<'a>, NoMemory>
    ensures { IfOk result (λ command. app_of command ≡ prove_app) }
{
    let workers = Arg::new(alloc, "workers")
        .long("workers")
        .action(ArgAction::Set);
    let budget = Arg::new(alloc, "budget")
        .long("budget")
        .action(ArgAction::Set);
    let trace = Arg::new(alloc, "trace")
        .long("trace")
        .action(ArgAction::SetTrue);
    let command = Command::new(alloc, "prove")
        .no_binary_name(true)
        .disable_help_flag(true);
    let with_workers = command.arg(workers)?;
    let with_budget = with_workers.arg(budget)?;
    let whole = with_budget.arg(trace)?;
    Ok(whole)
}

/// The options that the values give.
fn options_given(workers: Option<&str>, budget: Option<&str>, trace: bool) -> Option<Opts>
    ensures { (o : LfOptions) → (option_map options_of result ≡ Some o) ↔ GivesOptions (option_map (λ text. text.now) workers.entry) (option_map (λ text. text.now) budget.entry) trace o }
{
    let workers = workers_given(workers)?;
    let budget = budget_given(budget)?;
    Some(Opts {
        workers,
        budget,
        trace,
    })
}

/// The number of workers that the value of `--workers` gives.
fn workers_given(value: Option<&str>) -> Option<u32>
    ensures { (n : ℕ) → (result ≡ Some n) ↔ GivenWorkers (option_map (λ text. text.now) value.entry) n }
{
    match value {
        Some(word) => workers_in(word.as_bytes()),
        None => Some(USUAL_WORKERS),
    }
}

/// The budget that the value of `--budget` gives.
fn budget_given(value: Option<&str>) -> Option<u32>
    ensures { (n : ℕ) → (result ≡ Some n) ↔ GivenBudget (option_map (λ text. text.now) value.entry) n }
{
    match value {
        Some(word) => budget_in(word.as_bytes()),
        None => Some(USUAL_BUDGET),
    }
}

/// The number of workers that a word writes.
fn workers_in(word: &[u8]) -> Option<u32>
    ensures { (n : ℕ) → (result ≡ Some n) ↔ WritesWorkers word.now n }
{
    if !is_number(word) {
        return None;
    }
    let workers = value_of(word);
    if workers > MOST_WORKERS {
        return None;
    }
    Some(workers)
}

/// The budget that a word writes.
fn budget_in(word: &[u8]) -> Option<u32>
    ensures { (n : ℕ) → (result ≡ Some n) ↔ WritesBudget word.now n }
{
    if !is_number(word) {
        return None;
    }
    let budget = value_of(word);
    if budget == 0 || budget > MOST_BUDGET {
        return None;
    }
    Some(budget)
}

/// Whether the word is one to five digits.
fn is_number(word: &[u8]) -> bool
    ensures { IsTrue result ↔ WritesNumber word.now (number_of word.now) }
{
    !word.is_empty() && word.len() <= MOST_DIGITS && word.iter().all(|c| c.is_ascii_digit())
}

/// The number that digits write.
fn value_of(word: &[u8]) -> u32
    requires { WritesNumber word.now (number_of word.now) }
    ensures { result ≡ number_of word.now }
{
    let mut number = 0;
    for digit in word {
        number = 10 * number + u32::from(*digit - b'0');
    }
    number
}
