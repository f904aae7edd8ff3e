//! The order in which rules are tried.

ghost use Rattle.std.specs.Prelude.{◌≡◌, ◌↔◌, ◌⊎◌, ◌∷◌, List, ℕ, length, codes, map, Contains, IsTrue, IfOk};
ghost use Rattle.rule_sets.specs.Orders.{IsOrder};
ghost use Rattle.rule_sets.specs.Candidates.{key_of, AreCandidates};

use crate::book::RuleBook;
use crate::rule::{Phase, Sets};
use basics::{Name, Names, NoMemory};
use std::alloc::Global;
use std::marker::Model;

/// The numbers of rules, in the order in which they are tried. A contract sees the list of them.
#[derive(Drop)]
pub struct Ordered {
    items: Vec<u32>,
}

impl Model for Ordered {
    ghost use Rattle.std.specs.Prelude.{List, ℕ};

    ghost Value = { List ℕ };

    ghost view = { λ a. a.items.items };
}

impl Ordered {
    /// How many rules there are.
    pub fn len(&self) -> usize
        ensures { result ≡ length self.now }
    {
        self.items.len()
    }

    /// The numbers as a slice.
    pub fn as_slice(&self) -> &[u32]
        ensures { result.now ≡ self.now }
    {
        self.items.as_slice()
    }
}

// A rule that is tried, by its number, with its phase.
#[derive(Clone, Copy)]
struct Candidate {
    phase: Phase,
    number: u32,
}

impl RuleBook {
    /// The rules of the sets, and the built-in ones, in the order in which they are tried: first those
    /// that normalise, then the safe ones, then the unsafe ones; lower penalties and higher percentages
    /// first, and then lower numbers.
    pub fn active(&self, alloc: Global, sets: &Sets) -> Result<Ordered, NoMemory>
        ensures { IfOk result (λ ordered. IsOrder self.now sets.now ordered) }
    {
        let chosen = with_built_in(alloc, sets)?;
        let mut candidates = candidates(alloc, self, &chosen)?;
        candidates.sort_unstable_by_key(key_of);
        let items = candidates
            .iter()
            .map(|candidate| candidate.number)
            .collect(alloc)?;
        Ok(Ordered { items })
    }
}

// The names of the sets, each once, and that of the built-in one.
fn with_built_in(alloc: Global, sets: &Sets) -> Result<Names, NoMemory>
    ensures { IfOk result (λ names. (name : List ℕ) → Contains names name ↔ (Contains sets.now name ⊎ (name ≡ codes "builtin"))) }
{
    let mut names = Names::new(alloc);
    names.add(alloc, b"builtin")?;
    let items = sets.as_slice();
    for set in items {
        if !has(&names, set) {
            names.add(alloc, set.as_bytes())?;
        }
    }
    Ok(names)
}

fn has(names: &Names, name: &Name) -> bool
    ensures { IsTrue result ↔ Contains names.now name.now }
{
    names.find(name.as_bytes()).is_some()
}

// The rules of the chosen sets, by rising number.
fn candidates(alloc: Global, book: &RuleBook, chosen: &Names) -> Result<Vec<Candidate>, NoMemory>
    ensures { IfOk result (λ candidates. AreCandidates book.now chosen.now (length book.now.rules) candidates.items) }
{
    let mut candidates = Vec::new(alloc);
    for number in 0..book.count() {
        let rule = book.rule(number);
        if has(chosen, &rule.set) {
            candidates.push(Candidate {
                phase: rule.phase,
                number,
            })?;
        }
    }
    Ok(candidates)
}

// What rises along the rules as they are tried: the stage, the penalty or the percentage with its sign
// turned, and the number.
fn key_of(candidate: &Candidate) -> (u8, i32, u32)
    ensures { result ≡ key_of candidate.now }
{
    match candidate.phase {
        Phase::Norm(penalty) => (0, penalty, candidate.number),
        Phase::Safe(penalty) => (1, penalty, candidate.number),
        Phase::Unsafe(percent) => (2, -i32::from(percent), candidate.number),
    }
}
