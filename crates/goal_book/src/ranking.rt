//! Rules by their percentages.

ghost use Rattle.std.specs.Prelude.{◌≡◌, ◌<◌, ◌++◌, [], ◌∷◌, length, map, filter, All, IfOk, OnOk};
ghost use Rattle.alternatives.specs.Alternatives.{percent_of, ranked};
ghost use Rattle.goal_book.specs.Rules.{phase_of, rules_of};
ghost use Rattle.goal_book.specs.Choices.{is_late, may_be_chosen};
ghost use Rattle.goal_book.specs.Queries.{AreRules};
ghost use Rattle.goal_book.specs.Rankings.{ranking_of, key_of};

use basics::NoMemory;
use rule_sets::{Phase, RuleBook};
use std::alloc::Global;

// The percentage of a safe rule as a choice.
const SAFE_PERCENT: u8 = 90;

// A rule that may be chosen, by its number, with its percentage.
#[derive(Clone, Copy)]
struct Ranking {
    percent: u8,
    number: u32,
}

/// The percentage of a rule of this phase, as a choice.
pub fn percent_of(phase: Phase) -> u8
    ensures { result ≡ percent_of (phase_of phase) }
{
    match phase {
        Phase::Norm(_) => 0,
        Phase::Safe(_) => SAFE_PERCENT,
        Phase::Unsafe(percent) => percent,
    }
}

/// Whether a rule of this phase that is chosen was postponed.
pub fn is_late(phase: Phase) -> bool
    ensures { result ≡ is_late (phase_of phase) }
{
    !matches!(phase, Phase::Unsafe(_))
}

/// The numbers of those rules that may be chosen, by falling percentage and then by rising number.
pub fn ranked(alloc: Global, rules: &RuleBook, numbers: &[u32]) -> Result<Vec<u32>, NoMemory>
    requires { AreRules rules.now numbers.now }
    ensures within { IfOk result (λ found. All (λ number. number < length rules.now.rules) found.items) }
    ensures ranked { IfOk result (λ found. rules_of rules.now found.items ≡ ranked (filter may_be_chosen (rules_of rules.now numbers.now))) }
{
    let mut candidates = rankings(alloc, rules, numbers)?;
    candidates.sort_unstable_by_key(key_of);
    let found = candidates
        .iter()
        .map(|ranking| ranking.number)
        .collect(alloc)?;
    Ok(found)
}

// The rules that may be chosen, with their percentages.
fn rankings(alloc: Global, rules: &RuleBook, numbers: &[u32]) -> Result<Vec<Ranking>, NoMemory>
    requires { All (λ number. number < length rules.now.rules) numbers.now }
    ensures { IfOk result (λ found. found.items ≡ map ranking_of (filter may_be_chosen (rules_of rules.now numbers.now))) }
{
    let mut found = Vec::new(alloc);
    for number in numbers {
        add_ranking(rules, *number, &mut found)?;
    }
    Ok(found)
}

// Adds a rule, if it may be chosen.
fn add_ranking(rules: &RuleBook, number: u32, found: &mut Vec<Ranking>) -> Result<(), NoMemory>
    requires { number < length rules.now.rules }
    ensures { OnOk result (found.new.items ≡ found.old.items ++ map ranking_of (filter may_be_chosen (rules_of rules.now (number ∷ [])))) }
{
    let phase = rules.rule(number).phase;
    if matches!(phase, Phase::Norm(_)) {
        return Ok(());
    }
    found.push(Ranking {
        percent: percent_of(phase),
        number,
    })?;
    Ok(())
}

// What rises along the rules: the percentage with its sign turned, and the number.
fn key_of(ranking: &Ranking) -> (i32, u32)
    ensures { result ≡ key_of ranking.now }
{
    (-i32::from(ranking.percent), ranking.number)
}
