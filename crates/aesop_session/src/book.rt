//! The book of a program.

ghost use Rattle.std.specs.Prelude.{◌≡◌, ◌↔◌, ◌⊎◌, List, ℕ, map, Contains, IfOk, OnOk, IsTrue};
ghost use Rattle.rule_sets.specs.Refusals.{IsOver};
ghost use Rattle.file_elab.specs.ProgramViews.{program_of};
ghost use Rattle.aesop_session.specs.Documents.{IsBookOfProgram};

use basics::{Name, NoMemory};
use file_elab::Program;
use goal_book::GoalBook;
use rule_sets::{RuleBook, Sets};
use std::alloc::Global;

/// The book of a program: the rules of all its sets, in the order in which they are tried.
pub(crate) fn book_of<'a>(alloc: Global, program: &'a Program) -> Result<GoalBook<'a>, NoMemory>
    requires { IsOver program.now.sig program.now.rules }
    ensures { IfOk result (IsBookOfProgram (program_of program.now)) }
{
    let sets = sets_of(alloc, &program.rules)?;
    let book = GoalBook::make(alloc, &program.sig, &program.rules, &sets)?;
    Ok(book)
}

/// The names of the sets of the rules. Rules of one set that stand together give it once.
fn sets_of(alloc: Global, rules: &RuleBook) -> Result<Sets, NoMemory>
    ensures { IfOk result (λ sets. (name : List ℕ) → Contains sets name ↔ Contains (map (λ rule. rule.set) rules.now.rules) name) }
{
    let mut sets = Sets::new(alloc);
    for number in 0..rules.count() {
        let rule = rules.rule(number);
        add_set(alloc, &mut sets, &rule.set)?;
    }
    Ok(sets)
}

/// Adds the name of a set, unless it is the last.
fn add_set(alloc: Global, sets: &mut Sets, set: &Name) -> Result<(), NoMemory>
    ensures { OnOk result ((name : List ℕ) → Contains sets.new name ↔ (Contains sets.old name ⊎ (name ≡ set.now))) }
{
    if is_last(sets, set) {
        return Ok(());
    }
    let copy = Name::from_slice(alloc, set.as_bytes())?;
    sets.push(copy)
}

/// Whether the name is the last of some.
fn is_last(sets: &Sets, set: &Name) -> bool
    ensures { IsTrue result → Contains sets.now set.now }
{
    match sets.as_slice().last() {
        Some(last) => last.is(set.as_bytes()),
        None => false,
    }
}
