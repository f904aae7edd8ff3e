//! What is answered for a row.

ghost use Rattle.lf_definitions.specs.GoalLists.{all_goals};
ghost use Rattle.lf_definitions.specs.ShapedGoals.{ShapedGoals};
ghost use Rattle.meta_goals.specs.GoalsOf.{goals_of};
ghost use Rattle.rule_sets.specs.Refusals.{IsOver};
ghost use Rattle.file_elab.specs.Theorems.{AreFormed};

use crate::builders::offered;
use crate::lookups::append_found;
use crate::sources::source;
use crate::writing::append_applications;
use basics::{Bytes, Name, NoMemory};
use file_elab::Program;
use meta_goals::Goals;
use std::alloc::Global;
use test_goals::{opened_theorem, program_of, theorem_type};
use test_rows::Answers;

/// What is asked of a row: of a program by its name, and then of a theorem.
#[derive(Clone, Copy)]
pub(crate) enum Asked {
    /// The applications of a rule to the opening of the theorem's type: the theorem's name and the rule's.
    Applications,
    /// The rules that the index finds for the end of the theorem's type: the theorem's name.
    Found,
}

impl Answers for Asked {
    fn answer(&self, alloc: Global, given: &str) -> Result<Bytes, NoMemory> {
        let mut text = Bytes::new(alloc);
        append_answer(alloc, *self, given, &mut text)?;
        Ok(text)
    }
}

fn append_answer(
    alloc: Global,
    asked: Asked,
    given: &str,
    text: &mut Bytes,
) -> Result<(), NoMemory> {
    let (name, rest) = given.split_once(' ').unwrap_or((given, ""));
    match program_of(alloc, source(name).as_bytes()) {
        None => text.append(b"no program"),
        Some(program) => append_by_program(alloc, asked, &program, rest, text),
    }
}

fn append_by_program(
    alloc: Global,
    asked: Asked,
    program: &Program,
    given: &str,
    text: &mut Bytes,
) -> Result<(), NoMemory>
    requires theorems { AreFormed program.now.sig program.now.theorems }
    requires rules { IsOver program.now.sig program.now.rules }
{
    match asked {
        Asked::Applications => append_offered(alloc, program, given, text),
        Asked::Found => append_looked_up(alloc, program, given, text),
    }
}

fn append_offered(
    alloc: Global,
    program: &Program,
    given: &str,
    text: &mut Bytes,
) -> Result<(), NoMemory>
    requires theorems { AreFormed program.now.sig program.now.theorems }
    requires rules { IsOver program.now.sig program.now.rules }
{
    let (theorem, rule) = given.split_once(' ').unwrap_or((given, ""));
    let name = Name::from_slice(alloc, rule.as_bytes())?;
    match program.rules.find(&name) {
        None => text.append(b"no rule"),
        Some(rule) => append_offered_at(alloc, program, theorem, rule, text),
    }
}

fn append_offered_at(
    alloc: Global,
    program: &Program,
    theorem: &str,
    rule: u32,
    text: &mut Bytes,
) -> Result<(), NoMemory>
    requires theorems { AreFormed program.now.sig program.now.theorems }
    requires rules { IsOver program.now.sig program.now.rules }
{
    let found = opened_theorem(alloc, program, theorem)?;
    match found {
        None => text.append(b"no theorem"),
        Some(goals) => append_offered_for(alloc, program, &goals, rule, text),
    }
}

fn append_offered_for(
    alloc: Global,
    program: &Program,
    goals: &Goals,
    rule: u32,
    text: &mut Bytes,
) -> Result<(), NoMemory>
    requires rules { IsOver program.now.sig program.now.rules }
    requires goals { ShapedGoals program.now.sig (all_goals (goals_of goals.now)) }
{
    if rule >= program.rules.count() {
        return text.append(b"past all");
    }
    let found = offered(alloc, &program.sig, &program.rules, rule, goals)?;
    append_applications(alloc, &program.sig, &program.rules, text, found.as_slice())
}

fn append_looked_up(
    alloc: Global,
    program: &Program,
    given: &str,
    text: &mut Bytes,
) -> Result<(), NoMemory>
    requires { AreFormed program.now.sig program.now.theorems }
{
    match theorem_type(program, given) {
        None => text.append(b"no theorem"),
        Some(ty) => append_found(alloc, &program.sig, &program.rules, ty, text),
    }
}
