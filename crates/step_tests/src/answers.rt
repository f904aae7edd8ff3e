//! What is answered for a row.

ghost use Rattle.std.specs.Prelude.{◌≡◌, []};
ghost use Rattle.lf_definitions.specs.GoalLists.{all_goals};
ghost use Rattle.lf_definitions.specs.ShapedGoals.{ShapedGoals, ShapedTypeIn};
ghost use Rattle.lf_terms.specs.Types.{type_of};
ghost use Rattle.meta_goals.specs.GoalsOf.{goals_of};
ghost use Rattle.rule_sets.specs.Refusals.{IsOver};
ghost use Rattle.file_elab.specs.Theorems.{AreFormed};

use crate::following::list_after;
use crate::scripts::script_of;
use crate::sources::source;
use crate::writing::{append_alternatives, append_clusters, append_normed, append_replayed};
use basics::{Bytes, NoMemory};
use file_elab::Program;
use goal_book::GoalBook;
use goal_clusters::split::clusters;
use goal_expand::{alternatives, normalise};
use lf_terms::Ty;
use meta_goals::Goals;
use proof_replay::replay;
use std::alloc::Global;
use test_goals::{default_sets, opened_theorem, program_of, theorem_type};
use test_rows::Answers;

/// What is asked of a list of goals.
#[derive(Clone, Copy)]
pub(crate) enum Question {
    NormalForm,
    Alternatives,
    Clusters,
}

/// What is asked of a row: of a program by its name, and then of a theorem.
#[derive(Clone, Copy)]
pub(crate) enum Asked {
    /// Of the opening list, or of the list that steps lead to: the theorem's name, and the steps.
    OfList(Question),
    /// What comes of a script: the theorem's name, and the script's steps with a semicolon between them.
    OfScript,
}

impl Answers for Asked {
    fn answer(&self, alloc: Global, given: &str) -> Result<Bytes, NoMemory> {
        let mut text = Bytes::new(alloc);
        append_answer(alloc, *self, given, &mut text)?;
        Ok(text)
    }
}

fn append_answer(
    alloc: Global,
    asked: Asked,
    given: &str,
    text: &mut Bytes,
) -> Result<(), NoMemory> {
    let (name, rest) = given.split_once(' ').unwrap_or((given, ""));
    match program_of(alloc, source(name).as_bytes()) {
        None => text.append(b"no program"),
        Some(program) => append_by_program(alloc, asked, &program, rest, text),
    }
}

fn append_by_program(
    alloc: Global,
    asked: Asked,
    program: &Program,
    given: &str,
    text: &mut Bytes,
) -> Result<(), NoMemory>
    requires theorems { AreFormed program.now.sig program.now.theorems }
    requires rules { IsOver program.now.sig program.now.rules }
{
    let sets = default_sets(alloc)?;
    let book = GoalBook::make(alloc, &program.sig, &program.rules, &sets)?;
    append_by_book(alloc, asked, program, &book, given, text)
}

fn append_by_book(
    alloc: Global,
    asked: Asked,
    program: &Program,
    book: &GoalBook<'_>,
    given: &str,
    text: &mut Bytes,
) -> Result<(), NoMemory>
    requires theorems { AreFormed program.now.sig program.now.theorems }
    requires book { book.now.sig ≡ program.now.sig }
{
    let (name, rest) = given.split_once(' ').unwrap_or((given, ""));
    match asked {
        Asked::OfList(question) => append_of_list(
            alloc,
            question,
            program,
            book,
            (name, rest),
            text,
        ),
        Asked::OfScript => append_of_script(alloc, program, book, (name, rest), text),
    }
}

fn append_of_list(
    alloc: Global,
    question: Question,
    program: &Program,
    book: &GoalBook<'_>,
    given: (&str, &str),
    text: &mut Bytes,
) -> Result<(), NoMemory>
    requires theorems { AreFormed program.now.sig program.now.theorems }
    requires book { book.now.sig ≡ program.now.sig }
{
    let (name, places) = given;
    let found = opened_theorem(alloc, program, name)?;
    match found {
        None => text.append(b"no theorem"),
        Some(goals) => append_reached(alloc, question, book, goals, places, text),
    }
}

fn append_of_script(
    alloc: Global,
    program: &Program,
    book: &GoalBook<'_>,
    given: (&str, &str),
    text: &mut Bytes,
) -> Result<(), NoMemory>
    requires theorems { AreFormed program.now.sig program.now.theorems }
    requires book { book.now.sig ≡ program.now.sig }
{
    let (name, steps) = given;
    let found = theorem_type(program, name);
    match found {
        None => text.append(b"no theorem"),
        Some(ty) => append_followed(alloc, book, ty, steps, text),
    }
}

fn append_reached(
    alloc: Global,
    question: Question,
    book: &GoalBook<'_>,
    goals: Goals,
    places: &str,
    text: &mut Bytes,
) -> Result<(), NoMemory>
    requires { ShapedGoals book.now.sig (all_goals (goals_of goals)) }
{
    let found = list_after(alloc, book, goals, places)?;
    match found {
        None => text.append(b"no alternative"),
        Some(list) => append_asked(alloc, question, book, &list, text),
    }
}

fn append_asked(
    alloc: Global,
    question: Question,
    book: &GoalBook<'_>,
    list: &Goals,
    text: &mut Bytes,
) -> Result<(), NoMemory>
    requires { ShapedGoals book.now.sig (all_goals (goals_of list.now)) }
{
    match question {
        Question::NormalForm => {
            let normed = normalise(alloc, book, list)?;
            append_normed(alloc, book, text, &normed)
        },
        Question::Alternatives => {
            let found = alternatives(alloc, book, list)?;
            append_alternatives(alloc, book, text, found.as_slice())
        },
        Question::Clusters => {
            let found = clusters(alloc, list)?;
            append_clusters(alloc, book, text, found.as_slice())
        },
    }
}

fn append_followed(
    alloc: Global,
    book: &GoalBook<'_>,
    ty: &Ty,
    steps: &str,
    text: &mut Bytes,
) -> Result<(), NoMemory>
    requires { ShapedTypeIn book.now.sig [] [] (type_of ty.now) }
{
    let script = script_of(alloc, book.rules(), steps)?;
    let replayed = replay(alloc, book, ty, script.as_slice())?;
    append_replayed(alloc, book.sig(), text, &replayed)
}
