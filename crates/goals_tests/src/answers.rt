//! What is answered for a row.

ghost use Rattle.std.specs.Prelude.{IfOk};

use crate::instances::{Part, append_instance};
use crate::numbering::{append_mentions, append_renamed};
use crate::problems::{Problem, equations_from, problem_from, unify_shaped};
use crate::writing::append_unified;
use basics::{Bytes, NoMemory};
use meta_unify::Unified;
use std::alloc::Global;
use test_rows::Answers;

/// What is asked of a row, whose fields have `|` between them.
#[derive(Clone, Copy)]
pub(crate) enum Asked {
    /// What equations are unified to: context, goals, frozen numbers, equations.
    Unified,
    /// What the answer of such equations makes of a part, which is a further field.
    Instance(Part),
    /// Whether a goal mentions a metavariable: the goal's number and type, and the number.
    Mentions,
    /// Two proof goals and a witness with new numbers, and the pairs of old and new ones.
    Renamed,
}

impl Answers for Asked {
    fn answer(&self, alloc: Global, given: &str) -> Result<Bytes, NoMemory> {
        let mut text = Bytes::new(alloc);
        match self {
            Asked::Unified => append_solved(alloc, None, given, &mut text)?,
            Asked::Instance(part) => append_solved(alloc, Some(*part), given, &mut text)?,
            Asked::Mentions => append_mentions(alloc, given, &mut text)?,
            Asked::Renamed => append_renamed(alloc, given, &mut text)?,
        }
        Ok(text)
    }
}

fn append_solved(
    alloc: Global,
    part: Option<Part>,
    given: &str,
    text: &mut Bytes,
) -> Result<(), NoMemory> {
    let mut fields = given.split('|');
    let ctx = fields.next().unwrap_or("");
    let goals = fields.next().unwrap_or("");
    let frozen = fields.next().unwrap_or("");
    let problem = problem_from(alloc, ctx, goals, frozen)?;
    let equations = fields.next().unwrap_or("");
    let given = fields.next().unwrap_or("");
    append_answer(alloc, part, &problem, equations, given, text)
}

/// Adds the answer to equations, or what it makes of a part.
fn append_answer(
    alloc: Global,
    part: Option<Part>,
    problem: &Problem,
    equations: &str,
    given: &str,
    text: &mut Bytes,
) -> Result<(), NoMemory> {
    let setting = &problem.setting;
    let variables = &problem.variables;
    let Some(equations) = equations_from(alloc, setting, variables, equations)? else {
        return text.append(b"not shaped");
    };
    let unified = unify_shaped(alloc, setting, variables, &problem.frozen, &equations)?;
    match part {
        None => append_unified(alloc, text, &unified),
        Some(part) => match &unified {
            Unified::Solved(assign) => append_instance(alloc, part, problem, assign, given, text),
            _ => text.append(b"not solved"),
        },
    }
}
