//! Lists in which a head is put for a goal, whether or not it has the goal's type.

ghost use Rattle.std.specs.Prelude.{◌≡◌, [], IsTrue, IfOk, IfSome};
ghost use Rattle.lf_definitions.specs.Syntax.{base};
ghost use Rattle.lf_definitions.specs.Shaping.{Shaped};
ghost use Rattle.lf_definitions.specs.GoalLists.{all_goals};
ghost use Rattle.lf_definitions.specs.ShapedGoals.{scope_in, ShapedGoals};
ghost use Rattle.lf_terms.specs.Terms.{head_of};
ghost use Rattle.meta_goals.specs.GoalsOf.{goals_of};
ghost use Rattle.step_tests.specs.PutHeads.{bare, put_head};

use basics::NoMemory;
use lf_terms::goal::shapes_of_metas;
use lf_terms::shaped::shaped;
use lf_terms::{Found, GoalList, Head, Shape, Shapes, Signature, Term, Terms};
use meta_goals::apply_assign::apply_assign;
use meta_goals::{Assign, Entry, Goals};
use std::alloc::Global;

/// The list in which a head stands for a goal without a context, if that is shaped: the goal's number, and a constant's name or, after a
/// question mark, a goal's number.
pub(crate) fn list_with(
    alloc: Global,
    sig: &Signature,
    goals: &Goals,
    number: &str,
    word: &str,
) -> Result<Option<Goals>, NoMemory>
    requires { ShapedGoals sig.now (all_goals (goals_of goals.now)) }
    ensures { IfOk result (λ found. IfSome found (λ list. ShapedGoals sig.now (all_goals (goals_of list)))) }
{
    let goal = number.parse().unwrap_or(0);
    match head_from(sig, word) {
        None => Ok(None),
        Some(head) => list_at(alloc, sig, goals, goal, head),
    }
}

fn head_from(sig: &Signature, word: &str) -> Option<Head> {
    match word.strip_prefix('?') {
        Some(number) => Some(Head::Meta(number.parse().unwrap_or(0))),
        None => match sig.find_bytes(word.as_bytes()) {
            Found::Const(constant) => Some(Head::Const(constant)),
            _ => None,
        },
    }
}

fn list_at(
    alloc: Global,
    sig: &Signature,
    goals: &Goals,
    goal: u32,
    head: Head,
) -> Result<Option<Goals>, NoMemory>
    requires { ShapedGoals sig.now (all_goals (goals_of goals.now)) }
    ensures { IfOk result (λ found. IfSome found (λ list. ShapedGoals sig.now (all_goals (goals_of list)))) }
{
    let has_goal = is_shaped(alloc, sig, goals, Head::Meta(goal))?;
    if !has_goal {
        return Ok(None);
    }
    let has_head = is_shaped(alloc, sig, goals, head)?;
    if !has_head {
        return Ok(None);
    }
    let assign = assign_of(alloc, goal, head)?;
    let left = apply_assign(alloc, goals, &assign)?;
    let fits = is_shaped(alloc, sig, &left, head)?;
    if !fits {
        return Ok(None);
    }
    Ok(Some(left))
}

fn assign_of(alloc: Global, goal: u32, head: Head) -> Result<Assign, NoMemory>
    ensures { IfOk result (λ assign. assign ≡ put_head goal (head_of head)) }
{
    let mut assign = Assign::new(alloc);
    let entry = Entry {
        shapes: Shapes::new(),
        body: Term::At(head, Terms::new()),
    };
    assign.push(goal, entry)?;
    Ok(assign)
}

// Whether a head without arguments is shaped among goals.
fn is_shaped(alloc: Global, sig: &Signature, goals: &Goals, head: Head) -> Result<bool, NoMemory>
    ensures { IfOk result (λ shaped. IsTrue shaped → Shaped (scope_in sig.now (all_goals (goals_of goals.now)) []) (bare (head_of head)) base) }
{
    let all = joined(alloc, goals)?;
    let metas = shapes_of_metas(alloc, &all)?;
    let term = Term::At(head, Terms::new());
    let base = Shape {
        args: Shapes::new(),
    };
    let fits = shaped(sig.shapes(), &metas, &Shapes::new(), &term, &base);
    Ok(fits)
}

// All goals of a list.
fn joined(alloc: Global, goals: &Goals) -> Result<GoalList, NoMemory>
    ensures { IfOk result (λ all. all ≡ all_goals (goals_of goals.now)) }
{
    let mut all = goals.proofs.copy(alloc)?;
    let items = goals.witnesses.as_slice();
    for i in 0..items.len() {
        all.push(items[i].copy()?)?;
    }
    Ok(all)
}
