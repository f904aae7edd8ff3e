//! The chosen script of a tree, step by step along the one list of goals.

ghost use Rattle.std.specs.Prelude.{◌≡◌, ℕ, ◌<◌, Some, true, length, map, nat_eq, option_map, slice_get, is_some, IfOk};
ghost use Rattle.derivations.specs.Derivations.{alternatives_of};
ghost use Rattle.extraction_laws.specs.Following.{IsLeast};
ghost use Rattle.goal_book.specs.GoalBooks.{rules_in};
ghost use Rattle.goal_expand.specs.Seen.{seen_alternative};
ghost use Rattle.indexmap.specs.IndexMap.{get};
ghost use Rattle.lf_definitions.specs.GoalLists.{all_goals, first_goal};
ghost use Rattle.lf_definitions.specs.ShapedGoals.{ShapedGoals};
ghost use Rattle.lf_definitions.specs.Syntax.{LfType};
ghost use Rattle.meta_goals.specs.GoalsOf.{goals_of};
ghost use Rattle.proof_replay.specs.Seen.{seen_step};
ghost use Rattle.tree_marks.specs.TreeMarks.{Settled};
ghost use Rattle.tree_runs.specs.Marks.{is_proved};
ghost use Rattle.tree_runs.specs.Shapes.{nodes_count};
ghost use Rattle.proof_extract.specs.Ways.{IsOnTheWay, IsStepOn};

use crate::carried::table_after;
use basics::NoMemory;
use goal_expand::{Alternative, alternatives};
use indexmap::IndexMap;
use meta_goals::Goals;
use proof_replay::Step;
use rule_problem::RuleProblem;
use tree_steps::{Problem, Tree};

// The one list of goals, and for the number of each the node that it carries.
#[derive(Drop)]
pub(crate) struct Place {
    pub(crate) goals: Goals,
    pub(crate) carried: IndexMap<u32, u32>,
}

// The number of the first goal of a list, if there is one.
pub(crate) fn first_number(goals: &Goals) -> Option<u32>
    ensures { result ≡ option_map (λ g. g.id) (first_goal (goals_of goals.now)) }
{
    match goals.proofs.as_slice().first() {
        Some(goal) => Some(goal.id),
        None => goals.witnesses.as_slice().first().map(|goal| goal.id),
    }
}

// The step at the first goal of a place, which has this number, and the place after it.
pub(crate) fn next_step<P: Problem>(
    problem: &RuleProblem<'_, '_>,
    tree: &Tree<P>,
    place: &Place,
    goal: u32,
) -> Result<(Step, Place), NoMemory>
    requires way { (a : LfType) × (most : ℕ) × (nodes : ℕ → ℕ) × IsOnTheWay problem.now.book.now.sig (rules_in problem.now.book.now) a tree.now most (goals_of place.now.goals) nodes (get nat_eq place.now.carried) }
    requires first { option_map (λ g. g.id) (first_goal (goals_of place.now.goals)) ≡ Some goal }
    ensures { IfOk result (λ made. (a : LfType) (most : ℕ) (nodes : ℕ → ℕ) →
        IsOnTheWay problem.now.book.now.sig (rules_in problem.now.book.now) a tree.now most (goals_of place.now.goals) nodes (get nat_eq place.now.carried) →
        IsStepOn problem.now.book.now.sig (rules_in problem.now.book.now) a tree.now most (goals_of place.now.goals) nodes (seen_step made.0) (goals_of made.1.goals) (get nat_eq made.1.carried)) }
{
    let node = node_of(&place.carried, goal);
    let choice = choice_at(tree, node);
    let alternative = alternative_at(problem, &place.goals, choice)?;
    let (first, _) = tree.children(node, choice);
    let carried = table_after(
        problem.alloc,
        &place.carried,
        node,
        first,
        &alternative.goals,
    )?;
    let step = Step {
        norm: alternative.norm,
        last: alternative.last,
    };
    let next = Place {
        goals: alternative.goals,
        carried,
    };
    Ok((step, next))
}

// The node that a goal carries.
fn node_of(carried: &IndexMap<u32, u32>, goal: u32) -> u32
    requires { is_some (get nat_eq carried.now goal) ≡ true }
    ensures { get nat_eq carried.now goal ≡ Some result }
{
    match carried.get(&goal) {
        None => unreachable!(),
        Some(node) => *node,
    }
}

// The least alternative of a proved node all of whose children are proved.
fn choice_at<P: Problem>(tree: &Tree<P>, node: u32) -> u32
    requires stands { node < nodes_count tree.now.shape.shape }
    requires marks { Settled tree.now.shape.shape tree.now.marks.marks }
    requires proved { is_proved tree.now.shape.shape node ≡ true }
    ensures { IsLeast tree.now.shape.shape node result }
{
    match tree.chosen(node) {
        None => unreachable!(),
        Some(alternative) => alternative,
    }
}

// The alternative of this number of a list.
fn alternative_at(
    problem: &RuleProblem<'_, '_>,
    goals: &Goals,
    choice: u32,
) -> Result<Alternative, NoMemory>
    requires shaped { ShapedGoals problem.now.book.now.sig (all_goals (goals_of goals.now)) }
    requires there { choice < length (alternatives_of problem.now.book.now.sig (rules_in problem.now.book.now) (goals_of goals.now)) }
    ensures { IfOk result (λ alternative. slice_get (alternatives_of problem.now.book.now.sig (rules_in problem.now.book.now) (goals_of goals.now)) choice ≡ Some (seen_alternative alternative)) }
{
    let mut found = alternatives(problem.alloc, problem.book, goals)?;
    Ok(found.swap_remove(choice as usize))
}
