//! From a tree to its script and its term.

ghost use Rattle.std.specs.Prelude.{◌≡◌, [], map, IfOk, true};
ghost use Rattle.derivations.specs.Replays.{closed, replay};
ghost use Rattle.goal_book.specs.GoalBooks.{rules_in};
ghost use Rattle.lf_definitions.specs.GoalLists.{opening};
ghost use Rattle.lf_definitions.specs.ShapedGoals.{ShapedTypeIn};
ghost use Rattle.lf_definitions.specs.Signatures.{kinds_in, typing_in};
ghost use Rattle.lf_definitions.specs.Syntax.{LfTerm};
ghost use Rattle.lf_definitions.specs.Typing.{Formed};
ghost use Rattle.lf_terms.specs.Terms.{term_of};
ghost use Rattle.lf_terms.specs.Types.{type_of};
ghost use Rattle.meta_goals.specs.GoalsOf.{goals_of};
ghost use Rattle.proof_replay.specs.Seen.{seen_step};
ghost use Rattle.answer_definitions.specs.Settled.{script_by};
ghost use Rattle.rule_problem.specs.Problems.{branches_in, IsNode};
ghost use Rattle.tree_runs.specs.Marks.{is_proved};
ghost use Rattle.tree_steps.specs.Trees.{IsTree};
ghost use Rattle.proof_extract.specs.Ways.{IsFollowed};

use crate::carried::root_table;
use crate::following::{Place, first_number, next_step};
use basics::NoMemory;
use extraction_laws::chosen_scripts_can_be_followed;
use goal_book::opening;
use lf_terms::{Term, Ty};
use meta_goals::Goals;
use proof_replay::{Replayed, Step, replay};
use right_answers::chosen_scripts_of_runs_replay;
use rule_problem::laws::{branches_are_of_alternatives, types_over_books_are_theorems};
use rule_problem::{RuleProblem, SeenGoals};
use tree_steps::{Problem, Tree};

/// The script that a tree chooses whose root is proved and is the opening list of a theorem's type, and the closed term that comes of it. Each step is the least alternative
/// with only proved children at the node of the first goal of the one list. A number past its type is out of memory.
pub fn extract<P: Problem<Node = Goals, Seen = SeenGoals>>(
    problem: &RuleProblem<'_, '_>,
    tree: &Tree<P>,
    ty: &Ty,
) -> Result<(Vec<Step>, Term), NoMemory>
    requires tree { IsTree (branches_in problem.now.book.now) goals_of (IsNode problem.now.book.now) tree.now }
    requires root { goals_of tree.now.root ≡ opening (type_of ty.now) }
    requires proved { is_proved tree.now.shape.shape 0 ≡ true }
    requires formed { Formed (kinds_in problem.now.book.now.sig) (typing_in problem.now.book.now.sig [] []) (type_of ty.now) }
    ensures script { IfOk result (λ made. map seen_step made.0.items ≡ script_by problem.now.book.now.sig (rules_in problem.now.book.now) (type_of ty.now) tree.now.journal.events) }
    ensures term { IfOk result (λ made. replay problem.now.book.now.sig (rules_in problem.now.book.now) (type_of ty.now) (map seen_step made.0.items) ≡ closed (term_of made.1)) }
{
    problem.book.is_formed();
    problem.book.sig().is_formed();
    branches_are_of_alternatives();
    types_over_books_are_theorems();
    chosen_scripts_can_be_followed();
    chosen_scripts_of_runs_replay();
    let script = chosen_script(problem, tree, ty)?;
    let term = closed_term(problem, ty, script.as_slice())?;
    Ok((script, term))
}

// The chosen script of a tree, read from the opening list of a theorem's type on.
fn chosen_script<P: Problem>(
    problem: &RuleProblem<'_, '_>,
    tree: &Tree<P>,
    ty: &Ty,
) -> Result<Vec<Step>, NoMemory>
    requires { IsFollowed problem.now.book.now.sig (rules_in problem.now.book.now) (type_of ty.now) tree.now }
    ensures { IfOk result (λ script. map seen_step script.items ≡ script_by problem.now.book.now.sig (rules_in problem.now.book.now) (type_of ty.now) tree.now.journal.events) }
{
    let mut script = Vec::new(problem.alloc);
    let mut place = Place {
        goals: opening(problem.alloc, ty)?,
        carried: root_table(problem.alloc)?,
    };
    while let Some(goal) = first_number(&place.goals) {
        let (step, next) = next_step(problem, tree, &place, goal)?;
        script.push(step)?;
        place = next;
    }
    Ok(script)
}

// The term that comes of a script that closes.
fn closed_term(problem: &RuleProblem<'_, '_>, ty: &Ty, script: &[Step]) -> Result<Term, NoMemory>
    requires shaped { ShapedTypeIn problem.now.book.now.sig [] [] (type_of ty.now) }
    requires closes { (t : LfTerm) × (replay problem.now.book.now.sig (rules_in problem.now.book.now) (type_of ty.now) (map seen_step script.now) ≡ closed t) }
    ensures { IfOk result (λ term. replay problem.now.book.now.sig (rules_in problem.now.book.now) (type_of ty.now) (map seen_step script.now) ≡ closed (term_of term)) }
{
    match replay(problem.alloc, problem.book, ty, script)? {
        Replayed::Closed(term) => Ok(term),
        Replayed::NoSuchStep(_) | Replayed::StepsLeft(_) | Replayed::GoalsLeft(_) => unreachable!(),
    }
}
