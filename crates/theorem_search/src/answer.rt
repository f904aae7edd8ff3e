//! The block that a tree answers for a theorem.

ghost use Rattle.std.specs.Prelude.{◌≡◌, [], IfOk, option_map};
ghost use Rattle.lf_definitions.specs.Typing.{Formed};
ghost use Rattle.lf_definitions.specs.Signatures.{kinds_in, typing_in};
ghost use Rattle.lf_definitions.specs.GoalLists.{opening};
ghost use Rattle.lf_terms.specs.Types.{type_of};
ghost use Rattle.answer_text.specs.Seen.{seen_block, seen_verdict};
ghost use Rattle.goal_book.specs.GoalBooks.{rules_in};
ghost use Rattle.meta_goals.specs.GoalsOf.{goals_of};
ghost use Rattle.answer_definitions.specs.Settled.{IsAnswerBy, IsVerdictBy, events_shown};
ghost use Rattle.rule_problem.specs.Problems.{branches_in, IsNode};
ghost use Rattle.tree_steps.specs.Trees.{IsTree};

use answer_text::{Block, Verdict};
use basics::{Name, NoMemory};
use file_elab::Theorem;
use lf_terms::Ty;
use meta_goals::Goals;
use proof_extract::extract;
use rule_problem::laws::branches_are_of_alternatives;
use rule_problem::{RuleProblem, SeenGoals};
use tree_steps::{Journal, Problem, Root, Tree};

/// The block that a tree over a book answers for a theorem whose opening list is the root.
pub(crate) fn block_of<P: Problem<Node = Goals, Seen = SeenGoals>>(
    problem: &RuleProblem<'_, '_>,
    tree: Tree<P>,
    theorem: &Theorem,
    trace: bool,
) -> Result<Block, NoMemory>
    requires tree { IsTree (branches_in problem.now.book.now) goals_of (IsNode problem.now.book.now) tree }
    requires root { goals_of tree.root ≡ opening (type_of theorem.now.ty) }
    requires formed { Formed (kinds_in problem.now.book.now.sig) (typing_in problem.now.book.now.sig [] []) (type_of theorem.now.ty) }
    ensures { IfOk result (λ block. IsAnswerBy problem.now.book.now.sig (rules_in problem.now.book.now) (type_of theorem.now.ty) trace theorem.now.name tree.journal.events (seen_block block)) }
{
    let verdict = verdict_of(problem, &tree, &theorem.ty)?;
    let name = Name::from_slice(problem.alloc, theorem.name.as_bytes())?;
    let events = shown(trace, &verdict, tree.into_journal());
    Ok(Block {
        name,
        verdict,
        events,
    })
}

// What the marks of the root say: it is proved, by the script that the tree chooses, or it is stuck, or it is undecided and the budget is spent.
fn verdict_of<P: Problem<Node = Goals, Seen = SeenGoals>>(
    problem: &RuleProblem<'_, '_>,
    tree: &Tree<P>,
    ty: &Ty,
) -> Result<Verdict, NoMemory>
    requires tree { IsTree (branches_in problem.now.book.now) goals_of (IsNode problem.now.book.now) tree.now }
    requires root { goals_of tree.now.root ≡ opening (type_of ty.now) }
    requires formed { Formed (kinds_in problem.now.book.now.sig) (typing_in problem.now.book.now.sig [] []) (type_of ty.now) }
    ensures { IfOk result (λ verdict. IsVerdictBy problem.now.book.now.sig (rules_in problem.now.book.now) (type_of ty.now) tree.now.journal.events (seen_verdict verdict)) }
{
    problem.book.is_formed();
    branches_are_of_alternatives();
    match tree.verdict() {
        Root::Proved => {
            let (script, term) = extract(problem, tree, ty)?;
            Ok(Verdict::Proved(term, script))
        }
        Root::Stuck => Ok(Verdict::Stuck),
        Root::Undecided => Ok(Verdict::Spent),
    }
}

// The events, where they are shown: those of a proved theorem only if they are asked for.
fn shown(trace: bool, verdict: &Verdict, journal: Journal) -> Option<Journal>
    ensures { option_map (λ shown. shown.events) result ≡ events_shown trace (seen_verdict verdict.now) journal.events }
{
    match verdict {
        Verdict::Proved(_, _) if !trace => None,
        _ => Some(journal),
    }
}
