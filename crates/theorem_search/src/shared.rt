//! The run of several workers for a theorem.

ghost use Rattle.std.specs.Prelude.{◌≡◌, ◌<◌, [], IfOk, true};
ghost use Rattle.lf_definitions.specs.Typing.{Formed};
ghost use Rattle.lf_definitions.specs.Signatures.{kinds_in, typing_in};
ghost use Rattle.lf_terms.specs.Types.{type_of};
ghost use Rattle.answer_text.specs.Seen.{seen_block};
ghost use Rattle.answer_text.specs.Writable.{IsWritable};
ghost use Rattle.goal_book.specs.GoalBooks.{rules_in};
ghost use Rattle.answer_definitions.specs.Right.{IsRight};
ghost use Rattle.answer_definitions.specs.Theorems.{SaysOfDerivations};
ghost use Rattle.theorem_search.specs.Answers.{IsAnswerOf};
ghost use Rattle.meta_goals.specs.GoalsOf.{goals_of};
ghost use Rattle.rule_problem.specs.Problems.{branches_in, IsNode};
ghost use Rattle.tree_runs.specs.Runs.{is_settled};
ghost use Rattle.tree_shared.specs.Seats.{AreSeatsBelow};
ghost use Rattle.tree_steps.specs.Trees.{IsTree, state_of_tree};

use crate::answer::block_of;
use answer_text::Block;
use basics::NoMemory;
use command_words::Opts;
use file_elab::Theorem;
use goal_book::{GoalBook, opening};
use meta_goals::Goals;
use right_answers::{right_answers_decide_derivability, settled_answers_are_right};
use rule_problem::RuleProblem;
use rule_problem::laws::{branches_are_of_alternatives, types_over_books_are_theorems};
use std::alloc::Global;
use std::sync::Wait;
use std::thread::Threads;
use tree_shared::{Crew, Gate, search};
use tree_steps::Tree;
use written_answers::right_blocks_are_writable;

/// Searches for a proof of a theorem with some workers on one tree: each expands the best open node, until the root is decided or as many nodes as the budget are expanded. The
/// order of their steps is not fixed, and the block is what the run that came about answers. A theorem that is proved is derivable, and one that is stuck isn't. It may wait. The
/// budget and the number of workers are at least 1, and the theorem's type is well formed. A number past its type is out of memory.
pub fn prove_theorem<'x, R: Threads + Wait + Sync, G: Gate + Sync>(
    rt: &'x R,
    alloc: Global,
    book: &GoalBook<'_>,
    theorem: &Theorem,
    opts: &Opts,
    gate: &'x G,
) -> Result<Block, NoMemory>
    requires budget { 0 < opts.now.budget }
    requires workers { 0 < opts.now.workers }
    requires formed { Formed (kinds_in book.now.sig) (typing_in book.now.sig [] []) (type_of theorem.now.ty) }
    ensures answer { IfOk result (λ block. IsAnswerOf book.now.sig (rules_in book.now) (type_of theorem.now.ty) opts.now.budget opts.now.trace theorem.now.name opts.now.workers (seen_block block)) }
    ensures right { IfOk result (λ block. IsRight book.now.sig (rules_in book.now) opts.now.budget (type_of theorem.now.ty) theorem.now.name (seen_block block)) }
    ensures derivations { IfOk result (λ block. SaysOfDerivations book.now.sig (rules_in book.now) (type_of theorem.now.ty) (seen_block block).verdict) }
    ensures writable { IfOk result (λ block. IsWritable book.now.sig book.now.book (seen_block block)) }
{
    book.is_formed();
    book.sig().is_formed();
    branches_are_of_alternatives();
    types_over_books_are_theorems();
    settled_answers_are_right();
    right_answers_decide_derivability();
    right_blocks_are_writable();
    let problem = RuleProblem { alloc, book };
    let root = opening(alloc, &theorem.ty)?;
    let tree = search_over(rt, gate, &problem, root, opts)?;
    let block = block_of(&problem, tree, theorem, opts.trace)?;
    Ok(block)
}

// The tree of such a search.
fn search_over<'x, R: Threads + Wait + Sync, G: Gate + Sync>(
    rt: &'x R,
    gate: &'x G,
    problem: &'x RuleProblem<'x, 'x>,
    root: Goals,
    opts: &Opts,
) -> Result<Tree<RuleProblem<'x, 'x>>, NoMemory>
    requires budget { 0 < opts.now.budget }
    requires workers { 0 < opts.now.workers }
    requires own { IsNode problem.now.book.now root }
    ensures tree { IfOk result (IsTree (branches_in problem.now.book.now) goals_of (IsNode problem.now.book.now)) }
    ensures root { IfOk result (λ tree. tree.root ≡ root) }
    ensures budget { IfOk result (λ tree. tree.budget ≡ opts.now.budget) }
    ensures seats { IfOk result (λ tree. AreSeatsBelow opts.now.workers tree.journal.events) }
    ensures settled { IfOk result (λ tree. is_settled (branches_in problem.now.book.now) opts.now.budget (state_of_tree (branches_in problem.now.book.now) goals_of (IsNode problem.now.book.now) tree) ≡ true) }
{
    let crew = Crew {
        rt,
        gate,
        workers: opts.workers,
    };
    search(&crew, problem.alloc, problem, root, opts.budget)
}
