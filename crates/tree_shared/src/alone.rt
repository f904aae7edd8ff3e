//! The start of a search, before there is work for a second worker, and its end, when nobody else works any more.

ghost use Rattle.std.specs.Prelude.{◌≡◌, ℕ, ◌<◌, [], IfOk, OnOk, true, false};
ghost use Rattle.tree_runs.specs.Runs.{is_busy, is_settled};
ghost use Rattle.tree_steps.specs.Trees.{IsTree, state_of_tree};
ghost use Rattle.tree_shared.specs.Names.{IsTreeOf};

use crate::gate::Gate;
use crate::moves::give_back;
use crate::step::take_step;
use basics::NoMemory;
use std::alloc::Global;
use tree_steps::{Claim, Problem, Tree};

/// Searches as seat 0: to the end where there are no more workers than one, and else as long as at most one node is open. It answers how many claims were made where
/// others are to help.
pub(crate) fn begin<P: Problem, G: Gate>(
    alloc: Global,
    problem: &P,
    gate: &G,
    tree: &mut Tree<P>,
    budget: u32,
    workers: u32,
) -> Result<Option<u32>, NoMemory>
    requires tree { IsTree (P.branches problem.now) (P.seen problem.now) (P.is_own problem.now) tree.old }
    requires idle { (state_of_tree (P.branches problem.now) (P.seen problem.now) (P.is_own problem.now) tree.old).held ≡ [] }
    ensures tree { OnOk result ((root : P.Node) (budget workers : ℕ) → 0 < workers → IsTreeOf P.branches P.seen P.is_own problem.now root budget workers tree.old →
        IsTreeOf P.branches P.seen P.is_own problem.now root budget workers tree.new) }
    ensures is_tree { IsTree (P.branches problem.now) (P.seen problem.now) (P.is_own problem.now) tree.new }
{
    for turn in 0..budget {
        let step = take_step(alloc, problem, gate, tree, turn)?;
        if !step.goes() {
            return Ok(None);
        }
        if workers > 1 && step.forks() {
            return Ok(Some(turn + 1));
        }
    }
    Ok(None)
}

// Gives back what so many seats hold.
fn give_all_back<P: Problem>(problem: &P, tree: &mut Tree<P>, workers: u32)
    requires tree { IsTree (P.branches problem.now) (P.seen problem.now) (P.is_own problem.now) tree.old }
    ensures tree { (root : P.Node) (budget : ℕ) → IsTreeOf P.branches P.seen P.is_own problem.now root budget workers tree.old →
        IsTreeOf P.branches P.seen P.is_own problem.now root budget workers tree.new }
    ensures is_tree { IsTree (P.branches problem.now) (P.seen problem.now) (P.is_own problem.now) tree.new }
    ensures idle { (seat : ℕ) → seat < workers → is_busy (state_of_tree (P.branches problem.now) (P.seen problem.now) (P.is_own problem.now) tree.new) seat ≡ false }
{
    for seat in 0..workers {
        give_back(problem, tree, seat);
    }
}

/// The tree, if it is settled once so many seats have given back what they hold: the root is decided, or the budget is used up by commits.
pub(crate) fn end<P: Problem>(problem: &P, tree: Tree<P>, workers: u32) -> Result<Tree<P>, NoMemory>
    requires tree { IsTreeOf P.branches P.seen P.is_own problem.now tree.root tree.budget workers tree }
    requires some { 0 < workers }
    ensures tree { IfOk result (IsTreeOf P.branches P.seen P.is_own problem.now tree.root tree.budget workers) }
    ensures settled { IfOk result (λ left. is_settled (P.branches problem.now) tree.budget (state_of_tree (P.branches problem.now) (P.seen problem.now) (P.is_own problem.now) left) ≡ true) }
{
    let mut tree = tree;
    give_all_back(problem, &mut tree, workers);
    match tree.claim(problem, 0)? {
        Claim::Decided => Ok(tree),
        Claim::Spent(_) => Ok(tree),
        Claim::Take(_, _) => Err(NoMemory),
        Claim::Idle(_) => Err(NoMemory),
    }
}
