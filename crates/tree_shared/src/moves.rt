//! What a worker does with a tree while it has it for itself.

ghost use Rattle.std.specs.Prelude.{◌≡◌, ℕ, ◌<◌, true, false, IfOk};
ghost use Rattle.tree_runs.specs.Runs.{is_busy};
ghost use Rattle.tree_steps.specs.Seen.{branches_seen, AllOwn};
ghost use Rattle.tree_steps.specs.Trees.{IsTree, state_of_tree};
ghost use Rattle.tree_shared.specs.Names.{IsTreeOf};
ghost use Rattle.tree_shared.specs.Moves.{IsOwnClaim};

use basics::NoMemory;
use std::alloc::Global;
use tree_steps::{Branches, Claim, Problem, Tree};

/// A node that a seat claimed, and its content.
#[derive(Drop)]
pub(crate) struct Taken<N> {
    pub(crate) seat: u32,
    pub(crate) node: u32,
    pub(crate) content: N,
}

/// Gives back what a seat holds, if it holds something.
pub(crate) fn give_back<P: Problem>(problem: &P, tree: &mut Tree<P>, seat: u32)
    requires tree { IsTree (P.branches problem.now) (P.seen problem.now) (P.is_own problem.now) tree.old }
    ensures tree { (root : P.Node) (budget workers : ℕ) → seat < workers → IsTreeOf P.branches P.seen P.is_own problem.now root budget workers tree.old →
        IsTreeOf P.branches P.seen P.is_own problem.now root budget workers tree.new }
    ensures is_tree { IsTree (P.branches problem.now) (P.seen problem.now) (P.is_own problem.now) tree.new }
    ensures idle { is_busy (state_of_tree (P.branches problem.now) (P.seen problem.now) (P.is_own problem.now) tree.new) seat ≡ false }
    ensures others { (other : ℕ) → is_busy (state_of_tree (P.branches problem.now) (P.seen problem.now) (P.is_own problem.now) tree.old) other ≡ false →
        is_busy (state_of_tree (P.branches problem.now) (P.seen problem.now) (P.is_own problem.now) tree.new) other ≡ false }
{
    if let Some(node) = tree.held(seat) {
        tree.release(problem, node, seat);
    }
}

/// Claims the best node for a seat. What the seat held is given back first.
pub(crate) fn claim_for<P: Problem>(
    problem: &P,
    tree: &mut Tree<P>,
    seat: u32,
) -> Result<Claim<P::Node>, NoMemory>
    requires tree { IsTree (P.branches problem.now) (P.seen problem.now) (P.is_own problem.now) tree.old }
    ensures tree { (root : P.Node) (budget workers : ℕ) → seat < workers → IsTreeOf P.branches P.seen P.is_own problem.now root budget workers tree.old →
        IsTreeOf P.branches P.seen P.is_own problem.now root budget workers tree.new }
    ensures is_tree { IsTree (P.branches problem.now) (P.seen problem.now) (P.is_own problem.now) tree.new }
    ensures own { IfOk result (IsOwnClaim (P.is_own problem.now)) }
{
    give_back(problem, tree, seat);
    tree.claim(problem, seat)
}

/// Commits a node with its branches, where its seat still holds it. Where it doesn't, what the seat holds is given back, and so it is where memory for the commit is
/// refused; that is answered by `false`.
pub(crate) fn commit_for<P: Problem>(
    alloc: Global,
    problem: &P,
    tree: &mut Tree<P>,
    taken: &Taken<P::Node>,
    branches: Branches<P::Node>,
) -> bool
    requires tree { IsTree (P.branches problem.now) (P.seen problem.now) (P.is_own problem.now) tree.old }
    requires content { P.is_own problem.now taken.now.content }
    requires own { AllOwn (P.is_own problem.now) branches }
    requires branches { branches_seen (P.seen problem.now) branches ≡ P.branches problem.now (P.seen problem.now taken.now.content) }
    ensures tree { (root : P.Node) (budget workers : ℕ) → taken.now.seat < workers → IsTreeOf P.branches P.seen P.is_own problem.now root budget workers tree.old →
        IsTreeOf P.branches P.seen P.is_own problem.now root budget workers tree.new }
    ensures is_tree { IsTree (P.branches problem.now) (P.seen problem.now) (P.is_own problem.now) tree.new }
{
    if !tree.holds(problem, taken.node, taken.seat, &taken.content) {
        give_back(problem, tree, taken.seat);
        return true;
    }
    match tree.commit(alloc, problem, taken.node, taken.seat, branches) {
        Ok(()) => true,
        Err(_) => {
            give_back(problem, tree, taken.seat);
            false
        }
    }
}
