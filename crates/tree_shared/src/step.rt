//! One step of a search in the caller alone.

ghost use Rattle.std.specs.Prelude.{◌≡◌, [], IfOk};
ghost use Rattle.tree_steps.specs.Trees.{IsTree, state_of_tree};
ghost use Rattle.tree_shared.specs.Stills.{IsStep, has_gone};

use crate::gate::Gate;
use basics::NoMemory;
use std::alloc::Global;
use tree_steps::{Branches, Claim, Problem, Tree};

/// How a step went: it left at most one child, or more, or nothing was to be done.
#[derive(Clone, Copy)]
pub(crate) enum Step {
    Goes,
    Forks,
    Ends,
}

impl Step {
    /// Whether something was done.
    pub(crate) fn goes(&self) -> bool
        ensures { result ≡ has_gone self.now }
    {
        match self {
            Step::Goes => true,
            Step::Forks => true,
            Step::Ends => false,
        }
    }

    /// Whether it left more than one child.
    pub(crate) fn forks(&self) -> bool {
        matches!(self, Step::Forks)
    }
}

/// Whether there is more than one child.
pub(crate) fn is_fork<N>(branches: &Branches<N>) -> bool {
    let mut found = false;
    for branch in branches.alternatives.as_slice() {
        match branch.nodes.len() {
            0 => {}
            1 if !found => found = true,
            _ => return true,
        }
    }
    false
}

/// Claims and commits one node as seat 0, before which so many claims were made.
pub(crate) fn take_step<P: Problem, G: Gate>(
    alloc: Global,
    problem: &P,
    gate: &G,
    tree: &mut Tree<P>,
    turn: u32,
) -> Result<Step, NoMemory>
    requires tree { IsTree (P.branches problem.now) (P.seen problem.now) (P.is_own problem.now) tree.old }
    requires idle { (state_of_tree (P.branches problem.now) (P.seen problem.now) (P.is_own problem.now) tree.old).held ≡ [] }
    ensures tree { IsTree (P.branches problem.now) (P.seen problem.now) (P.is_own problem.now) tree.new }
    ensures root { tree.new.root ≡ tree.old.root }
    ensures budget { tree.new.budget ≡ tree.old.budget }
    ensures step { IfOk result (λ step. IsStep (P.branches problem.now) (P.seen problem.now) (P.is_own problem.now) tree.old tree.new (has_gone step)) }
{
    match tree.claim(problem, 0)? {
        Claim::Take(node, content) => {
            gate.between(0, turn);
            let branches = problem.expand(&content)?;
            let forks = is_fork(&branches);
            match tree.commit(alloc, problem, node, 0, branches) {
                Ok(()) if forks => Ok(Step::Forks),
                Ok(()) => Ok(Step::Goes),
                Err(_) => Err(NoMemory),
            }
        }
        Claim::Decided => Ok(Step::Ends),
        Claim::Spent(_) => Ok(Step::Ends),
        Claim::Idle(_) => unreachable!(),
    }
}
