//! The search in the caller alone.

ghost use Rattle.std.specs.Prelude.{◌≡◌, ◌<◌, IfOk};
ghost use Rattle.tree_runs.specs.Runs.{IsStillRun};
ghost use Rattle.tree_steps.specs.Trees.{IsTree};

use crate::gate::Gate;
use crate::step::take_step;
use basics::NoMemory;
use std::alloc::Global;
use tree_steps::{Problem, Tree};

/// A gate that nobody watches.
#[derive(Clone, Copy)]
struct OpenGate;

impl Gate for OpenGate {
    fn between(&self, _seat: u32, _turn: u32) {}
}

/// Searches as seat 0 alone: it claims the best node and commits its branches until the root is decided or as many nodes as the budget are
/// committed. It is refused when out of memory. The budget is at least 1.
pub fn search_still<P: Problem>(
    alloc: Global,
    problem: &P,
    root: P::Node,
    budget: u32,
) -> Result<Tree<P>, NoMemory>
    requires budget { 0 < budget }
    requires own { P.is_own problem.now root }
    ensures tree { IfOk result (IsTree (P.branches problem.now) (P.seen problem.now) (P.is_own problem.now)) }
    ensures root { IfOk result (λ tree. tree.root ≡ root) }
    ensures budget { IfOk result (λ tree. tree.budget ≡ budget) }
    ensures still { IfOk result (λ tree. IsStillRun (P.branches problem.now) budget (P.seen problem.now root) tree.journal.events) }
{
    let gate = OpenGate;
    let mut tree = Tree::start(alloc, problem, root, budget)?;
    while take_step(alloc, problem, &gate, &mut tree, 0)?.goes() {}
    Ok(tree)
}
