//! The tree that several workers share, as it stands under its lock.

ghost use Rattle.std.specs.Prelude.{◌≡◌, ◌<◌, Some, IfOk};
ghost use Rattle.tree_steps.specs.Seen.{branches_seen, AllOwn};
ghost use Rattle.tree_shared.specs.Names.{IsNamed};
ghost use Rattle.tree_shared.specs.Tasks.{IsTask};

use crate::moves::{Taken, claim_for, commit_for, give_back};
use crate::name::TreeName;
use basics::NoMemory;
use std::alloc::Global;
use std::marker::{Model, PhantomData};
use tree_steps::{Branches, Claim, Problem, Tree};

/// What a worker is to do: to expand a node that it claimed after so many claims, to ask for a task of its seat, or to end.
#[derive(Drop)]
pub(crate) enum Task<N> {
    Expand(Taken<N>, u32),
    Ask(u32),
    End,
}

/// A tree with a name, how many claims were made, and how many workers wait for a change. A contract sees its events.
#[derive(Drop)]
pub(crate) struct Desk<P: Problem, J: TreeName<P, P::Node>> {
    tree: Tree<P>,
    turns: u32,
    waiting: u32,
    name: PhantomData<J>,
}

impl<P: Problem, J: TreeName<P, P::Node>> Model for Desk<P, J> {
    ghost use Rattle.std.specs.Prelude.{List};
    ghost use Rattle.tree_runs.specs.States.{TreeEvent};
    ghost use Rattle.tree_shared.specs.Names.{IsNamed};

    ghost Value = { List TreeEvent };

    ghost view = { λ d. d.tree.journal.events };

    ghost invariant = { λ d. IsNamed P.branches P.seen P.is_own J.problem J.root J.budget J.workers d.tree };
}

impl<P: Problem, J: TreeName<P, P::Node>> Desk<P, J> {
    /// A tree that has the name, after so many claims.
    pub(crate) fn new(tree: Tree<P>, turns: u32) -> Desk<P, J>
        requires { IsNamed P.branches P.seen P.is_own J.problem J.root J.budget J.workers tree }
        ensures { result ≡ tree.journal.events }
    {
        Desk {
            tree,
            turns,
            waiting: 0,
            name: PhantomData,
        }
    }

    /// The tree.
    pub(crate) fn into_tree(self) -> Tree<P>
        ensures { IsNamed P.branches P.seen P.is_own J.problem J.root J.budget J.workers result }
    {
        self.tree
    }

    // Claims for a seat, and says what its worker is to do now. It ends where the root is decided or the budget is used up by commits, and is to ask again where others hold
    // what is left.
    fn claim(&mut self, problem: &P, seat: u32) -> Result<Task<P::Node>, NoMemory>
        requires problem { J.problem ≡ Some problem.now }
        requires seat { seat < J.workers }
        ensures task { IfOk result (IsTask (P.is_own problem.now) J.workers) }
    {
        match claim_for(problem, &mut self.tree, seat)? {
            Claim::Take(node, content) => {
                let turn = self.turns;
                self.turns = turn.saturating_add(1);
                let taken = Taken {
                    seat,
                    node,
                    content,
                };
                Ok(Task::Expand(taken, turn))
            }
            Claim::Decided => Ok(Task::End),
            Claim::Spent(0) => Ok(Task::End),
            Claim::Spent(_) => Ok(Task::Ask(seat)),
            Claim::Idle(_) => Ok(Task::Ask(seat)),
        }
    }

    /// What the worker of a seat is to do now. It ends where the root is decided, the budget is used up by commits or memory is refused, and is to ask again where others
    /// hold what is left.
    pub(crate) fn take(&mut self, problem: &P, seat: u32) -> Task<P::Node>
        requires problem { J.problem ≡ Some problem.now }
        requires seat { seat < J.workers }
        ensures task { IsTask (P.is_own problem.now) J.workers result }
    {
        match self.claim(problem, seat) {
            Ok(task) => task,
            Err(_) => Task::End,
        }
    }

    // Commits a node with its branches. `false` says that memory was refused.
    fn commit(
        &mut self,
        alloc: Global,
        problem: &P,
        taken: &Taken<P::Node>,
        branches: Branches<P::Node>,
    ) -> bool
        requires problem { J.problem ≡ Some problem.now }
        requires seat { taken.now.seat < J.workers }
        requires content { P.is_own problem.now taken.now.content }
        requires own { AllOwn (P.is_own problem.now) branches }
        requires branches { branches_seen (P.seen problem.now) branches ≡ P.branches problem.now (P.seen problem.now taken.now.content) }
    {
        commit_for(alloc, problem, &mut self.tree, taken, branches)
    }

    /// Commits a node with its branches, and says what its worker is to do next. Where memory is refused that is to end.
    pub(crate) fn give(
        &mut self,
        alloc: Global,
        problem: &P,
        taken: &Taken<P::Node>,
        branches: Branches<P::Node>,
    ) -> Task<P::Node>
        requires problem { J.problem ≡ Some problem.now }
        requires seat { taken.now.seat < J.workers }
        requires content { P.is_own problem.now taken.now.content }
        requires own { AllOwn (P.is_own problem.now) branches }
        requires branches { branches_seen (P.seen problem.now) branches ≡ P.branches problem.now (P.seen problem.now taken.now.content) }
        ensures task { IsTask (P.is_own problem.now) J.workers result }
    {
        if !self.commit(alloc, problem, taken, branches) {
            return Task::End;
        }
        self.take(problem, taken.seat)
    }

    /// Gives back what a seat holds.
    pub(crate) fn put_back(&mut self, problem: &P, seat: u32)
        requires problem { J.problem ≡ Some problem.now }
        requires seat { seat < J.workers }
    {
        give_back(problem, &mut self.tree, seat);
    }

    /// Whether a worker waits.
    pub(crate) fn is_awaited(&self) -> bool {
        self.waiting > 0
    }

    /// One worker more waits.
    pub(crate) fn add_waiting(&mut self) {
        self.waiting = self.waiting.saturating_add(1);
    }

    /// One worker waits no more.
    pub(crate) fn drop_waiting(&mut self) {
        self.waiting = self.waiting.saturating_sub(1);
    }
}
