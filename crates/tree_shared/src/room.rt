//! The lock round a shared tree.

ghost use Rattle.std.specs.Prelude.{◌≡◌, ◌<◌, Some};
ghost use Rattle.tree_steps.specs.Seen.{branches_seen, AllOwn};
ghost use Rattle.tree_shared.specs.Names.{IsNamed};
ghost use Rattle.tree_shared.specs.Tasks.{IsTask};

use crate::desk::{Desk, Task};
use crate::moves::Taken;
use crate::name::TreeName;
use crate::step::is_fork;
use std::alloc::Global;
use std::sync::{Condvar, Mutex, MutexGuard, Wait};
use tree_steps::{Branches, Problem, Tree};

/// A shared tree under its lock, and what those wait on who can't go on before it changes.
#[derive(Drop)]
pub(crate) struct Room<P: Problem, J: TreeName<P, P::Node>> {
    desk: Mutex<Desk<P, J>>,
    changed: Condvar,
}

impl<P: Problem, J: TreeName<P, P::Node>> Room<P, J> {
    /// A tree that has the name, after so many claims.
    pub(crate) fn new(tree: Tree<P>, turns: u32) -> Room<P, J>
        requires { IsNamed P.branches P.seen P.is_own J.problem J.root J.budget J.workers tree }
    {
        Room {
            desk: Mutex::new(Desk::new(tree, turns)),
            changed: Condvar::new(),
        }
    }

    /// The tree, once nobody shares it any more.
    pub(crate) fn into_tree(self) -> Tree<P>
        ensures { IsNamed P.branches P.seen P.is_own J.problem J.root J.budget J.workers result }
    {
        let Room { desk, changed: _ } = self;
        desk.into_inner().into_tree()
    }

    /// What the worker of a seat is to do now. Where it is to ask again, it has waited for a change.
    pub(crate) fn take<R: Wait>(&self, rt: &R, problem: &P, seat: u32) -> Task<P::Node>
        requires problem { J.problem ≡ Some problem.now }
        requires seat { seat < J.workers }
        ensures task { IsTask (P.is_own problem.now) J.workers result }
    {
        let mut desk = self.desk.lock(rt);
        let task = desk.take(problem, seat);
        self.leave(rt, desk, &task, false);
        task
    }

    /// Commits a node with its branches, and answers what its worker is to do next, as `take` does. Where memory is refused that is to end.
    pub(crate) fn give<R: Wait>(
        &self,
        rt: &R,
        alloc: Global,
        problem: &P,
        taken: &Taken<P::Node>,
        branches: Branches<P::Node>,
    ) -> Task<P::Node>
        requires problem { J.problem ≡ Some problem.now }
        requires seat { taken.now.seat < J.workers }
        requires content { P.is_own problem.now taken.now.content }
        requires own { AllOwn (P.is_own problem.now) branches }
        requires branches { branches_seen (P.seen problem.now) branches ≡ P.branches problem.now (P.seen problem.now taken.now.content) }
        ensures task { IsTask (P.is_own problem.now) J.workers result }
    {
        let forks = is_fork(&branches);
        let mut desk = self.desk.lock(rt);
        let task = desk.give(alloc, problem, taken, branches);
        self.leave(rt, desk, &task, forks);
        task
    }

    /// Gives back what a seat holds.
    pub(crate) fn put_back<R: Wait>(&self, rt: &R, problem: &P, seat: u32)
        requires problem { J.problem ≡ Some problem.now }
        requires seat { seat < J.workers }
    {
        let mut desk = self.desk.lock(rt);
        desk.put_back(problem, seat);
        self.wake(desk);
    }

    // Lets the lock go with a task: to wait where that is to ask again, and else to wake those who wait, where there may be something for them: after a fork, and where a
    // worker ends.
    fn leave<R: Wait>(
        &self,
        rt: &R,
        desk: MutexGuard<'_, Desk<P, J>>,
        task: &Task<P::Node>,
        forks: bool,
    ) {
        match task {
            Task::Ask(_) => self.rest(rt, desk),
            Task::Expand(_, _) => if forks {
                self.wake(desk);
            } else {
                drop(desk);
            },
            Task::End => self.wake(desk),
        }
    }

    // Waits for a change.
    fn rest<R: Wait>(&self, rt: &R, desk: MutexGuard<'_, Desk<P, J>>) {
        let mut desk = desk;
        desk.add_waiting();
        let mut desk = self.changed.wait(rt, desk);
        desk.drop_waiting();
    }

    // Lets the lock go and wakes those who wait.
    fn wake(&self, desk: MutexGuard<'_, Desk<P, J>>) {
        let is_awaited = desk.is_awaited();
        drop(desk);
        if is_awaited {
            self.changed.notify_all();
        }
    }
}
