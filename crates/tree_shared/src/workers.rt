//! The search of several workers on one tree.

ghost use Rattle.std.specs.Prelude.{◌≡◌, ◌<◌, ◌≤◌, Some, IfOk, true};
ghost use Rattle.tree_runs.specs.Runs.{is_settled};
ghost use Rattle.tree_steps.specs.Trees.{IsTree, state_of_tree};
ghost use Rattle.tree_shared.specs.Names.{IsTreeOf};
ghost use Rattle.tree_shared.specs.Seats.{AreSeatsBelow};
ghost use Rattle.tree_shared.specs.Tasks.{IsTask};

use crate::alone::{begin, end};
use crate::desk::Task;
use crate::gate::Gate;
use crate::moves::Taken;
use crate::name::TreeName;
use crate::room::Room;
use basics::NoMemory;
use std::alloc::Global;
use std::marker::Brand;
use std::sync::Wait;
use std::thread;
use std::thread::{Builder, Threads};
use tree_steps::{Problem, Tree};

/// A worker expands nodes that nest deeply. The stack is taken only as it is used.
const STACK: usize = 1 << 30;

/// How many turns the caller takes with one thread beside it before it starts the others.
const TURNS_OF_TWO: u32 = 32;

/// Who searches: the runtime that starts threads, the gate that all workers pass, and how many workers there are: the caller, which is the worker of seat 0, and a thread for
/// each other seat.
#[derive(Clone, Copy)]
pub struct Crew<'a, R, G> {
    pub rt: &'a R,
    pub gate: &'a G,
    pub workers: u32,
}

// Expands a node that was claimed, and commits it. Where memory is refused the node is given back. The answer is what is to be done next.
fn expand<R: Wait, P: Problem, J: TreeName<P, P::Node>>(
    rt: &R,
    alloc: Global,
    problem: &P,
    room: &Room<P, J>,
    taken: &Taken<P::Node>,
) -> Task<P::Node>
    requires problem { J.problem ≡ Some problem.now }
    requires seat { taken.now.seat < J.workers }
    requires own { P.is_own problem.now taken.now.content }
    ensures task { IsTask (P.is_own problem.now) J.workers result }
{
    match problem.expand(&taken.content) {
        Ok(branches) => room.give(rt, alloc, problem, taken, branches),
        Err(_) => {
            room.put_back(rt, problem, taken.seat);
            Task::End
        }
    }
}

// Does a task, and answers the next.
fn work_once<R: Wait, P: Problem, G: Gate, J: TreeName<P, P::Node>>(
    rt: &R,
    alloc: Global,
    problem: &P,
    gate: &G,
    room: &Room<P, J>,
    task: Task<P::Node>,
) -> Task<P::Node>
    requires problem { J.problem ≡ Some problem.now }
    requires task { IsTask (P.is_own problem.now) J.workers task }
    ensures task { IsTask (P.is_own problem.now) J.workers result }
{
    match task {
        Task::Expand(taken, turn) => {
            gate.between(taken.seat, turn);
            expand(rt, alloc, problem, room, &taken)
        }
        Task::Ask(seat) => room.take(rt, problem, seat),
        Task::End => Task::End,
    }
}

// Works for some turns from a task on, and answers the next.
fn work_a_while<R: Wait, P: Problem, G: Gate, J: TreeName<P, P::Node>>(
    rt: &R,
    alloc: Global,
    problem: &P,
    gate: &G,
    room: &Room<P, J>,
    task: Task<P::Node>,
) -> Task<P::Node>
    requires problem { J.problem ≡ Some problem.now }
    requires task { IsTask (P.is_own problem.now) J.workers task }
    ensures task { IsTask (P.is_own problem.now) J.workers result }
{
    let mut task = task;
    for _ in 0..TURNS_OF_TWO {
        task = work_once(rt, alloc, problem, gate, room, task);
    }
    task
}

// Works from a task on to the end.
fn work<R: Wait, P: Problem, G: Gate, J: TreeName<P, P::Node>>(
    rt: &R,
    alloc: Global,
    problem: &P,
    gate: &G,
    room: &Room<P, J>,
    task: Task<P::Node>,
)
    requires problem { J.problem ≡ Some problem.now }
    requires task { IsTask (P.is_own problem.now) J.workers task }
{
    let mut task = task;
    for _ in rt.forever() {
        if let Task::End = &task {
            return;
        }
        task = work_once(rt, alloc, problem, gate, room, task);
    }
}

// Works in so many seats at once, the caller in the first, until all have ended. Fewer threads do where the system has no more.
fn work_in_all<
    'x,
    R: Threads + Wait + Sync,
    P: Problem + Sync,
    G: Gate + Sync,
    J: TreeName<P, P::Node> + Send + Sync,
>(rt: &'x R, alloc: Global, problem: &'x P, gate: &'x G, room: &'x Room<P, J>, workers: u32)
where
    P::Node: Send,
    requires problem { J.problem ≡ Some problem.now }
    requires workers { workers ≡ J.workers }
    requires some { 0 < workers }
{
    thread::scope(
        thread::scope_env(),
        rt,
        |scope|
            requires { (J.problem ≡ Some problem.now) × (workers ≡ J.workers) × (0 < workers) }
        {
            if workers > 1 {
                let job = move ||
                    requires { (J.problem ≡ Some problem.now) × (1 < J.workers) }
                { work(rt, alloc, problem, gate, room, Task::Ask(1)) };
                let _second = Builder::new()
                    .stack_size(STACK)
                    .spawn_scoped(scope, job)
                    .is_ok();
            }
            let task = work_a_while(rt, alloc, problem, gate, room, Task::Ask(0));
            if let Task::End = &task {
                return;
            }
            for seat in 2..workers {
                let job = move ||
                    requires { (J.problem ≡ Some problem.now) × (seat < J.workers) }
                { work(rt, alloc, problem, gate, room, Task::Ask(seat)) };
                if Builder::new()
                    .stack_size(STACK)
                    .spawn_scoped(scope, job)
                    .is_err()
                {
                    break;
                }
            }
            work(rt, alloc, problem, gate, room, task);
        },
    );
}

// Shares a tree among the workers until all have ended.
fn share<
    'x,
    R: Threads + Wait + Sync,
    P: Problem + Sync,
    G: Gate + Sync,
    J: TreeName<P, P::Node> + Send + Sync,
>(crew: &'x Crew<'x, R, G>, alloc: Global, problem: &'x P, tree: Tree<P>, turns: u32) -> Tree<P>
where
    P::Node: Send,
    requires problem { J.problem ≡ Some problem.now }
    requires root { J.root ≡ Some tree.root }
    requires budget { J.budget ≡ tree.budget }
    requires workers { J.workers ≡ crew.now.workers }
    requires some { 0 < crew.now.workers }
    requires tree { IsTreeOf P.branches P.seen P.is_own problem.now tree.root tree.budget crew.now.workers tree }
    ensures { IsTreeOf P.branches P.seen P.is_own problem.now tree.root tree.budget crew.now.workers result }
{
    let room: Room<P, J> = Room::new(tree, turns);
    work_in_all(crew.rt, alloc, problem, crew.gate, &room, crew.workers);
    room.into_tree()
}

// Goes on with a search after so many claims; there is nothing to be done for workers where no number is given.
fn go_on<'x, R: Threads + Wait + Sync, P: Problem + Sync, G: Gate + Sync>(
    crew: &'x Crew<'x, R, G>,
    alloc: Global,
    problem: &'x P,
    tree: Tree<P>,
    turns: Option<u32>,
) -> Tree<P>
where
    P::Node: Send,
    requires some { 0 < crew.now.workers }
    requires tree { IsTreeOf P.branches P.seen P.is_own problem.now tree.root tree.budget crew.now.workers tree }
    ensures { IsTreeOf P.branches P.seen P.is_own problem.now tree.root tree.budget crew.now.workers result }
{
    match turns {
        Some(turns) => share::<R, P, G, Brand>(crew, alloc, problem, tree, turns),
        None => tree,
    }
}

/// Searches with some workers on one tree: each claims the best node, expands it while no lock is held, and commits its branches, until the root is decided or as many
/// nodes as the budget are committed. The order of these steps is not fixed. Of so many workers the caller is that of seat 0, and each other is a thread. One worker goes on
/// alone to the end, with no lock. Of more, the caller begins alone; the thread of seat 1 is started once a second node is open, and the others once the caller has taken 32
/// turns since (`TURNS_OF_TWO`), so a short search starts at most one. A worker to whom memory is refused gives its node back and ends; the search is refused where it isn't
/// settled once all have ended. It may wait. The budget and the number of workers are at least 1.
pub fn search<'x, R: Threads + Wait + Sync, P: Problem + Sync, G: Gate + Sync>(
    crew: &'x Crew<'x, R, G>,
    alloc: Global,
    problem: &'x P,
    root: P::Node,
    budget: u32,
) -> Result<Tree<P>, NoMemory>
where
    P::Node: Send,
    requires budget { 0 < budget }
    requires workers { 0 < crew.now.workers }
    requires own { P.is_own problem.now root }
    ensures tree { IfOk result (IsTree (P.branches problem.now) (P.seen problem.now) (P.is_own problem.now)) }
    ensures root { IfOk result (λ tree. tree.root ≡ root) }
    ensures budget { IfOk result (λ tree. tree.budget ≡ budget) }
    ensures seats { IfOk result (λ tree. AreSeatsBelow crew.now.workers tree.journal.events) }
    ensures settled { IfOk result (λ tree. is_settled (P.branches problem.now) budget (state_of_tree (P.branches problem.now) (P.seen problem.now) (P.is_own problem.now) tree) ≡ true) }
{
    let mut tree = Tree::start(alloc, problem, root, budget)?;
    let turns = begin(alloc, problem, crew.gate, &mut tree, budget, crew.workers)?;
    let tree = go_on(crew, alloc, problem, tree, turns);
    end(problem, tree, crew.workers)
}
