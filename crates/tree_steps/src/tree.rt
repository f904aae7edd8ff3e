//! The tree.

ghost use Rattle.std.specs.Prelude.{◌≡◌, ◌++◌, ℕ, ◌+◌, ◌<◌, ◌≤◌, List, [], ◌∷◌, All, Some, None, IfOk, IfErr, IfSome, OnOk, OnErr, IsTrue, length, sum, slice_get, true, false};
ghost use Rattle.std.specs.Prelude.{◌↔◌, ◌==◌, ◌&&◌, not, filter, is_some, Contains};
ghost use Rattle.std.specs.List.{list_any};
ghost use Rattle.std.specs.Option.{option_map};
ghost use Rattle.std.specs.Vec.{vec_capacity};
ghost use Rattle.tree_runs.specs.Marks.{is_decided, is_proved, is_relevant, entry_at};
ghost use Rattle.tree_runs.specs.States.{claim, commit, release};
ghost use Rattle.tree_runs.specs.Runs.{is_busy, is_holding};
ghost use Rattle.tree_queue.specs.Queues.{IsBestOf};
ghost use Rattle.tree_steps.specs.Children.{widths};
ghost use Rattle.tree_steps.specs.Seen.{branches_seen, AllOwn};
ghost use Rattle.tree_steps.specs.Trees.{IsTree, HasRoomFor, IsAnswer, IsVerdict, IsHeld, HoldsSeen, IsLeastProved, held_by, state_of_tree};
ghost use Rattle.tree_runs.specs.Shapes.{nodes_count, alternatives_at};
ghost use Rattle.tree_marks.specs.TreeMarks.{Settled};
ghost use Rattle.tree_shape.specs.Room.{HasAlternative};
ghost use Rattle.tree_steps.specs.declared.answers.Refused.TheVariants.{NoMemory as RefusedForMemory};

use crate::answers::{Claim, Refused, Root};
use crate::branches::Branches;
use crate::children::{counts_of, move_nodes, put_children, total_of};
use crate::journal::Journal;
use crate::problem::Problem;
use basics::limits::LIST_LIMIT;
use basics::{Ids, NoMemory};
use std::alloc::Global;
use tree_marks::Marks;
use tree_queue::{Entry, Queue};
use tree_shape::Shape;

/// A node that a seat holds.
#[derive(Clone, Copy)]
pub struct Holding {
    pub seat: u32,
    pub entry: Entry,
}

/// A search tree.
#[derive(Drop)]
pub struct Tree<P: Problem> {
    root: P::Node,
    others: Vec<P::Node>,
    shape: Shape,
    marks: Marks,
    queue: Queue,
    journal: Journal,
    held: Vec<Holding>,
    commits: u32,
    budget: u32,
}

impl<P: Problem> Tree<P> {
    /// A tree with its root alone. The budget is at least 1.
    pub fn start(
        alloc: Global,
        problem: &P,
        root: P::Node,
        budget: u32,
    ) -> Result<Tree<P>, NoMemory>
        requires budget { 0 < budget }
        requires own { P.is_own problem.now root }
        ensures tree { IfOk result (IsTree (P.branches problem.now) (P.seen problem.now) (P.is_own problem.now)) }
        ensures journal { IfOk result (λ tree. tree.journal.events ≡ []) }
        ensures root { IfOk result (λ tree. tree.root ≡ root) }
        ensures budget { IfOk result (λ tree. tree.budget ≡ budget) }
    {
        let _known = problem;
        let shape = Shape::new(alloc)?;
        let marks = Marks::new(alloc)?;
        let mut queue = Queue::new(alloc);
        queue.reserve(1)?;
        queue.put(
            &shape,
            Entry {
                node: 0,
                depth: 0,
                priority: 1_000_000_000_000_000_000,
            },
        );
        Ok(Tree {
            root,
            others: Vec::new(alloc),
            shape,
            marks,
            queue,
            journal: Journal::new(alloc),
            held: Vec::new(alloc),
            commits: 0,
            budget,
        })
    }

    /// Claims the best node for a seat that holds nothing, and answers its number and an equal copy of its content. `Decided` comes exactly
    /// where the root is decided, `Spent` where it is undecided and as many nodes as the budget are committed or held, and `Idle` where
    /// neither holds and no node is open and relevant. These change nothing, nor does a refusal when out of memory.
    pub fn claim(&mut self, problem: &P, seat: u32) -> Result<Claim<P::Node>, NoMemory>
        requires tree { IsTree (P.branches problem.now) (P.seen problem.now) (P.is_own problem.now) self.old }
        requires idle { is_busy (state_of_tree (P.branches problem.now) (P.seen problem.now) (P.is_own problem.now) self.old) seat ≡ false }
        ensures tree { IsTree (P.branches problem.now) (P.seen problem.now) (P.is_own problem.now) self.new }
        ensures answer { IfOk result (IsAnswer (P.branches problem.now) (P.seen problem.now) (P.is_own problem.now) self.old self.new seat) }
        ensures err { OnErr result (self.new.journal.events ≡ self.old.journal.events) }
        ensures root { self.new.root ≡ self.old.root }
        ensures budget { self.new.budget ≡ self.old.budget }
    {
        if self.marks.proved(0) || self.marks.stuck(0) {
            return Ok(Claim::Decided);
        }
        if self.commits as usize + self.held.len() >= self.budget as usize {
            return Ok(Claim::Spent(self.held.len() as u32));
        }
        let Some(entry) = self.queue.best(&self.shape, &self.marks) else {
            return Ok(Claim::Idle(self.held.len() as u32));
        };
        let content = problem.copy(node_at(&self.root, self.others.as_slice(), entry.node))?;
        self.take_first(problem, seat, entry)?;
        Ok(Claim::Take(entry.node, content))
    }

    // Gives the first node of the queue, which is the best, to a seat. All growths come first.
    fn take_first(&mut self, problem: &P, seat: u32, entry: Entry) -> Result<(), NoMemory>
        requires tree { IsTree (P.branches problem.now) (P.seen problem.now) (P.is_own problem.now) self.old }
        requires idle { is_busy (state_of_tree (P.branches problem.now) (P.seen problem.now) (P.is_own problem.now) self.old) seat ≡ false }
        requires undecided { is_decided (state_of_tree (P.branches problem.now) (P.seen problem.now) (P.is_own problem.now) self.old).shape 0 ≡ false }
        requires few { length (state_of_tree (P.branches problem.now) (P.seen problem.now) (P.is_own problem.now) self.old).committed
            + length (state_of_tree (P.branches problem.now) (P.seen problem.now) (P.is_own problem.now) self.old).held < self.old.budget }
        requires first { slice_get self.old.queue.entries 0 ≡ Some entry }
        requires relevant { is_relevant (state_of_tree (P.branches problem.now) (P.seen problem.now) (P.is_own problem.now) self.old).shape entry.node ≡ true }
        requires best { IsBestOf (state_of_tree (P.branches problem.now) (P.seen problem.now) (P.is_own problem.now) self.old).shape self.old.queue.entries entry }
        ensures tree { IsTree (P.branches problem.now) (P.seen problem.now) (P.is_own problem.now) self.new }
        ensures ok { OnOk result (self.new.journal.events ≡ self.old.journal.events ++ claim seat entry.node ∷ []) }
        ensures err { OnErr result (self.new.journal.events ≡ self.old.journal.events) }
        ensures root { self.new.root ≡ self.old.root }
        ensures budget { self.new.budget ≡ self.old.budget }
    {
        let _known = problem;
        self.journal.reserve(self.held.len() + 2, 0)?;
        self.held.reserve(1)?;
        self.queue.take(&self.shape);
        put_holding(&mut self.held, Holding { seat, entry });
        self.journal.add_claim(seat, entry.node);
        Ok(())
    }
}

impl<P: Problem> Tree<P> {
    /// Commits the node that a seat holds, with its branches: its children are open then. All growths come first. A refusal when out of
    /// memory hands the branches back and changes nothing.
    pub fn commit(
        &mut self,
        alloc: Global,
        problem: &P,
        node: u32,
        seat: u32,
        branches: Branches<P::Node>,
    ) -> Result<(), Refused<P::Node>>
        requires tree { IsTree (P.branches problem.now) (P.seen problem.now) (P.is_own problem.now) self.old }
        requires holds { is_holding (state_of_tree (P.branches problem.now) (P.seen problem.now) (P.is_own problem.now) self.old) seat node ≡ true }
        requires own { AllOwn (P.is_own problem.now) branches }
        requires branches { Some (branches_seen (P.seen problem.now) branches) ≡ option_map (λ content. P.branches problem.now content.seen) (slice_get (state_of_tree (P.branches problem.now) (P.seen problem.now) (P.is_own problem.now) self.old).nodes node) }
        ensures tree { IsTree (P.branches problem.now) (P.seen problem.now) (P.is_own problem.now) self.new }
        ensures ok { OnOk result (self.new.journal.events ≡ self.old.journal.events ++ commit seat node (widths branches.alternatives.items) ∷ []) }
        ensures err { OnErr result (self.new.journal.events ≡ self.old.journal.events) }
        ensures back { IfErr result (λ refused. refused ≡ RefusedForMemory branches) }
        ensures root { self.new.root ≡ self.old.root }
        ensures budget { self.new.budget ≡ self.old.budget }
    {
        match self.reserve_children(alloc, problem, &branches) {
            Ok(counts) => {
                self.commit_grown(problem, node, seat, &counts, branches);
                Ok(())
            }
            Err(_) => Err(Refused::NoMemory(branches)),
        }
    }

    // Makes room for a commit of these branches, and answers how many children each alternative has. It changes nothing but the room.
    fn reserve_children(
        &mut self,
        alloc: Global,
        problem: &P,
        branches: &Branches<P::Node>,
    ) -> Result<Ids, NoMemory>
        requires tree { IsTree (P.branches problem.now) (P.seen problem.now) (P.is_own problem.now) self.old }
        ensures tree { IsTree (P.branches problem.now) (P.seen problem.now) (P.is_own problem.now) self.new }
        ensures journal { self.new.journal.events ≡ self.old.journal.events }
        ensures root { self.new.root ≡ self.old.root }
        ensures budget { self.new.budget ≡ self.old.budget }
        ensures counts { IfOk result (λ counts. counts ≡ widths branches.now.alternatives.items) }
        ensures room { IfOk result (λ counts. HasRoomFor (length counts) (sum counts) self.new) }
    {
        let counts = counts_of(alloc, branches)?;
        let width = counts.len();
        let Some(children) = total_of(counts.as_slice()) else {
            return Err(NoMemory);
        };
        if width > LIST_LIMIT as usize || children > LIST_LIMIT as usize {
            return Err(NoMemory);
        }
        self.reserve_room(problem, width, children)?;
        Ok(counts)
    }

    // Makes room for so many alternatives and children. It changes nothing but the room.
    fn reserve_room(&mut self, problem: &P, width: usize, children: usize) -> Result<(), NoMemory>
        requires width { width ≤ 2147483648 }
        requires children { children ≤ 2147483648 }
        requires tree { IsTree (P.branches problem.now) (P.seen problem.now) (P.is_own problem.now) self.old }
        ensures tree { IsTree (P.branches problem.now) (P.seen problem.now) (P.is_own problem.now) self.new }
        ensures journal { self.new.journal.events ≡ self.old.journal.events }
        ensures root { self.new.root ≡ self.old.root }
        ensures budget { self.new.budget ≡ self.old.budget }
        ensures room { OnOk result (HasRoomFor width children self.new) }
    {
        let _known = problem;
        self.journal.reserve(0, width)?;
        self.shape.reserve(children + width)?;
        self.marks.reserve(children)?;
        self.queue.reserve(self.held.len() + children)?;
        self.others.reserve(children)?;
        Ok(())
    }

    // Commits where there is room for all.
    fn commit_grown(
        &mut self,
        problem: &P,
        node: u32,
        seat: u32,
        counts: &Ids,
        branches: Branches<P::Node>,
    )
        requires tree { IsTree (P.branches problem.now) (P.seen problem.now) (P.is_own problem.now) self.old }
        requires holds { is_holding (state_of_tree (P.branches problem.now) (P.seen problem.now) (P.is_own problem.now) self.old) seat node ≡ true }
        requires own { AllOwn (P.is_own problem.now) branches }
        requires branches { Some (branches_seen (P.seen problem.now) branches) ≡ option_map (λ content. P.branches problem.now content.seen) (slice_get (state_of_tree (P.branches problem.now) (P.seen problem.now) (P.is_own problem.now) self.old).nodes node) }
        requires counts { counts.now ≡ widths branches.alternatives.items }
        requires room { HasRoomFor (length counts.now) (sum counts.now) self.old }
        ensures tree { IsTree (P.branches problem.now) (P.seen problem.now) (P.is_own problem.now) self.new }
        ensures journal { self.new.journal.events ≡ self.old.journal.events ++ commit seat node (widths branches.alternatives.items) ∷ [] }
        ensures root { self.new.root ≡ self.old.root }
        ensures budget { self.new.budget ≡ self.old.budget }
    {
        let _known = problem;
        let entry = held_entry(self.held.as_slice(), seat);
        let first = self.shape.len();
        self.shape.grow(node, counts);
        self.marks.settle(&self.shape, node);
        put_children(&mut self.queue, &self.shape, entry, first, &branches);
        drop_seat(&mut self.held, seat);
        move_nodes(&mut self.others, branches);
        self.journal.add_commit(seat, node, counts);
        self.commits += 1;
    }
}

impl<P: Problem> Tree<P> {
    /// Gives back the node that a seat holds, which then is open again. It takes no memory.
    pub fn release(&mut self, problem: &P, node: u32, seat: u32)
        requires tree { IsTree (P.branches problem.now) (P.seen problem.now) (P.is_own problem.now) self.old }
        requires holds { is_holding (state_of_tree (P.branches problem.now) (P.seen problem.now) (P.is_own problem.now) self.old) seat node ≡ true }
        ensures tree { IsTree (P.branches problem.now) (P.seen problem.now) (P.is_own problem.now) self.new }
        ensures journal { self.new.journal.events ≡ self.old.journal.events ++ release seat node ∷ [] }
        ensures root { self.new.root ≡ self.old.root }
        ensures budget { self.new.budget ≡ self.old.budget }
    {
        let _known = problem;
        let entry = held_entry(self.held.as_slice(), seat);
        drop_seat(&mut self.held, seat);
        self.queue.put(&self.shape, entry);
        self.journal.add_release(seat, node);
    }
}

impl<P: Problem> Tree<P> {
    /// What is known of the root.
    pub fn verdict(&self) -> Root
        requires marks { Settled self.now.shape.shape self.now.marks.marks }
        ensures { IsVerdict self.now.shape.shape result }
    {
        let _count = self.shape.len();
        if self.marks.proved(0) {
            Root::Proved
        } else if self.marks.stuck(0) {
            Root::Stuck
        } else {
            Root::Undecided
        }
    }

    /// The events of the tree, in order.
    pub fn journal(&self) -> &Journal
        ensures { result.now ≡ self.now.journal }
    {
        &self.journal
    }

    /// The events of the tree, in order, where nothing else of it is needed any more. It takes no memory.
    pub fn into_journal(self) -> Journal
        ensures { result ≡ self.journal }
    {
        self.journal
    }

    /// The node that a seat holds, and nothing where it holds none. It takes no memory.
    pub fn held(&self, seat: u32) -> Option<u32>
        ensures kept { result ≡ held_by self.now.held.items seat }
        ensures state { (problem : P) → IsTree (P.branches problem) (P.seen problem) (P.is_own problem) self.now
            → IsHeld (state_of_tree (P.branches problem) (P.seen problem) (P.is_own problem) self.now) seat result }
    {
        held_node(self.held.as_slice(), seat)
    }

    /// Whether a seat holds this node, and the node's content equals this own one. It takes no memory.
    pub fn holds(&self, problem: &P, node: u32, seat: u32, content: &P::Node) -> bool
        requires tree { IsTree (P.branches problem.now) (P.seen problem.now) (P.is_own problem.now) self.now }
        requires own { P.is_own problem.now content.now }
        ensures { IsTrue result
            ↔ HoldsSeen (state_of_tree (P.branches problem.now) (P.seen problem.now) (P.is_own problem.now) self.now) seat node (P.seen problem.now content.now) }
    {
        if !is_held(self.held.as_slice(), seat, node) {
            return false;
        }
        problem.same(node_at(&self.root, self.others.as_slice(), node), content)
    }

    /// The least alternative of a node that stands all of whose children are proved. There is one exactly where the node is proved. It
    /// takes no memory.
    pub fn chosen(&self, node: u32) -> Option<u32>
        requires stands { node < nodes_count self.now.shape.shape }
        requires marks { Settled self.now.shape.shape self.now.marks.marks }
        ensures least { IsLeastProved self.now.shape.shape node result }
        ensures proved { is_some result ≡ is_proved self.now.shape.shape node }
    {
        let Some(width) = self.shape.width(node) else {
            return None;
        };
        for alternative in 0..width {
            if self.marks.proves(&self.shape, node, alternative) {
                return Some(alternative);
            }
        }
        None
    }

    /// The number of the first child of an alternative that a committed node has, 0 where it has none, and how many children it has.
    pub fn children(&self, node: u32, alternative: u32) -> (u32, u32)
        requires { HasAlternative self.now.shape.shape node alternative }
        ensures { entry_at (alternatives_at self.now.shape.shape node) alternative ≡ Some result }
    {
        self.shape.children(node, alternative)
    }
}

// The node that a seat holds.
fn held_node(held: &[Holding], seat: u32) -> Option<u32>
    ensures { result ≡ held_by held.now seat }
{
    held.iter()
        .find(|holding| holding.seat == seat)
        .map(|holding| holding.entry.node)
}

// Whether a seat holds this node.
fn is_held(held: &[Holding], seat: u32, node: u32) -> bool
    ensures { result ≡ list_any (λ holding. holding.seat == seat && holding.entry.node == node) held.now }
{
    held.iter().any(|holding| holding.seat == seat && holding.entry.node == node)
}

// The entry of the node that a seat holds.
fn held_entry(held: &[Holding], seat: u32) -> Entry
    requires { list_any (λ holding. holding.seat == seat) held.now ≡ true }
    ensures { Contains held.now (record { seat = seat; entry = result }) }
{
    for holding in held {
        if holding.seat == seat {
            return holding.entry;
        }
    }
    unreachable!()
}

// Takes away what a seat holds.
fn drop_seat(held: &mut Vec<Holding>, seat: u32)
    ensures { held.new.items ≡ filter (λ holding. not (holding.seat == seat)) held.old.items }
{
    held.retain(|holding| holding.seat != seat);
}

// The content of a node.
fn node_at<'a, N>(root: &'a N, others: &'a [N], node: u32) -> &'a N
    requires { node < length others.now + 1 }
    ensures { Some result.now ≡ slice_get (root.now ∷ others.now) node }
{
    if node == 0 {
        root
    } else {
        &others[node as usize - 1]
    }
}

// Puts a holding first, where there is room for it.
fn put_holding(held: &mut Vec<Holding>, holding: Holding)
    requires { length held.old.items < vec_capacity held.old }
    ensures { held.new.items ≡ holding ∷ held.old.items }
{
    match held.insert(0, holding) {
        Ok(()) => {}
        Err(_) => unreachable!(),
    }
}
