//! Marks.

ghost use Rattle.std.specs.Prelude.{◌≡◌, ◌+◌, ◌-◌, ◌<◌, ◌≤◌, ◌++◌, [], length, replicate, vec_capacity, IfOk, OnOk};
ghost use Rattle.tree_runs.specs.Shapes.{root_shape, nodes_count};
ghost use Rattle.tree_shape.specs.Room.{HasAlternative};
ghost use Rattle.tree_marks.specs.TreeMarks.{marked, unmarked, Settled, JustGrown, Begins, KnowsOthers, is_alternative_proved};

use crate::climb::climb;
use crate::known::begin_passing;
use crate::relevance::Relevance;
use crate::scans::are_all_proved;
use crate::spread::{drop_new, work_off};
use basics::NoMemory;
use basics::limits::LIST_LIMIT;
use std::alloc::Global;
use std::marker::Model;
use tree_shape::Shape;

/// For each node whether it is proved, stuck and relevant, and what is known below it. A contract sees these and for how many more nodes
/// there is room.
#[derive(Drop)]
pub struct Marks {
    proved: Vec<bool>,
    stuck: Vec<bool>,
    relevance: Relevance,
    known: Vec<(u32, u32)>,
    spare: usize,
}

impl Model for Marks {
    ghost use Rattle.std.specs.Prelude.{◌≡◌, ◌≤◌, [], length, vec_capacity};
    ghost use Rattle.tree_shape.specs.Room.{HasRoom};
    ghost use Rattle.tree_marks.specs.TreeMarks.{MarksRoom};

    ghost Value = { MarksRoom };

    ghost view = { λ m. record {
      marks = record { proved = m.proved.items; stuck = m.stuck.items; relevant = m.relevance.fading.flags; known = m.known.items };
      spare = m.spare;
    } };

    ghost invariant = { λ m. HasRoom (length m.proved.items) (vec_capacity m.proved) m.spare
        × HasRoom (length m.stuck.items) (vec_capacity m.stuck) m.spare
        × HasRoom (length m.known.items) (vec_capacity m.known) m.spare
        × (m.spare ≤ m.relevance.spare)
        × (m.relevance.fading.pending ≡ []) };
}

// Puts flags last until there are this many, where there is room for them.
pub fn extend(flags: &mut Vec<bool>, len: usize, flag: bool)
    requires longer { length flags.old.items ≤ len }
    requires room { len ≤ vec_capacity flags.old }
    ensures items { flags.new.items ≡ flags.old.items ++ replicate (len - length flags.old.items) flag }
    ensures capacity { vec_capacity flags.old ≤ vec_capacity flags.new }
{
    let more = len - flags.len();
    for place in 0..more {
        match flags.push(flag) {
            Ok(()) => {}
            Err(_) => unreachable!(),
        }
    }
}

// Puts nodes last of which nothing is known, as `extend` does.
fn extend_known(known: &mut Vec<(u32, u32)>, len: usize)
    requires longer { length known.old.items ≤ len }
    requires room { len ≤ vec_capacity known.old }
    ensures items { known.new.items ≡ known.old.items ++ replicate (len - length known.old.items) (0, 0) }
    ensures capacity { vec_capacity known.old ≤ vec_capacity known.new }
{
    let more = len - known.len();
    for place in 0..more {
        match known.push((0, 0)) {
            Ok(()) => {}
            Err(_) => unreachable!(),
        }
    }
}

// Marks what a node decides above it, and what that makes irrelevant.
fn spread(
    proved: &mut [bool],
    stuck: &mut [bool],
    known: &mut [(u32, u32)],
    relevance: &mut Relevance,
    shape: &Shape,
    node: u32,
)
    requires begins { Begins shape.now.shape proved.old stuck.old relevance.old.fading.flags node }
    requires proved_size { length proved.old ≡ nodes_count shape.now.shape }
    requires stuck_size { length stuck.old ≡ nodes_count shape.now.shape }
    requires relevance_size { length relevance.old.fading.flags ≡ nodes_count shape.now.shape }
    requires idle { relevance.old.fading.pending ≡ [] }
    requires stands { node < nodes_count shape.now.shape }
    requires known_size { length known.old ≡ nodes_count shape.now.shape }
    requires knows { KnowsOthers shape.now.shape proved.old stuck.old known.old node }
    ensures settled { Settled shape.now.shape (record { proved = proved.new; stuck = stuck.new; relevant = relevance.new.fading.flags; known = known.new }) }
    ensures idle { relevance.new.fading.pending ≡ [] }
    ensures spare { relevance.new.spare ≡ relevance.old.spare }
{
    begin_passing(stuck, known, shape, node);
    drop_new(relevance, shape, node);
    climb(proved, stuck, known, relevance, shape, node);
    work_off(relevance, shape);
}

impl Marks {
    /// The root alone, undecided. It is refused when out of memory.
    pub fn new(alloc: Global) -> Result<Marks, NoMemory>
        ensures { IfOk result (λ made. Settled root_shape made.marks) }
    {
        let mut proved = Vec::new(alloc);
        proved.push(false)?;
        let mut stuck = Vec::new(alloc);
        stuck.push(false)?;
        let relevance = Relevance::new(alloc)?;
        let mut known = Vec::new(alloc);
        known.push((0, 0))?;
        Ok(Marks {
            proved,
            stuck,
            relevance,
            known,
            spare: 0,
        })
    }

    /// Makes room for this many nodes, so that settling takes no memory. A refusal changes nothing.
    pub fn reserve(&mut self, n: usize) -> Result<(), NoMemory>
        ensures marks { self.new.marks ≡ self.old.marks }
        ensures more { self.old.spare ≤ self.new.spare }
        ensures ok { OnOk result (n ≤ self.new.spare) }
    {
        if n <= self.spare {
            return Ok(());
        }
        let most = LIST_LIMIT as usize;
        if n > most - self.proved.len()
            || n > most - self.stuck.len()
            || n > most - self.known.len()
        {
            return Err(NoMemory);
        }
        self.proved.reserve(n)?;
        self.stuck.reserve(n)?;
        self.relevance.reserve(n)?;
        self.known.reserve(n)?;
        self.spare = n;
        Ok(())
    }

    /// Makes the marks right again after alternatives were grown below a node. There is room for their children. It takes no memory. Over
    /// all calls each node is marked irrelevant once.
    pub fn settle(&mut self, shape: &Shape, node: u32)
        requires grown { JustGrown shape.now.shape node self.old.marks }
        requires room { nodes_count shape.now.shape ≤ length self.old.marks.proved + self.old.spare }
        ensures settled { Settled shape.now.shape self.new.marks }
        ensures spare { nodes_count shape.now.shape + self.new.spare
            ≡ length self.old.marks.proved + self.old.spare }
    {
        let len = shape.len() as usize;
        self.spare -= len - self.proved.len();
        extend(&mut self.proved, len, false);
        extend(&mut self.stuck, len, false);
        extend_known(&mut self.known, len);
        self.relevance.grow_to(len);
        spread(
            &mut self.proved,
            &mut self.stuck,
            &mut self.known,
            &mut self.relevance,
            shape,
            node,
        );
    }

    /// Whether a node that stands is proved.
    pub fn proved(&self, node: u32) -> bool
        requires { node < length self.now.marks.proved }
        ensures { result ≡ marked self.now.marks.proved node }
    {
        self.proved[node as usize]
    }

    /// Whether a node that stands is stuck.
    pub fn stuck(&self, node: u32) -> bool
        requires { node < length self.now.marks.stuck }
        ensures { result ≡ marked self.now.marks.stuck node }
    {
        self.stuck[node as usize]
    }

    /// Whether all children of an alternative that a node has are proved. It takes no memory.
    pub fn proves(&self, shape: &Shape, node: u32, alternative: u32) -> bool
        requires has { HasAlternative shape.now.shape node alternative }
        requires marks { Settled shape.now.shape self.now.marks }
        ensures { result ≡ is_alternative_proved shape.now.shape node alternative }
    {
        let (first, count) = shape.children(node, alternative);
        are_all_proved(self.proved.as_slice(), first, count)
    }

    /// Whether a node that stands is relevant.
    pub fn relevant(&self, node: u32) -> bool
        requires { node < length self.now.marks.relevant }
        ensures { result ≡ unmarked self.now.marks.relevant node }
    {
        self.relevance.is_up(node)
    }
}
