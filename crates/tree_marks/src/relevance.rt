//! Which nodes are relevant.

ghost use Rattle.std.specs.Prelude.{◌≡◌, ℕ, ◌+◌, ◌-◌, ◌<◌, ◌≤◌, ◌++◌, [], ◌∷◌, true, false, length, replicate, vec_capacity, IfOk, IfSome, IfNone, OnOk};
ghost use Rattle.tree_marks.specs.TreeMarks.{unmarked};
ghost use Rattle.tree_marks.specs.Fading.{ups, Fades};

use crate::marks::extend;
use basics::NoMemory;
use basics::limits::LIST_LIMIT;
use std::alloc::Global;
use std::marker::Model;

/// For each node whether it is relevant, and the irrelevant nodes whose children are to be marked. A contract sees these and for how many
/// more nodes there is room.
#[derive(Drop)]
pub struct Relevance {
    flags: Vec<bool>,
    pending: Vec<u32>,
    spare: usize,
}

impl Model for Relevance {
    ghost use Rattle.std.specs.Prelude.{vec_capacity};
    ghost use Rattle.tree_marks.specs.Fading.{FadingRoom, HoldsFading};

    ghost Value = { FadingRoom };

    ghost view = { λ r. record { fading = record { flags = r.flags.items; pending = r.pending.items }; spare = r.spare } };

    ghost invariant = { λ r. HoldsFading r.flags.items (vec_capacity r.flags) r.pending.items (vec_capacity r.pending) r.spare };
}

impl Relevance {
    /// The root alone, which is relevant. It is refused when out of memory.
    pub fn new(alloc: Global) -> Result<Relevance, NoMemory>
        ensures flags { IfOk result (λ made. made.fading.flags ≡ true ∷ []) }
        ensures pending { IfOk result (λ made. made.fading.pending ≡ []) }
    {
        let mut flags = Vec::new(alloc);
        flags.push(true)?;
        let mut pending = Vec::new(alloc);
        pending.reserve(1)?;
        Ok(Relevance {
            flags,
            pending,
            spare: 0,
        })
    }

    /// Makes room for this many nodes, so that nothing else takes memory. A refusal changes nothing.
    pub fn reserve(&mut self, n: usize) -> Result<(), NoMemory>
        ensures same { self.new.fading ≡ self.old.fading }
        ensures more { self.old.spare ≤ self.new.spare }
        ensures ok { OnOk result (n ≤ self.new.spare) }
    {
        if n <= self.spare {
            return Ok(());
        }
        if n > LIST_LIMIT as usize - self.flags.len() {
            return Err(NoMemory);
        }
        self.flags.reserve(n)?;
        self.pending.reserve(self.flags.len() + n)?;
        self.spare = n;
        Ok(())
    }

    /// Adds relevant nodes until there are this many.
    pub fn grow_to(&mut self, len: usize)
        requires longer { length self.old.fading.flags ≤ len }
        requires room { len ≤ length self.old.fading.flags + self.old.spare }
        ensures flags { self.new.fading.flags ≡ self.old.fading.flags ++ replicate (len - length self.old.fading.flags) true }
        ensures pending { self.new.fading.pending ≡ self.old.fading.pending }
        ensures spare { len + self.new.spare ≡ length self.old.fading.flags + self.old.spare }
    {
        self.spare -= len - self.flags.len();
        extend(&mut self.flags, len, true);
    }

    /// Whether a node is relevant.
    pub fn is_up(&self, node: u32) -> bool
        requires { node < length self.now.fading.flags }
        ensures { result ≡ unmarked self.now.fading.flags node }
    {
        self.flags[node as usize]
    }

    /// Marks nodes irrelevant, from one on, this many.
    pub fn drop_range(&mut self, first: u32, count: u32)
        requires { first + count ≤ length self.old.fading.flags }
        ensures fades { Fades self.old.fading self.new.fading (λ node. (first ≤ node) × (node < first + count)) }
        ensures inside { (node : ℕ) → first ≤ node → node < first + count → unmarked self.new.fading.flags node ≡ false }
        ensures spare { self.new.spare ≡ self.old.spare }
    {
        fade_range(&mut self.flags, &mut self.pending, first, count);
    }

    /// Takes a pending node out, if there is one.
    pub fn take_pending(&mut self) -> Option<u32>
        ensures flags { self.new.fading.flags ≡ self.old.fading.flags }
        ensures some { IfSome result (λ node. self.old.fading.pending ≡ self.new.fading.pending ++ node ∷ []) }
        ensures none { IfNone result (self.new.fading ≡ self.old.fading) }
        ensures empty { IfNone result (self.new.fading.pending ≡ []) }
        ensures spare { self.new.spare ≡ self.old.spare }
    {
        self.pending.pop()
    }
}

// Marks a node irrelevant and pending, if it isn't irrelevant already.
fn fade(flags: &mut Vec<bool>, pending: &mut Vec<u32>, node: u32)
    requires within { node < length flags.old.items }
    requires room { ups flags.old.items + length pending.old.items ≤ vec_capacity pending.old }
    ensures fades { Fades (record { flags = flags.old.items; pending = pending.old.items }) (record { flags = flags.new.items; pending = pending.new.items }) (λ other. other ≡ node) }
    ensures down { unmarked flags.new.items node ≡ false }
    ensures flags_capacity { vec_capacity flags.new ≡ vec_capacity flags.old }
    ensures pending_capacity { vec_capacity pending.new ≡ vec_capacity pending.old }
{
    if !flags[node as usize] {
        return;
    }
    flags[node as usize] = false;
    pending.push_reserved(node);
}

// Does so with nodes from one on, this many.
fn fade_range(flags: &mut Vec<bool>, pending: &mut Vec<u32>, first: u32, count: u32)
    requires within { first + count ≤ length flags.old.items }
    requires numbers { length flags.old.items ≤ 2147483648 }
    requires room { ups flags.old.items + length pending.old.items ≤ vec_capacity pending.old }
    ensures fades { Fades (record { flags = flags.old.items; pending = pending.old.items }) (record { flags = flags.new.items; pending = pending.new.items })
        (λ node. (first ≤ node) × (node < first + count)) }
    ensures inside { (node : ℕ) → first ≤ node → node < first + count → unmarked flags.new.items node ≡ false }
    ensures flags_capacity { vec_capacity flags.new ≡ vec_capacity flags.old }
    ensures pending_capacity { vec_capacity pending.new ≡ vec_capacity pending.old }
{
    for place in 0..count {
        fade(flags, pending, first + place);
    }
}
