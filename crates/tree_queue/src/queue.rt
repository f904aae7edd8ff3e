//! The queue.

ghost use Rattle.std.specs.Prelude.{◌≡◌, ◌+◌, ◌<◌, ◌≤◌, ◌∷◌, [], IfSome, IfNone, OnOk, Some, length, slice_get, true};
ghost use Rattle.std.specs.List.Sorted.{IsPermutation};
ghost use Rattle.tree_runs.specs.Shapes.{IsShape};
ghost use Rattle.tree_queue.specs.declared.entry.Entry.{Entry};
ghost use Rattle.tree_queue.specs.Orders.{IsPlaced};
ghost use Rattle.tree_runs.specs.Marks.{is_relevant};
ghost use Rattle.tree_marks.specs.TreeMarks.{Settled};
ghost use Rattle.tree_queue.specs.Queues.{IsQueueOf, IsBestOf, DropsIrrelevant};

use crate::entry::Entry;
use crate::heap::{pop_key, sift_up};
use basics::NoMemory;
use slab::Slab;
use std::alloc::Global;
use std::marker::Model;
use tree_marks::Marks;
use tree_shape::Shape;

/// Nodes with their priorities. A contract sees the list of its entries, in the order of a heap, and how many more fit
/// with no memory taken.
#[derive(Drop)]
pub struct Queue {
    keys: Vec<usize>,
    entries: Slab<Entry>,
    room: usize,
}

impl Model for Queue {
    ghost use Rattle.std.specs.Prelude.{◌-◌, length, vec_capacity};
    ghost use Rattle.tree_queue.specs.Queues.{Queued, entries_of, IsSound};

    ghost Value = { Queued };

    ghost view = { λ q. record { entries = entries_of q.keys.items q.entries; spare = q.room - length q.keys.items } };

    ghost invariant = { λ q. IsSound q.keys.items (vec_capacity q.keys) q.entries q.room };
}

impl Queue {
    /// A queue with no entries. It takes no memory.
    pub fn new(alloc: Global) -> Queue
        ensures { result.entries ≡ [] }
    {
        Queue {
            keys: Vec::new(alloc),
            entries: Slab::new(alloc),
            room: 0,
        }
    }

    /// Makes room for more entries. A refusal leaves the entries and the room as they were.
    pub fn reserve(&mut self, more: usize) -> Result<(), NoMemory>
        ensures entries { self.new.entries ≡ self.old.entries }
        ensures room { OnOk result (more ≤ self.new.spare) }
        ensures spare { self.old.spare ≤ self.new.spare }
    {
        self.keys.reserve(more)?;
        self.entries.reserve(more)?;
        if self.room - self.keys.len() < more {
            self.room = self.keys.len() + more;
        }
        Ok(())
    }

    /// Adds an entry. It takes no memory.
    pub fn put(&mut self, shape: &Shape, entry: Entry)
        requires room { 0 < self.old.spare }
        requires shape { IsShape shape.now.shape }
        requires entry { IsPlaced shape.now.shape entry }
        requires queue { IsQueueOf shape.now.shape self.old.entries }
        ensures queue { IsQueueOf shape.now.shape self.new.entries }
        ensures added { IsPermutation (entry ∷ self.old.entries) self.new.entries }
        ensures spare { self.new.spare + 1 ≡ self.old.spare }
    {
        let key = self.entries.insert_reserved(entry);
        let place = self.keys.len();
        self.keys.push_reserved(key);
        sift_up(&mut self.keys, &self.entries, shape, place);
    }

    /// The first entry.
    pub fn first(&self) -> Option<Entry>
        ensures { result ≡ slice_get self.now.entries 0 }
    {
        match self.keys.as_slice() {
            [] => None,
            [key, ..] => self.entries.get(*key).copied(),
        }
    }

    /// Takes the first entry away. It takes no memory.
    pub fn take(&mut self, shape: &Shape)
        requires some { 0 < length self.old.entries }
        requires shape { IsShape shape.now.shape }
        requires queue { IsQueueOf shape.now.shape self.old.entries }
        ensures queue { IsQueueOf shape.now.shape self.new.entries }
        ensures taken { (first : Entry) → slice_get self.old.entries 0 ≡ Some first → IsPermutation self.old.entries (first ∷ self.new.entries) }
        ensures spare { self.new.spare ≡ self.old.spare + 1 }
    {
        let key = pop_key(&mut self.keys, &self.entries, shape);
        let _gone = self.entries.try_remove(key);
    }
}

impl Queue {
    /// The best entry of a relevant node, which then is the first. Entries of nodes that aren't relevant are dropped on the
    /// way, and nothing is left where no entry is of a relevant node. It takes no memory.
    pub fn best(&mut self, shape: &Shape, marks: &Marks) -> Option<Entry>
        requires shape { IsShape shape.now.shape }
        requires queue { IsQueueOf shape.now.shape self.old.entries }
        requires marks { Settled shape.now.shape marks.now.marks }
        ensures queue { IsQueueOf shape.now.shape self.new.entries }
        ensures dropped { DropsIrrelevant shape.now.shape self.old.entries self.new.entries }
        ensures spare { self.old.spare ≤ self.new.spare }
        ensures none { IfNone result (self.new.entries ≡ []) }
        ensures first { result ≡ slice_get self.new.entries 0 }
        ensures relevant { IfSome result (λ entry. is_relevant shape.now.shape entry.node ≡ true) }
        ensures best { IfSome result (IsBestOf shape.now.shape self.new.entries) }
    {
        while let Some(entry) = self.first() {
            if marks.relevant(entry.node) {
                return Some(entry);
            }
            self.take(shape);
        }
        None
    }
}
