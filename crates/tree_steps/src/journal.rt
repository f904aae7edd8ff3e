//! Journals of events.

ghost use Rattle.std.specs.Prelude.{◌≡◌, ◌++◌, ℕ, ◌+◌, ◌<◌, ◌≤◌, List, [], ◌∷◌, Some, None, IfSome, IfNone, OnOk, length, slice_get, vec_capacity};
ghost use Rattle.tree_runs.specs.States.{TreeEvent, claim, commit, release};
ghost use Rattle.tree_steps.specs.Journals.{event_shown};

use basics::limits::LIST_LIMIT;
use basics::{Ids, NoMemory};
use std::alloc::Global;
use std::marker::Model;

/// An event as it is kept: the counts of a commit stand in a vector of all, from a place on.
#[derive(Clone, Copy)]
pub enum Row {
    Claim(u32, u32),
    Commit(u32, u32, u32, u32),
    Release(u32, u32),
}

/// An event: a seat and a node, and the numbers of children of a committed node's alternatives.
#[derive(Clone, Copy)]
pub enum Event<'a> {
    Claim(u32, u32),
    Commit(u32, u32, &'a [u32]),
    Release(u32, u32),
}

/// Events in their order. A contract sees the list of them, and how many more events and counts fit with no memory taken.
#[derive(Drop)]
pub struct Journal {
    rows: Vec<Row>,
    counts: Vec<u32>,
    spare: usize,
    spare_counts: usize,
}

impl Model for Journal {
    ghost use Rattle.std.specs.Prelude.{length, vec_capacity};
    ghost use Rattle.tree_steps.specs.Journals.{JournalRoom, events_of, HoldsRows};

    ghost Value = { JournalRoom };

    ghost view = { λ j. record { events = events_of j.rows.items j.counts.items; spare = j.spare; spare_counts = j.spare_counts } };

    ghost invariant = { λ j. HoldsRows j.rows.items j.counts.items (vec_capacity j.rows) (vec_capacity j.counts) j.spare j.spare_counts };
}

impl Journal {
    /// No events. It takes no memory.
    pub fn new(alloc: Global) -> Journal
        ensures { result.events ≡ [] }
    {
        Journal {
            rows: Vec::new(alloc),
            counts: Vec::new(alloc),
            spare: 0,
            spare_counts: 0,
        }
    }

    /// How many events there are.
    pub fn len(&self) -> usize
        ensures { result ≡ length self.now.events }
    {
        self.rows.len()
    }

    /// The event at a place. It takes no memory.
    pub fn event(&self, place: usize) -> Event<'_>
        requires { place < length self.now.events }
        ensures { Some (event_shown result) ≡ slice_get self.now.events place }
    {
        let row = self.rows[place];
        match row {
            Row::Claim(seat, node) => Event::Claim(seat, node),
            Row::Commit(seat, node, start, width) => {
                let from = start as usize;
                let to = from + width as usize;
                Event::Commit(seat, node, &self.counts[from..to])
            }
            Row::Release(seat, node) => Event::Release(seat, node),
        }
    }

    /// Makes room for more events and more counts. A refusal changes nothing but the room, which never falls.
    pub fn reserve(&mut self, events: usize, counts: usize) -> Result<(), NoMemory>
        ensures same { self.new.events ≡ self.old.events }
        ensures spare { self.old.spare ≤ self.new.spare }
        ensures spare_counts { self.old.spare_counts ≤ self.new.spare_counts }
        ensures ok { OnOk result (events ≤ self.new.spare) }
        ensures ok_counts { OnOk result (counts ≤ self.new.spare_counts) }
    {
        if events > self.spare {
            self.rows.reserve(events)?;
            self.spare = events;
        }
        if counts > self.spare_counts {
            if self.counts.len() > LIST_LIMIT as usize
                || counts > LIST_LIMIT as usize - self.counts.len()
            {
                return Err(NoMemory);
            }
            self.counts.reserve(counts)?;
            self.spare_counts = counts;
        }
        Ok(())
    }

    /// Adds a claim.
    pub fn add_claim(&mut self, seat: u32, node: u32)
        requires { 0 < self.old.spare }
        ensures events { self.new.events ≡ self.old.events ++ claim seat node ∷ [] }
        ensures spare { self.new.spare + 1 ≡ self.old.spare }
        ensures spare_counts { self.new.spare_counts ≡ self.old.spare_counts }
    {
        self.rows.push_reserved(Row::Claim(seat, node));
        self.spare -= 1;
    }

    /// Adds a release.
    pub fn add_release(&mut self, seat: u32, node: u32)
        requires { 0 < self.old.spare }
        ensures events { self.new.events ≡ self.old.events ++ release seat node ∷ [] }
        ensures spare { self.new.spare + 1 ≡ self.old.spare }
        ensures spare_counts { self.new.spare_counts ≡ self.old.spare_counts }
    {
        self.rows.push_reserved(Row::Release(seat, node));
        self.spare -= 1;
    }

    /// Adds a commit.
    pub fn add_commit(&mut self, seat: u32, node: u32, counts: &Ids)
        requires room { 0 < self.old.spare }
        requires counts { length counts.now ≤ self.old.spare_counts }
        ensures events { self.new.events ≡ self.old.events ++ commit seat node counts.now ∷ [] }
        ensures spare { self.new.spare + 1 ≡ self.old.spare }
        ensures spare_counts { self.new.spare_counts + length counts.now ≡ self.old.spare_counts }
    {
        let start = self.counts.len() as u32;
        let counts = counts.as_slice();
        append_reserved(&mut self.counts, counts);
        self.rows
            .push_reserved(Row::Commit(seat, node, start, counts.len() as u32));
        self.spare -= 1;
        self.spare_counts -= counts.len();
    }
}

// Adds numbers at the end of a vector that has room for them.
fn append_reserved(items: &mut Vec<u32>, more: &[u32])
    requires { length items.old.items + length more.now ≤ vec_capacity items.old }
    ensures items { items.new.items ≡ items.old.items ++ more.now }
    ensures capacity { vec_capacity items.new ≡ vec_capacity items.old }
{
    for number in more {
        items.push_reserved(*number);
    }
}
