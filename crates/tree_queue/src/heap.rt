//! A binary heap of keys of a slab. Each key stands for its entry.

ghost use Rattle.std.specs.Prelude.{◌≡◌, ◌↔◌, ◌⊎◌, ℕ, ◌+◌, ◌-◌, ◌*◌, ◌<◌, ◌≤◌, ◌∷◌, [], All, IsTrue, IfSome, IfNone, length, slice_index_or, slice_get, false};
ghost use Rattle.std.specs.Vec.{vec_len, vec_capacity};
ghost use Rattle.std.specs.List.Sorted.{IsPermutation};
ghost use Rattle.tree_runs.specs.Shapes.{IsShape};
ghost use Rattle.tree_queue.specs.Orders.{is_key_ahead, entry_cmp, IsPlaced, IsKnown};
ghost use Rattle.tree_queue.specs.Heaps.{parent, IsHeap, IsHeapButUp, IsHeapAround};

use crate::addresses::compare_addresses;
use crate::entry::Entry;
use slab::Slab;
use std::cmp::Ordering;
use tree_shape::Shape;

/// How two entries stand to one another, the better one first.
fn compare_entries(shape: &Shape, x: &Entry, y: &Entry) -> Ordering
    requires shape { IsShape shape.now.shape }
    requires first { IsPlaced shape.now.shape x.now }
    requires second { IsPlaced shape.now.shape y.now }
    ensures { result ≡ entry_cmp shape.now.shape x.now y.now }
{
    match y.priority.cmp(&x.priority) {
        Ordering::Less => Ordering::Less,
        Ordering::Greater => Ordering::Greater,
        Ordering::Equal => match x.depth.cmp(&y.depth) {
            Ordering::Less => Ordering::Less,
            Ordering::Greater => Ordering::Greater,
            Ordering::Equal => compare_addresses(shape, x.node, y.node),
        },
    }
}

/// Whether the entry at a key is better than the one at another.
fn is_ahead(entries: &Slab<Entry>, shape: &Shape, a: usize, b: usize) -> bool
    requires shape { IsShape shape.now.shape }
    requires first { IsKnown shape.now.shape entries.now a }
    requires second { IsKnown shape.now.shape entries.now b }
    ensures { result ≡ is_key_ahead shape.now.shape entries.now a b }
{
    match (entries.get(a), entries.get(b)) {
        (Some(x), Some(y)) => compare_entries(shape, x, y).is_lt(),
        _ => false,
    }
}

/// Moves the key at a place up until none above it is worse.
pub(crate) fn sift_up(keys: &mut Vec<usize>, entries: &Slab<Entry>, shape: &Shape, from: usize)
    requires within { from < vec_len keys.old }
    requires shape { IsShape shape.now.shape }
    requires known { All (IsKnown shape.now.shape entries.now) keys.old.items }
    requires heap { IsHeapButUp (is_key_ahead shape.now.shape entries.now) keys.old.items from }
    ensures heap { IsHeap (is_key_ahead shape.now.shape entries.now) keys.new.items }
    ensures same { IsPermutation keys.old.items keys.new.items }
    ensures capacity { vec_capacity keys.new ≡ vec_capacity keys.old }
{
    let mut hole = from;
    while hole > 0 {
        let above = (hole - 1) / 2;
        if !is_ahead(entries, shape, keys[hole], keys[above]) {
            return;
        }
        keys.swap(hole, above);
        hole = above;
    }
}

/// Of the two places below one, from the left one on, the better one.
fn better_below(keys: &[usize], entries: &Slab<Entry>, shape: &Shape, left: usize) -> usize
    requires within { left < length keys.now }
    requires shape { IsShape shape.now.shape }
    requires known { All (IsKnown shape.now.shape entries.now) keys.now }
    ensures within { result < length keys.now }
    ensures child { (left ≤ result) × (result ≤ left + 1) }
    ensures best { (s : ℕ) (d : ℕ) → left ≤ s → s ≤ left + 1 → s < length keys.now → is_key_ahead shape.now.shape entries.now (slice_index_or keys.now s d) (slice_index_or keys.now result d) ≡ false }
{
    let right = left + 1;
    if right < keys.len() && is_ahead(entries, shape, keys[right], keys[left]) {
        right
    } else {
        left
    }
}

/// Moves the first key down to a place with none below it, the better one of those below going up each time, and answers that place.
fn sink_first(keys: &mut Vec<usize>, entries: &Slab<Entry>, shape: &Shape) -> usize
    requires some { 0 < vec_len keys.old }
    requires shape { IsShape shape.now.shape }
    requires known { All (IsKnown shape.now.shape entries.now) keys.old.items }
    requires heap { IsHeapAround (is_key_ahead shape.now.shape entries.now) keys.old.items 0 }
    ensures within { result < vec_len keys.new }
    ensures heap { IsHeapButUp (is_key_ahead shape.now.shape entries.now) keys.new.items result }
    ensures known { All (IsKnown shape.now.shape entries.now) keys.new.items }
    ensures same { IsPermutation keys.old.items keys.new.items }
    ensures capacity { vec_capacity keys.new ≡ vec_capacity keys.old }
{
    let half = keys.len() / 2;
    let mut hole = 0;
    while hole < half {
        let below = better_below(keys.as_slice(), entries, shape, 2 * hole + 1);
        keys.swap(hole, below);
        hole = below;
    }
    hole
}

/// Puts the first key at its place. It sinks to the bottom and rises from there: a key that comes from the end mostly belongs near it, and
/// so half the comparisons are made of a way down that tests at each place whether to stop.
fn settle_first(keys: &mut Vec<usize>, entries: &Slab<Entry>, shape: &Shape)
    requires shape { IsShape shape.now.shape }
    requires known { All (IsKnown shape.now.shape entries.now) keys.old.items }
    requires heap { IsHeapAround (is_key_ahead shape.now.shape entries.now) keys.old.items 0 }
    ensures heap { IsHeap (is_key_ahead shape.now.shape entries.now) keys.new.items }
    ensures same { IsPermutation keys.old.items keys.new.items }
    ensures capacity { vec_capacity keys.new ≡ vec_capacity keys.old }
{
    if keys.len() == 0 {
        return;
    }
    let hole = sink_first(keys, entries, shape);
    sift_up(keys, entries, shape, hole);
}

/// Takes the first key out, none of the others being better.
pub(crate) fn pop_key(keys: &mut Vec<usize>, entries: &Slab<Entry>, shape: &Shape) -> usize
    requires some { 0 < vec_len keys.old }
    requires shape { IsShape shape.now.shape }
    requires known { All (IsKnown shape.now.shape entries.now) keys.old.items }
    requires heap { IsHeap (is_key_ahead shape.now.shape entries.now) keys.old.items }
    ensures first { result ≡ slice_index_or keys.old.items 0 result }
    ensures popped { IsPermutation keys.old.items (result ∷ keys.new.items) }
    ensures heap { IsHeap (is_key_ahead shape.now.shape entries.now) keys.new.items }
    ensures capacity { vec_capacity keys.new ≡ vec_capacity keys.old }
{
    let key = keys.swap_remove(0);
    settle_first(keys, entries, shape);
    key
}
