//! Irrelevance spreads.

ghost use Rattle.std.specs.Prelude.{◌≡◌, ℕ, ◌+◌, ◌<◌, ◌≤◌, List, Bool, [], true, false, ◌||◌, length};
ghost use Rattle.tree_runs.specs.Shapes.{nodes_count, IsShape};
ghost use Rattle.tree_runs.specs.Marks.{all_from};
ghost use Rattle.tree_marks.specs.TreeMarks.{marked, unmarked, KnowsProved, Begins};
ghost use Rattle.tree_marks.specs.Fading.{is_pending, Fades, FadesBeside, HangsBelow, IsSpread, DecidesOne};

use crate::known::{proved_run, run_at};
use crate::relevance::Relevance;
use tree_shape::Shape;

// Marks the children of a node irrelevant.
fn drop_below(relevance: &mut Relevance, shape: &Shape, node: u32)
    requires shape { IsShape shape.now.shape }
    requires size { length relevance.old.fading.flags ≡ nodes_count shape.now.shape }
    requires stands { node < nodes_count shape.now.shape }
    ensures fades { Fades relevance.old.fading relevance.new.fading (HangsBelow shape.now.shape node) }
    ensures below { (child : ℕ) → HangsBelow shape.now.shape node child → unmarked relevance.new.fading.flags child ≡ false }
    ensures spare { relevance.new.spare ≡ relevance.old.spare }
{
    let Some(width) = shape.width(node) else {
        return;
    };
    for alternative in 0..width {
        let (first, count) = shape.children(node, alternative);
        relevance.drop_range(first, count);
    }
}

// Whether a node is stuck, or all of these children are proved. Of the children it reads only those that aren't known to be.
fn decides(
    proved: &[bool],
    stuck: &[bool],
    known: &[(u32, u32)],
    node: u32,
    first: u32,
    count: u32,
) -> bool
    requires stand { first + count ≤ length proved.now }
    requires node { node < length stuck.now }
    requires first { first < length known.now }
    requires knows { KnowsProved proved.now known.now }
    ensures { result ≡ (marked stuck.now node || all_from (marked proved.now) first count) }
{
    if stuck[node as usize] {
        return true;
    }
    let before = run_at(known, first);
    let run = proved_run(proved, first, count, before);
    if run < count {
        return false;
    }
    true
}

// Marks the children of a node's alternative irrelevant, where it is decided since that relevant node is.
fn drop_beside(
    proved: &[bool],
    stuck: &[bool],
    known: &[(u32, u32)],
    relevance: &mut Relevance,
    shape: &Shape,
    node: u32,
)
    requires shape { IsShape shape.now.shape }
    requires proved_size { length proved.now ≡ nodes_count shape.now.shape }
    requires stuck_size { length stuck.now ≡ nodes_count shape.now.shape }
    requires known_size { length known.now ≡ nodes_count shape.now.shape }
    requires size { length relevance.old.fading.flags ≡ nodes_count shape.now.shape }
    requires stands { node < nodes_count shape.now.shape }
    requires knows { KnowsProved proved.now known.now }
    ensures beside { FadesBeside shape.now.shape proved.now stuck.now node relevance.old.fading relevance.new.fading }
    ensures spare { relevance.new.spare ≡ relevance.old.spare }
{
    let Some((parent, alternative, _)) = shape.above(node) else {
        return;
    };
    if !relevance.is_up(node) {
        return;
    }
    let (first, count) = shape.children(parent, alternative);
    if decides(proved, stuck, known, node, first, count) {
        relevance.drop_range(first, count);
    }
}

// Marks irrelevant what a node makes so that was just marked proved or stuck: its children, and the nodes beside it where their
// alternative is decided.
pub fn drop_around(
    proved: &[bool],
    stuck: &[bool],
    known: &[(u32, u32)],
    relevance: &mut Relevance,
    shape: &Shape,
    node: u32,
)
    requires shape { IsShape shape.now.shape }
    requires proved_size { length proved.now ≡ nodes_count shape.now.shape }
    requires stuck_size { length stuck.now ≡ nodes_count shape.now.shape }
    requires known_size { length known.now ≡ nodes_count shape.now.shape }
    requires size { length relevance.old.fading.flags ≡ nodes_count shape.now.shape }
    requires stands { node < nodes_count shape.now.shape }
    requires knows { KnowsProved proved.now known.now }
    ensures spread { (old_proved old_stuck : List Bool) → DecidesOne old_proved old_stuck proved.now stuck.now node
        → IsSpread shape.now.shape old_proved old_stuck relevance.old.fading
        → IsSpread shape.now.shape proved.now stuck.now relevance.new.fading }
    ensures size { length relevance.new.fading.flags ≡ length relevance.old.fading.flags }
    ensures spare { relevance.new.spare ≡ relevance.old.spare }
{
    drop_below(relevance, shape, node);
    drop_beside(proved, stuck, known, relevance, shape, node);
}

// Marks the children irrelevant that were just grown below a node, where that is irrelevant.
pub fn drop_new(relevance: &mut Relevance, shape: &Shape, node: u32)
    requires shape { IsShape shape.now.shape }
    requires size { length relevance.old.fading.flags ≡ nodes_count shape.now.shape }
    requires stands { node < nodes_count shape.now.shape }
    requires idle { relevance.old.fading.pending ≡ [] }
    ensures spread { (proved stuck : List Bool) → Begins shape.now.shape proved stuck relevance.old.fading.flags node
        → marked proved node ≡ false → marked stuck node ≡ false
        → IsSpread shape.now.shape proved stuck relevance.new.fading }
    ensures size { length relevance.new.fading.flags ≡ length relevance.old.fading.flags }
    ensures spare { relevance.new.spare ≡ relevance.old.spare }
{
    if relevance.is_up(node) {
        return;
    }
    drop_below(relevance, shape, node);
}

// Marks irrelevant what hangs below pending nodes, until none is pending.
pub fn work_off(relevance: &mut Relevance, shape: &Shape)
    requires shape { IsShape shape.now.shape }
    requires size { length relevance.old.fading.flags ≡ nodes_count shape.now.shape }
    requires waiting { (node : ℕ) → is_pending relevance.old.fading.pending node ≡ true
        → unmarked relevance.old.fading.flags node ≡ false }
    ensures spread { (proved stuck : List Bool) → IsSpread shape.now.shape proved stuck relevance.old.fading
        → IsSpread shape.now.shape proved stuck relevance.new.fading }
    ensures idle { relevance.new.fading.pending ≡ [] }
    ensures size { length relevance.new.fading.flags ≡ length relevance.old.fading.flags }
    ensures spare { relevance.new.spare ≡ relevance.old.spare }
{
    while let Some(node) = relevance.take_pending() {
        drop_below(relevance, shape, node);
    }
}
