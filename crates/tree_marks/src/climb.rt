//! Marks move up.

ghost use Rattle.std.specs.Prelude.{◌≡◌, ◌↔◌, ℕ, ◌<◌, false, IsTrue, length, slice_set};
ghost use Rattle.tree_runs.specs.Shapes.{nodes_count, IsShape};
ghost use Rattle.tree_marks.specs.TreeMarks.{marked, KnowsProved, KnowsStuck, IsLocalAt};
ghost use Rattle.tree_marks.specs.Fading.{IsSpread};

use crate::known::{is_proved_above, is_stuck_above};
use crate::relevance::Relevance;
use crate::scans::{has_only_stuck_alternatives, has_proved_alternative};
use crate::spread::drop_around;
use tree_shape::Shape;

// Whether a node has these marks.
fn has_marks(proved: &[bool], stuck: &[bool], node: u32, is_proved: bool, is_stuck: bool) -> bool
    requires proved_size { node < length proved.now }
    requires stuck_size { node < length stuck.now }
    ensures { IsTrue result ↔ (marked proved.now node ≡ is_proved) × (marked stuck.now node ≡ is_stuck) }
{
    proved[node as usize] == is_proved && stuck[node as usize] == is_stuck
}

// Sets a node's flag.
fn put_flag(flags: &mut [bool], node: u32, flag: bool)
    requires { node < length flags.old }
    ensures { flags.new ≡ slice_set flags.old node flag }
{
    flags[node as usize] = flag;
}

// Marks a node whose children have their marks, and those above it as far as marks change, and what that makes irrelevant around them.
pub fn climb(
    proved: &mut [bool],
    stuck: &mut [bool],
    known: &mut [(u32, u32)],
    relevance: &mut Relevance,
    shape: &Shape,
    node: u32,
)
    requires shape { IsShape shape.now.shape }
    requires proved_size { length proved.old ≡ nodes_count shape.now.shape }
    requires stuck_size { length stuck.old ≡ nodes_count shape.now.shape }
    requires relevance_size { length relevance.old.fading.flags ≡ nodes_count shape.now.shape }
    requires stands { node < nodes_count shape.now.shape }
    requires others { (other : ℕ) → (other ≡ node → ⊥) → IsLocalAt shape.now.shape proved.old stuck.old other }
    requires known_size { length known.old ≡ nodes_count shape.now.shape }
    requires unproved { marked proved.old node ≡ false }
    requires unstuck { marked stuck.old node ≡ false }
    requires knows_proved { KnowsProved proved.old known.old }
    requires knows_stuck { (other : ℕ) → KnowsStuck shape.now.shape stuck.old known.old other }
    requires spread { IsSpread shape.now.shape proved.old stuck.old relevance.old.fading }
    ensures knows_proved { KnowsProved proved.new known.new }
    ensures knows_stuck { (other : ℕ) → KnowsStuck shape.now.shape stuck.new known.new other }
    ensures local { (other : ℕ) → IsLocalAt shape.now.shape proved.new stuck.new other }
    ensures spread { IsSpread shape.now.shape proved.new stuck.new relevance.new.fading }
    ensures relevance_size { length relevance.new.fading.flags ≡ length relevance.old.fading.flags }
    ensures spare { relevance.new.spare ≡ relevance.old.spare }
{
    let mut at = node;
    let mut is_proved = has_proved_alternative(proved, shape, node);
    let mut is_stuck = has_only_stuck_alternatives(stuck, shape, node);
    'up: loop {
        if has_marks(proved, stuck, at, is_proved, is_stuck) {
            return;
        }
        put_flag(proved, at, is_proved);
        put_flag(stuck, at, is_stuck);
        drop_around(proved, stuck, known, relevance, shape, at);
        match shape.above(at) {
            Some((parent, alternative, _)) => {
                let proved_above = is_proved_above(proved, known, shape, parent, alternative);
                let stuck_above = is_stuck_above(stuck, known, shape, at, parent, alternative);
                is_proved = proved_above;
                is_stuck = stuck_above;
                at = parent;
            }
            None => return,
        }
    }
}
