//! What is known of children and alternatives, so that none is read twice.

ghost use Rattle.std.specs.Prelude.{◌≡◌, ℕ, ◌+◌, ◌<◌, ◌≤◌, List, Bool, true, false, Some, length, get_or};
ghost use Rattle.tree_runs.specs.Shapes.{nodes_count, alternatives_at, IsShape};
ghost use Rattle.tree_runs.specs.Marks.{all_from, all_children, some_child, proved_by, stuck_by, entry_at};
ghost use Rattle.tree_shape.specs.Room.{HasAlternative};
ghost use Rattle.tree_marks.specs.TreeMarks.{marked, run_of, passed_of, EachEntry, NoneStuck, KnowsProved, KnowsStuck};

use crate::scans::is_some_stuck;
use tree_shape::Shape;

// Keeps how many nodes from one on are proved.
fn put_run(known: &mut [(u32, u32)], node: u32, run: u32)
    requires { node < length known.old }
    ensures run { run_of known.new node ≡ run }
    ensures others { (other : ℕ) → (other ≡ node → ⊥) → run_of known.new other ≡ run_of known.old other }
    ensures passed { (other : ℕ) → passed_of known.new other ≡ passed_of known.old other }
{
    let (_, passed) = known[node as usize];
    known[node as usize] = (run, passed);
}

// Keeps how many alternatives of a node have a stuck child.
fn put_passed(known: &mut [(u32, u32)], node: u32, passed: u32)
    requires { node < length known.old }
    ensures passed { passed_of known.new node ≡ passed }
    ensures others { (other : ℕ) → (other ≡ node → ⊥) → passed_of known.new other ≡ passed_of known.old other }
    ensures run { (other : ℕ) → run_of known.new other ≡ run_of known.old other }
{
    let (run, _) = known[node as usize];
    known[node as usize] = (run, passed);
}

// How many nodes from one on are known to be proved.
pub fn run_at(known: &[(u32, u32)], node: u32) -> u32
    requires { node < length known.now }
    ensures { result ≡ run_of known.now node }
{
    let (run, _) = known[node as usize];
    run
}

// How many alternatives of a node are known to have a stuck child.
fn passed_at(known: &[(u32, u32)], node: u32) -> u32
    requires { node < length known.now }
    ensures { result ≡ passed_of known.now node }
{
    let (_, passed) = known[node as usize];
    passed
}

// How many of these children are proved before the first that isn't, where this many are known to be.
pub fn proved_run(proved: &[bool], first: u32, count: u32, known: u32) -> u32
    requires stand { first + count ≤ length proved.now }
    requires known { all_from (marked proved.now) first known ≡ true }
    ensures run { all_from (marked proved.now) first result ≡ true }
    ensures ends { result < count → all_from (marked proved.now) first count ≡ false }
{
    if count <= known {
        return known;
    }
    for place in known..count {
        if !proved[first as usize + place as usize] {
            return place;
        }
    }
    count
}

// Whether all of these children are proved. It reads only those that aren't known to be.
fn are_proved(proved: &[bool], known: &mut [(u32, u32)], first: u32, count: u32) -> bool
    requires stand { first + count ≤ length proved.now }
    requires within { first < length known.old }
    requires knows { KnowsProved proved.now known.old }
    ensures all { result ≡ all_from (marked proved.now) first count }
    ensures knows { KnowsProved proved.now known.new }
    ensures passed { (node : ℕ) → passed_of known.new node ≡ passed_of known.old node }
{
    let before = run_at(known, first);
    let run = proved_run(proved, first, count, before);
    put_run(known, first, run);
    if run < count {
        return false;
    }
    true
}

// Whether a node is proved, where only one alternative's children have changed.
pub fn is_proved_above(
    proved: &[bool],
    known: &mut [(u32, u32)],
    shape: &Shape,
    node: u32,
    alternative: u32,
) -> bool
    requires shape { IsShape shape.now.shape }
    requires proved_size { length proved.now ≡ nodes_count shape.now.shape }
    requires known_size { length known.old ≡ nodes_count shape.now.shape }
    requires stands { node < nodes_count shape.now.shape }
    requires has { HasAlternative shape.now.shape node alternative }
    requires knows { KnowsProved proved.now known.old }
    requires proved { marked proved.now node ≡ true
        → proved_by (marked proved.now) (alternatives_at shape.now.shape node) ≡ true }
    requires others { marked proved.now node ≡ false
        → (other : ℕ) (entry : ℕ × ℕ) → (other ≡ alternative → ⊥)
        → entry_at (alternatives_at shape.now.shape node) other ≡ Some entry
        → all_children (marked proved.now) entry ≡ false }
    ensures is { result ≡ proved_by (marked proved.now) (alternatives_at shape.now.shape node) }
    ensures knows { KnowsProved proved.now known.new }
    ensures passed { (other : ℕ) → passed_of known.new other ≡ passed_of known.old other }
{
    if proved[node as usize] {
        return true;
    }
    let (first, count) = shape.children(node, alternative);
    are_proved(proved, known, first, count)
}

// The first alternative from one on that has no stuck child, where those before have one.
fn passed_from(stuck: &[bool], shape: &Shape, node: u32, from: u32) -> u32
    requires shape { IsShape shape.now.shape }
    requires size { length stuck.now ≡ nodes_count shape.now.shape }
    requires stands { node < nodes_count shape.now.shape }
    requires before { EachEntry shape.now.shape node from (some_child (marked stuck.now)) true }
    ensures before { EachEntry shape.now.shape node result (some_child (marked stuck.now)) true }
    ensures next { NoneStuck shape.now.shape stuck.now node result }
{
    let Some(width) = shape.width(node) else {
        return from;
    };
    if width <= from {
        return from;
    }
    for alternative in from..width {
        let (first, count) = shape.children(node, alternative);
        if !is_some_stuck(stuck, first, count) {
            return alternative;
        }
    }
    width
}

// Whether a node has no more alternatives than this.
fn has_passed(shape: &Shape, node: u32, passed: u32) -> bool
    requires stands { node < nodes_count shape.now.shape }
    ensures { (stuck : List Bool) → EachEntry shape.now.shape node passed (some_child (marked stuck)) true
        → NoneStuck shape.now.shape stuck node passed
        → result ≡ stuck_by (marked stuck) (alternatives_at shape.now.shape node) }
{
    let Some(width) = shape.width(node) else {
        return false;
    };
    if passed < width {
        return false;
    }
    true
}

// The first alternative that has no stuck child, where this one was before the marks of one alternative's child changed.
fn further_passed(
    stuck: &[bool],
    shape: &Shape,
    child: u32,
    node: u32,
    alternative: u32,
    passed: u32,
) -> u32
    requires shape { IsShape shape.now.shape }
    requires size { length stuck.now ≡ nodes_count shape.now.shape }
    requires child { child < nodes_count shape.now.shape }
    requires stands { node < nodes_count shape.now.shape }
    requires before { EachEntry shape.now.shape node passed (some_child (marked stuck.now)) true }
    requires next { (alternative ≡ passed → ⊥) → NoneStuck shape.now.shape stuck.now node passed }
    requires unstuck { marked stuck.now child ≡ false → NoneStuck shape.now.shape stuck.now node passed }
    ensures before { EachEntry shape.now.shape node result (some_child (marked stuck.now)) true }
    ensures next { NoneStuck shape.now.shape stuck.now node result }
{
    if alternative != passed {
        return passed;
    }
    if !stuck[child as usize] {
        return passed;
    }
    passed_from(stuck, shape, node, passed)
}

// Keeps how many alternatives of a node that was just grown have a stuck child.
pub fn begin_passing(stuck: &[bool], known: &mut [(u32, u32)], shape: &Shape, node: u32)
    requires shape { IsShape shape.now.shape }
    requires stuck_size { length stuck.now ≡ nodes_count shape.now.shape }
    requires known_size { length known.old ≡ nodes_count shape.now.shape }
    requires stands { node < nodes_count shape.now.shape }
    ensures knows { KnowsStuck shape.now.shape stuck.now known.new node }
    ensures others { (other : ℕ) → (other ≡ node → ⊥) → passed_of known.new other ≡ passed_of known.old other }
    ensures run { (other : ℕ) → run_of known.new other ≡ run_of known.old other }
{
    let passed = passed_from(stuck, shape, node, 0);
    put_passed(known, node, passed);
}

// Whether a node is stuck, where only the marks of one alternative's child have changed. It reads children only where that is stuck.
pub fn is_stuck_above(
    stuck: &[bool],
    known: &mut [(u32, u32)],
    shape: &Shape,
    child: u32,
    node: u32,
    alternative: u32,
) -> bool
    requires shape { IsShape shape.now.shape }
    requires stuck_size { length stuck.now ≡ nodes_count shape.now.shape }
    requires known_size { length known.old ≡ nodes_count shape.now.shape }
    requires child { child < nodes_count shape.now.shape }
    requires stands { node < nodes_count shape.now.shape }
    requires before { EachEntry shape.now.shape node (passed_of known.old node) (some_child (marked stuck.now)) true }
    requires next { (alternative ≡ passed_of known.old node → ⊥)
        → NoneStuck shape.now.shape stuck.now node (passed_of known.old node) }
    requires unstuck { marked stuck.now child ≡ false
        → NoneStuck shape.now.shape stuck.now node (passed_of known.old node) }
    ensures is { result ≡ stuck_by (marked stuck.now) (alternatives_at shape.now.shape node) }
    ensures knows { KnowsStuck shape.now.shape stuck.now known.new node }
    ensures others { (other : ℕ) → (other ≡ node → ⊥) → passed_of known.new other ≡ passed_of known.old other }
    ensures run { (other : ℕ) → run_of known.new other ≡ run_of known.old other }
{
    let passed = passed_at(known, node);
    let further = further_passed(stuck, shape, child, node, alternative, passed);
    put_passed(known, node, further);
    has_passed(shape, node, further)
}
