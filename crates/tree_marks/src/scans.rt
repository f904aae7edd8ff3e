//! Marks of children, read one by one.

ghost use Rattle.std.specs.Prelude.{◌≡◌, ◌+◌, ◌<◌, ◌≤◌, length};
ghost use Rattle.tree_runs.specs.Shapes.{nodes_count, alternatives_at, IsShape};
ghost use Rattle.tree_runs.specs.Marks.{all_from, any_from, proved_by, stuck_by};
ghost use Rattle.tree_marks.specs.TreeMarks.{marked};

use tree_shape::Shape;

// Whether all of these children are proved.
pub fn are_all_proved(proved: &[bool], first: u32, count: u32) -> bool
    requires { first + count ≤ length proved.now }
    ensures { result ≡ all_from (marked proved.now) first count }
{
    for place in 0..count {
        if !proved[first as usize + place as usize] {
            return false;
        }
    }
    true
}

// Whether one of these children is stuck.
pub fn is_some_stuck(stuck: &[bool], first: u32, count: u32) -> bool
    requires { first + count ≤ length stuck.now }
    ensures { result ≡ any_from (marked stuck.now) first count }
{
    for place in 0..count {
        if stuck[first as usize + place as usize] {
            return true;
        }
    }
    false
}

// Whether some alternative of a node has only proved children.
pub fn has_proved_alternative(proved: &[bool], shape: &Shape, node: u32) -> bool
    requires shape { IsShape shape.now.shape }
    requires size { length proved.now ≡ nodes_count shape.now.shape }
    requires stands { node < nodes_count shape.now.shape }
    ensures { result ≡ proved_by (marked proved.now) (alternatives_at shape.now.shape node) }
{
    let Some(width) = shape.width(node) else {
        return false;
    };
    for alternative in 0..width {
        let (first, count) = shape.children(node, alternative);
        if are_all_proved(proved, first, count) {
            return true;
        }
    }
    false
}

// Whether every alternative of a grown node has a stuck child.
pub fn has_only_stuck_alternatives(stuck: &[bool], shape: &Shape, node: u32) -> bool
    requires shape { IsShape shape.now.shape }
    requires size { length stuck.now ≡ nodes_count shape.now.shape }
    requires stands { node < nodes_count shape.now.shape }
    ensures { result ≡ stuck_by (marked stuck.now) (alternatives_at shape.now.shape node) }
{
    let Some(width) = shape.width(node) else {
        return false;
    };
    for alternative in 0..width {
        let (first, count) = shape.children(node, alternative);
        if !is_some_stuck(stuck, first, count) {
            return false;
        }
    }
    true
}
