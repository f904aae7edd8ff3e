//! Addresses are compared by walking both nodes up.

ghost use Rattle.std.specs.Prelude.{◌≡◌, ◌<◌, length};
ghost use Rattle.tree_runs.specs.Shapes.{IsShape, nodes_count};
ghost use Rattle.tree_runs.specs.Addresses.{address_of};
ghost use Rattle.tree_runs.specs.Best.{address_cmp};

use std::cmp::Ordering;
use tree_shape::Shape;

/// How the addresses of two nodes of one depth stand to one another. Both are walked up to their nearest common node.
pub(crate) fn compare_addresses(shape: &Shape, first: u32, second: u32) -> Ordering
    requires shape { IsShape shape.now.shape }
    requires first { first < nodes_count shape.now.shape }
    requires second { second < nodes_count shape.now.shape }
    requires depth { length (address_of shape.now.shape first) ≡ length (address_of shape.now.shape second) }
    ensures { result ≡ address_cmp (address_of shape.now.shape first) (address_of shape.now.shape second) }
{
    let mut a = first;
    let mut b = second;
    while a != b {
        let (Some(x), Some(y)) = (shape.above(a), shape.above(b)) else {
            return Ordering::Equal;
        };
        if x.0 == y.0 {
            return x.1.cmp(&y.1).then(x.2.cmp(&y.2));
        }
        a = x.0;
        b = y.0;
    }
    Ordering::Equal
}
