//! Entries for new nodes and alternatives, in vectors that have room for them.

ghost use Rattle.std.specs.Prelude.{sum, ◌≡◌, ◌++◌, [], ◌∷◌, ◌+◌, ◌<◌, ◌≤◌, None, length, replicate, vec_capacity};
ghost use Rattle.tree_runs.specs.Shapes.{children_above, grown_above, placed, first_child};

// Puts an item last, where there is room for it.
pub fn put_last<T: Drop>(items: &mut Vec<T>, item: T)
    requires { length items.old.items < vec_capacity items.old }
    ensures items { items.new.items ≡ items.old.items ++ item ∷ [] }
    ensures capacity { vec_capacity items.old ≤ vec_capacity items.new }
{
    match items.push(item) {
        Ok(()) => {}
        Err(_) => unreachable!(),
    }
}

// The children of one alternative.
fn add_children(
    above: &mut Vec<Option<(u32, u32, u32)>>,
    spans: &mut Vec<Option<(u32, u32)>>,
    node: u32,
    alternative: u32,
    count: u32,
)
    requires above_room { length above.old.items + count ≤ vec_capacity above.old }
    requires spans_room { length spans.old.items + count ≤ vec_capacity spans.old }
    ensures above { above.new.items ≡ above.old.items ++ children_above node alternative 0 count }
    ensures spans { spans.new.items ≡ spans.old.items ++ replicate count None }
    ensures above_capacity { vec_capacity above.old ≤ vec_capacity above.new }
    ensures spans_capacity { vec_capacity spans.old ≤ vec_capacity spans.new }
{
    for place in 0..count {
        put_last(above, Some((node, alternative, place)));
        put_last(spans, None);
    }
}

// The number of the first of some children, 0 where there are none.
fn first_of(next: u32, count: u32) -> u32
    ensures { result ≡ first_child next count }
{
    if count == 0 { 0 } else { next }
}

// The alternatives with these numbers of children, and the children.
pub fn add_alternatives(
    above: &mut Vec<Option<(u32, u32, u32)>>,
    spans: &mut Vec<Option<(u32, u32)>>,
    alternatives: &mut Vec<(u32, u32)>,
    node: u32,
    counts: &[u32],
)
    requires above_room { length above.old.items + sum counts.now ≤ vec_capacity above.old }
    requires spans_room { length spans.old.items + sum counts.now ≤ vec_capacity spans.old }
    requires alternatives_room { length alternatives.old.items + length counts.now ≤ vec_capacity alternatives.old }
    requires numbers { length above.old.items + sum counts.now ≤ 2147483648 }
    requires alternatives_numbers { length alternatives.old.items + length counts.now ≤ 2147483648 }
    ensures above { above.new.items ≡ above.old.items ++ grown_above node 0 counts.now }
    ensures spans { spans.new.items ≡ spans.old.items ++ replicate (sum counts.now) None }
    ensures alternatives { alternatives.new.items ≡ alternatives.old.items
        ++ placed (length above.old.items) counts.now }
    ensures above_capacity { vec_capacity above.old ≤ vec_capacity above.new }
    ensures spans_capacity { vec_capacity spans.old ≤ vec_capacity spans.new }
    ensures alternatives_capacity { vec_capacity alternatives.old ≤ vec_capacity alternatives.new }
{
    for alternative in 0..counts.len() {
        let count = counts[alternative];
        let first = first_of(above.len() as u32, count);
        put_last(alternatives, (first, count));
        add_children(above, spans, node, alternative as u32, count);
    }
}
