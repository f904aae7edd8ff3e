//! Places of terms.

ghost use Rattle.std.specs.Prelude.{◌≡◌};
ghost use Rattle.file_trees.specs.Places.{tree_place};
ghost use Rattle.file_trees.specs.TermViews.{tree_of};

use crate::term_tree::TermTree;

/// The place of a term in its text: that of an abstraction is its bracket, and that of an
/// application is the place of its head. It takes no memory.
#[tactic(auto, using(crate::proofs::Heads::place_of_applied))]
pub fn place(t: &TermTree) -> u32
    ensures { result ≡ tree_place (tree_of t.now) }
{
    match t {
        TermTree::Abs(binder, _) => binder.opening,
        TermTree::App(head, _) => place(head.term()),
        TermTree::Leaf(span) => span.start,
    }
}
