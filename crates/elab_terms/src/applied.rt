//! Applications, however they are put in parentheses.

ghost use Rattle.std.specs.Prelude.{◌≡◌, ◌+◌, [], Some, length, slice_get, MatchResult};
ghost use Rattle.file_trees.specs.TermViews.{tree_of};
ghost use Rattle.elab_terms.specs.Applied.{base_of, arguments_of};

use file_trees::TermTree;

/// What is applied: a name or an abstraction.
pub fn base(tree: &TermTree) -> &TermTree
    ensures { tree_of result.now ≡ base_of (tree_of tree.now) }
{
    match tree {
        TermTree::App(head, _) => base(head.term()),
        _ => tree,
    }
}

/// The argument of a place, from 0, or how far the place is past the last one.
pub fn argument(tree: &TermTree, place: usize) -> Result<&TermTree, usize>
    ensures { MatchResult result (λ found. slice_get (arguments_of (tree_of tree.now) []) place ≡ Some (tree_of found.now)) (λ left. place ≡ length (arguments_of (tree_of tree.now) []) + left) }
{
    match tree {
        TermTree::App(head, arguments) => match argument(head.term(), place) {
            Ok(found) => Ok(found),
            Err(left) => {
                let items = arguments.as_slice();
                if left < items.len() {
                    Ok(&items[left])
                } else {
                    Err(left - items.len())
                }
            }
        },
        _ => Err(place),
    }
}
