//! What a search needs to know of its problem.

ghost use Rattle.std.specs.Prelude.{◌≡◌, ◌↔◌, ℕ, ◌≤◌, List, All, IsTrue, IfOk};
ghost use Rattle.tree_steps.specs.Seen.{branches_seen, AllOwn};

use crate::branches::Branches;
use basics::NoMemory;

/// A problem is known by the branches of each node. Nodes are told apart only by what they are seen as.
pub trait Problem {
    /// A node of the search.
    type Node: Drop;

    /// What a node is seen as.
    type Seen;

    /// Which nodes are the problem's own.
    ghost is_own: { Self → Self.Node → Type 0 };

    /// As what a node is seen.
    ghost seen: { Self → Self.Node → Self.Seen };

    /// For each alternative its percentage and as what its children are seen.
    ghost branches: { Self → Self.Seen → List (ℕ × List Self.Seen) };

    /// The branches of an own node. It is refused when out of memory.
    fn expand(&self, node: &Self::Node) -> Result<Branches<Self::Node>, NoMemory>
        requires { is_own self.now node.now }
        ensures own { IfOk result (AllOwn (is_own self.now)) }
        ensures branches { IfOk result (λ made. branches_seen (seen self.now) made ≡ branches self.now (seen self.now node.now)) };

    /// An equal node. It is refused when out of memory.
    fn copy(&self, node: &Self::Node) -> Result<Self::Node, NoMemory>
        requires { is_own self.now node.now }
        ensures own { IfOk result (is_own self.now) }
        ensures same { IfOk result (λ made. seen self.now made ≡ seen self.now node.now) };

    /// Whether two own nodes are equal. It takes no memory.
    fn same(&self, first: &Self::Node, second: &Self::Node) -> bool
        requires first { is_own self.now first.now }
        requires second { is_own self.now second.now }
        ensures { IsTrue result ↔ (seen self.now first.now ≡ seen self.now second.now) };

    /// Every percentage is at most 100.
    ghost percentages: { (problem : Self) (node : Self.Seen) → All (λ branch. branch.0 ≤ 100) (branches problem node) };
}
