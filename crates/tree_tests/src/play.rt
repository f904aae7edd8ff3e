//! A tree with its problem, and the contents that its seats have claimed.

ghost use Rattle.std.specs.Prelude.{◌≡◌, ℕ, ◌<◌, IfSome, Contains};
ghost use Rattle.tree_shape.specs.Room.{HasAlternative};

use basics::NoMemory;
use std::alloc::Global;
use std::marker::Model;
use tree_shared::search_still;
use tree_steps::{Claim, Journal, Problem, Root, Tree};

/// A tree with its problem, and with each content that was claimed by the number of its node. A contract sees nothing of it.
#[derive(Drop)]
pub(crate) struct Play<P: Problem + Drop> {
    problem: P,
    tree: Tree<P>,
    taken: Vec<(u32, P::Node)>,
}

impl<P: Problem + Drop> Model for Play<P> {
    ghost use Rattle.std.specs.Prelude.{ℕ, All};
    ghost use Rattle.tree_steps.specs.Trees.{IsTree};

    ghost Value = { ℕ };

    ghost view = { λ p. 0 };

    ghost invariant = { λ p. IsTree (P.branches p.problem) (P.seen p.problem) (P.is_own p.problem) p.tree
        × All (λ pair. P.is_own p.problem pair.1) p.taken.items };
}

// The content that was claimed with a node.
fn content_of<'a, N>(taken: &'a [(u32, N)], node: u32) -> Option<&'a N>
    ensures { IfSome result (λ content. Contains taken.now (node, content.now)) }
{
    for pair in taken {
        if pair.0 == node {
            return Some(&pair.1);
        }
    }
    None
}

// Where the children of a node's alternatives begin, and how many there are.
fn children_of<P: Problem>(
    alloc: Global,
    tree: &Tree<P>,
    node: u32,
    width: u32,
) -> Result<Vec<(u32, u32)>, NoMemory>
    requires { (alternative : ℕ) → alternative < width → HasAlternative tree.now.shape.shape node alternative }
{
    let mut all = Vec::new(alloc);
    for alternative in 0..width {
        all.push(tree.children(node, alternative))?;
    }
    Ok(all)
}

impl<P: Problem + Drop> Play<P> {
    /// A tree with its root alone.
    pub(crate) fn start(
        alloc: Global,
        problem: P,
        root: P::Node,
        budget: u32,
    ) -> Result<Play<P>, NoMemory>
        requires budget { 0 < budget }
        requires own { P.is_own problem root }
    {
        let tree = Tree::start(alloc, &problem, root, budget)?;
        Ok(Play {
            problem,
            tree,
            taken: Vec::new(alloc),
        })
    }

    /// The tree of a search in the caller alone.
    pub(crate) fn still(
        alloc: Global,
        problem: P,
        root: P::Node,
        budget: u32,
    ) -> Result<Play<P>, NoMemory>
        requires budget { 0 < budget }
        requires own { P.is_own problem root }
    {
        let tree = search_still(alloc, &problem, root, budget)?;
        Ok(Play {
            problem,
            tree,
            taken: Vec::new(alloc),
        })
    }

    /// What a claim answers, and nothing where the seat holds a node.
    pub(crate) fn claim(&mut self, seat: u32) -> Result<Option<Claim<P::Node>>, NoMemory> {
        match self.tree.held(seat) {
            Some(_) => return Ok(None),
            None => {}
        }
        match self.tree.claim(&self.problem, seat)? {
            Claim::Take(node, content) => {
                let kept = self.problem.copy(&content)?;
                self.taken.push((node, kept))?;
                Ok(Some(Claim::Take(node, content)))
            }
            other => Ok(Some(other)),
        }
    }

    /// Commits what a seat holds, and answers where the children of each alternative begin and how many there are; nothing where the seat
    /// holds no node.
    pub(crate) fn commit(
        &mut self,
        alloc: Global,
        seat: u32,
    ) -> Result<Option<Vec<(u32, u32)>>, NoMemory> {
        let Some(node) = self.tree.held(seat) else {
            return Ok(None);
        };
        let Some(content) = content_of(self.taken.as_slice(), node) else {
            return Ok(None);
        };
        if !self.tree.holds(&self.problem, node, seat, content) {
            return Ok(None);
        }
        let branches = self.problem.expand(content)?;
        let width = branches.alternatives.len();
        if width > 1_000_000 {
            return Err(NoMemory);
        }
        match self.tree.commit(alloc, &self.problem, node, seat, branches) {
            Ok(()) => {}
            Err(_) => return Err(NoMemory),
        }
        Ok(Some(children_of(alloc, &self.tree, node, width as u32)?))
    }

    /// Gives back what a seat holds, and answers whether that was a node.
    pub(crate) fn release(&mut self, seat: u32) -> bool {
        match self.tree.held(seat) {
            Some(node) => {
                self.tree.release(&self.problem, node, seat);
                true
            }
            None => false,
        }
    }

    pub(crate) fn verdict(&self) -> Root {
        self.tree.verdict()
    }

    /// The node that a seat holds.
    pub(crate) fn held(&self, seat: u32) -> Option<u32> {
        self.tree.held(seat)
    }

    /// Whether a seat holds a node with the content that was claimed at a place, and the node that this was claimed with.
    pub(crate) fn holds_taken(&self, place: usize, seat: u32, node: u32) -> Option<(u32, bool)> {
        match self.taken.get(place) {
            Some(pair) => {
                let holds = self.tree.holds(&self.problem, node, seat, &pair.1);
                Some((pair.0, holds))
            }
            None => None,
        }
    }

    /// The least alternative of the root all of whose children are proved.
    pub(crate) fn chosen(&self) -> Option<u32> {
        self.tree.chosen(0)
    }

    /// The problem of the tree.
    pub(crate) fn problem(&self) -> &P {
        &self.problem
    }

    pub(crate) fn journal(&self) -> &Journal {
        self.tree.journal()
    }
}
