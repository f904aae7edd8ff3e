//! A plain tree, whose answers are read off all its nodes each time, by the definitions alone.

use basics::NoMemory;
use std::alloc::Global;
use tree_steps::{Branch, Branches, Root};

/// A node: what is above it and by which alternative, the way from the root, and who holds it. Once it is committed it has its alternatives,
/// each as its first child's number, 0 where there is none, and how many children there are.
#[derive(Drop)]
pub(crate) struct PlainNode {
    above: u32,
    alternative: u32,
    address: Vec<u32>,
    priority: u64,
    content: u32,
    holder: Option<u32>,
    alternatives: Option<Vec<(u32, u32)>>,
    is_proved: bool,
    is_stuck: bool,
}

/// The nodes by number, and how many may be committed.
#[derive(Drop)]
pub(crate) struct Plain {
    nodes: Vec<PlainNode>,
    budget: u32,
}

/// What a claim has to answer.
#[derive(Clone, Copy, PartialEq, Eq)]
pub(crate) enum Wanted {
    Take(u32, u32),
    Decided,
    Spent(u32),
    Idle(u32),
}

/// A tree with its root alone.
pub(crate) fn plain_start(alloc: Global, root: u32, budget: u32) -> Result<Plain, NoMemory> {
    let mut nodes = Vec::new(alloc);
    nodes.push(PlainNode {
        above: 0,
        alternative: 0,
        address: Vec::new(alloc),
        priority: 1_000_000_000_000_000_000,
        content: root,
        holder: None,
        alternatives: None,
        is_proved: false,
        is_stuck: false,
    })?;
    Ok(Plain { nodes, budget })
}

fn len32(nodes: &[PlainNode]) -> u32 {
    u32::try_from(nodes.len()).unwrap_or(u32::MAX)
}

/// The marks that a node's children give it.
fn marks_of(nodes: &[PlainNode], node: u32) -> (bool, bool) {
    let Some(found) = nodes.get(node as usize) else {
        return (false, false);
    };
    let Some(alternatives) = &found.alternatives else {
        return (false, false);
    };
    let mut is_proved = false;
    let mut is_stuck = true;
    for span in alternatives.as_slice() {
        let (all_proved, some_stuck) = children_marks(nodes, *span);
        is_proved = is_proved || all_proved;
        is_stuck = is_stuck && some_stuck;
    }
    (is_proved, is_stuck)
}

/// Whether all of some children are proved, and whether one is stuck.
fn children_marks(nodes: &[PlainNode], span: (u32, u32)) -> (bool, bool) {
    let (first, count) = span;
    let mut all_proved = true;
    let mut some_stuck = false;
    for place in 0..count {
        match nodes.get(first.saturating_add(place) as usize) {
            Some(child) => {
                all_proved = all_proved && child.is_proved;
                some_stuck = some_stuck || child.is_stuck;
            }
            None => {}
        }
    }
    (all_proved, some_stuck)
}

/// Whether no node above one and no alternative on its way is decided.
fn is_relevant(nodes: &[PlainNode], node: u32) -> bool {
    let mut at = node;
    for _ in 0..nodes.len() {
        if at == 0 {
            return true;
        }
        let Some(found) = nodes.get(at as usize) else {
            return false;
        };
        if is_way_decided(nodes, found.above, found.alternative) {
            return false;
        }
        at = found.above;
    }
    false
}

/// Whether a node or one of its alternatives is decided.
fn is_way_decided(nodes: &[PlainNode], node: u32, alternative: u32) -> bool {
    let Some(found) = nodes.get(node as usize) else {
        return true;
    };
    let Some(alternatives) = &found.alternatives else {
        return true;
    };
    let Some(span) = alternatives.get(alternative as usize) else {
        return true;
    };
    let (all_proved, some_stuck) = children_marks(nodes, *span);
    found.is_proved || found.is_stuck || all_proved || some_stuck
}

/// Whether a node is better than another: by priority, then by the length of its address, then by the address.
fn is_better(node: &PlainNode, other: &PlainNode) -> bool {
    let own = node.address.as_slice();
    let others = other.address.as_slice();
    if node.priority != other.priority {
        return node.priority > other.priority;
    }
    if own.len() != others.len() {
        return own.len() < others.len();
    }
    is_smaller(own, others)
}

/// Whether a list is lexicographically smaller than one of its length.
fn is_smaller(own: &[u32], others: &[u32]) -> bool {
    for (a, b) in own.iter().zip(others.iter()) {
        if *a != *b {
            return *a < *b;
        }
    }
    false
}

/// Whether a node is open and relevant, and better than another one, if there is one.
fn is_next(nodes: &[PlainNode], number: u32, best: Option<u32>) -> bool {
    let Some(node) = nodes.get(number as usize) else {
        return false;
    };
    if node.holder.is_some() || node.alternatives.is_some() || !is_relevant(nodes, number) {
        return false;
    }
    let Some(best) = best else {
        return true;
    };
    match nodes.get(best as usize) {
        Some(other) => is_better(node, other),
        None => true,
    }
}

/// The best node.
fn best_of(nodes: &[PlainNode]) -> Option<u32> {
    let mut best = None;
    for number in 0..len32(nodes) {
        if is_next(nodes, number, best) {
            best = Some(number);
        }
    }
    best
}

/// How many nodes are committed, and how many are held.
fn counts_of(nodes: &[PlainNode]) -> (u32, u32) {
    let mut committed: u32 = 0;
    let mut held: u32 = 0;
    for node in nodes {
        committed = committed.saturating_add(u32::from(node.alternatives.is_some()));
        held = held.saturating_add(u32::from(node.holder.is_some()));
    }
    (committed, held)
}

/// A child's share of a priority.
fn share(priority: u64, percent: u8) -> u64 {
    let product = u128::from(priority).wrapping_mul(u128::from(percent));
    u64::try_from(product / 100).unwrap_or(0)
}

/// An address with one more step.
fn longer(
    alloc: Global,
    address: &[u32],
    alternative: u32,
    place: u32,
) -> Result<Vec<u32>, NoMemory> {
    let mut longer = Vec::from_slice(alloc, address)?;
    longer.push(alternative)?;
    longer.push(place)?;
    Ok(longer)
}

/// Where a child is to hang.
#[derive(Clone, Copy)]
struct Way {
    above: u32,
    alternative: u32,
    place: u32,
    percent: u8,
}

fn child(
    alloc: Global,
    nodes: &[PlainNode],
    way: Way,
    content: u32,
) -> Result<PlainNode, NoMemory> {
    let Some(parent) = nodes.get(way.above as usize) else {
        return Err(NoMemory);
    };
    let address = longer(alloc, parent.address.as_slice(), way.alternative, way.place)?;
    Ok(PlainNode {
        above: way.above,
        alternative: way.alternative,
        address,
        priority: share(parent.priority, way.percent),
        content,
        holder: None,
        alternatives: None,
        is_proved: false,
        is_stuck: false,
    })
}

/// Adds the children of one alternative, and answers the first one's number and how many there are.
fn add_children(
    alloc: Global,
    nodes: &mut Vec<PlainNode>,
    above: u32,
    alternative: u32,
    branch: &Branch<u32>,
) -> Result<(u32, u32), NoMemory> {
    let first = len32(nodes.as_slice());
    let contents = branch.nodes.as_slice();
    let count = u32::try_from(contents.len()).unwrap_or(u32::MAX);
    for place in 0..count {
        let content = contents.get(place as usize).copied().unwrap_or(0);
        let way = Way {
            above,
            alternative,
            place,
            percent: branch.percent,
        };
        let made = child(alloc, nodes.as_slice(), way, content)?;
        nodes.push(made)?;
    }
    Ok((if count == 0 { 0 } else { first }, count))
}

impl Plain {
    /// The node that a seat holds.
    pub(crate) fn held(&self, seat: u32) -> Option<u32> {
        for number in 0..len32(self.nodes.as_slice()) {
            if let Some(node) = self.nodes.get(number as usize) {
                if node.holder == Some(seat) {
                    return Some(number);
                }
            }
        }
        None
    }

    /// What a node holds, and 0 where it doesn't stand.
    pub(crate) fn content(&self, node: u32) -> u32 {
        match self.nodes.get(node as usize) {
            Some(found) => found.content,
            None => 0,
        }
    }

    /// What a claim has to answer.
    pub(crate) fn wanted(&self) -> Wanted {
        let nodes = self.nodes.as_slice();
        let (committed, held) = counts_of(nodes);
        if self.verdict() != Root::Undecided {
            return Wanted::Decided;
        }
        if committed.saturating_add(held) >= self.budget {
            return Wanted::Spent(held);
        }
        match best_of(nodes) {
            Some(node) => Wanted::Take(node, self.content(node)),
            None => Wanted::Idle(held),
        }
    }

    /// What is known of the root.
    pub(crate) fn verdict(&self) -> Root {
        match self.nodes.first() {
            Some(root) => if root.is_proved {
                Root::Proved
            } else if root.is_stuck {
                Root::Stuck
            } else {
                Root::Undecided
            },
            None => Root::Undecided,
        }
    }

    /// The least alternative of the root all of whose children are proved.
    pub(crate) fn chosen(&self) -> Option<u32> {
        let nodes = self.nodes.as_slice();
        let Some(root) = nodes.first() else {
            return None;
        };
        let Some(alternatives) = &root.alternatives else {
            return None;
        };
        let mut number: u32 = 0;
        for span in alternatives.as_slice() {
            let (all_proved, _) = children_marks(nodes, *span);
            if all_proved {
                return Some(number);
            }
            number = number.saturating_add(1);
        }
        None
    }

    /// Lets a seat hold a node, or nobody.
    pub(crate) fn hold(&mut self, node: u32, holder: Option<u32>) {
        if let Some(found) = self.nodes.get_mut(node as usize) {
            found.holder = holder;
        }
    }

    /// Whether these are the alternatives of a node.
    pub(crate) fn has_alternatives(&self, node: u32, spans: &[(u32, u32)]) -> bool {
        let Some(found) = self.nodes.get(node as usize) else {
            return false;
        };
        match &found.alternatives {
            Some(alternatives) => alternatives.as_slice() == spans,
            None => false,
        }
    }

    /// Adds the children of a node that a seat holds, and marks all nodes.
    pub(crate) fn commit(
        &mut self,
        alloc: Global,
        node: u32,
        branches: &Branches<u32>,
    ) -> Result<(), NoMemory> {
        let mut alternatives = Vec::new(alloc);
        let mut alternative: u32 = 0;
        for branch in branches.alternatives.as_slice() {
            let span = add_children(alloc, &mut self.nodes, node, alternative, branch)?;
            alternatives.push(span)?;
            alternative = alternative.saturating_add(1);
        }
        if let Some(found) = self.nodes.get_mut(node as usize) {
            found.alternatives = Some(alternatives);
            found.holder = None;
        }
        self.mark();
        Ok(())
    }

    /// Marks all nodes, the last one first, as children have greater numbers.
    fn mark(&mut self) {
        let count = len32(self.nodes.as_slice());
        for back in 0..count {
            let number = count - 1 - back;
            let (is_proved, is_stuck) = marks_of(self.nodes.as_slice(), number);
            if let Some(node) = self.nodes.get_mut(number as usize) {
                node.is_proved = is_proved;
                node.is_stuck = is_stuck;
            }
        }
    }
}
