//! Nodes of a discrimination tree. They stand in one vector and name each other by their numbers in it.

ghost use Rattle.std.specs.Prelude.{◌≡◌, ◌<◌, ◌+◌, ◌++◌, ℕ, [], length, None, Some, IfOk, OnOk, Contains};
ghost use Rattle.std.specs.Option.{option_to_list};
ghost use Rattle.indexmap.specs.IndexMap.{values};
ghost use Rattle.rule_index.specs.Trees.{branch_of, NodeGrows, HoldsPlace, Leads, Reaches, NodesGrow, AddsBranches, BringsWithin, BranchesAreNodes};

use crate::key::Demand;
use basics::NoMemory;
use indexmap::IndexMap;
use std::alloc::Global;

// The places of the rules whose keys end here, and the nodes below: that for a part of a key with no
// constant, and those for each constant.
#[derive(Drop)]
pub(crate) struct Node {
    pub(crate) places: Vec<usize>,
    open_branch: Option<usize>,
    constants: IndexMap<u32, usize>,
}

impl Node {
    pub(crate) fn new(alloc: Global) -> Node
        ensures open { result.open_branch ≡ None }
        ensures constants { result.constants.entries ≡ [] }
    {
        Node {
            places: Vec::new(alloc),
            open_branch: None,
            constants: IndexMap::new(alloc),
        }
    }

    // The node below for a part of a key.
    fn branch(&self, part: Option<u32>) -> Option<usize>
        ensures { result ≡ branch_of self.now part }
    {
        match part {
            None => self.open_branch,
            Some(constant) => self.constants.get(&constant).copied(),
        }
    }

    // Adds a branch for a part that has none.
    fn add_branch(&mut self, part: Option<u32>, child: usize) -> Result<(), NoMemory>
        requires { branch_of self.old part ≡ None }
        ensures grows { NodeGrows self.old self.new }
        ensures brings { BringsWithin self.old self.new (child + 1) }
        ensures ok { OnOk result (branch_of self.new part ≡ Some child) }
    {
        match part {
            None => self.open_branch = Some(child),
            Some(constant) => {
                self.constants.insert(constant, child)?;
            }
        }
        Ok(())
    }

    // Adds the place of a rule whose key ends here.
    fn add_place(&mut self, place: usize) -> Result<(), NoMemory>
        ensures grows { NodeGrows self.old self.new }
        ensures open { self.new.open_branch ≡ self.old.open_branch }
        ensures constants { self.new.constants ≡ self.old.constants }
        ensures ok { OnOk result (Contains self.new.places.items place) }
    {
        self.places.push(place)?;
        Ok(())
    }

    // Adds the branches that meet a demand to a list.
    pub(crate) fn add_branches(&self, demand: Demand, next: &mut Vec<usize>) -> Result<(), NoMemory>
        ensures { OnOk result (AddsBranches self.now demand next.old.items next.new.items) }
    {
        push_some(self.open_branch, next)?;
        match demand {
            Demand::Anything => self.add_constants(next),
            Demand::Variable => Ok(()),
            Demand::Constant(constant) => push_some(self.branch(Some(constant)), next),
        }
    }

    // Adds the branches for constants to a list.
    fn add_constants(&self, next: &mut Vec<usize>) -> Result<(), NoMemory>
        ensures { OnOk result (next.new.items ≡ next.old.items ++ values self.now.constants) }
    {
        for child in self.constants.values() {
            next.push(*child)?;
        }
        Ok(())
    }
}

// Adds a number at the end, if there is one.
fn push_some(number: Option<usize>, numbers: &mut Vec<usize>) -> Result<(), NoMemory>
    ensures { OnOk result (numbers.new.items ≡ numbers.old.items ++ option_to_list number) }
{
    if let Some(number) = number {
        numbers.push(number)?;
    }
    Ok(())
}

// Adds a place below a root, along the parts of a key.
pub(crate) fn insert(
    alloc: Global,
    nodes: &mut Vec<Node>,
    root: usize,
    parts: &[Option<u32>],
    place: usize,
) -> Result<(), NoMemory>
    requires within { root < length nodes.old.items }
    requires closed { BranchesAreNodes nodes.old.items }
    ensures grows { NodesGrow nodes.old.items nodes.new.items }
    ensures closed { BranchesAreNodes nodes.new.items }
    ensures ok { OnOk result (Reaches nodes.new.items place root parts.now) }
{
    let mut number = root;
    for part in parts {
        number = below(alloc, nodes, number, *part)?;
    }
    put(nodes, number, place)
}

// Adds a place to the node of a number.
fn put(nodes: &mut Vec<Node>, number: usize, place: usize) -> Result<(), NoMemory>
    requires within { number < length nodes.old.items }
    requires closed { BranchesAreNodes nodes.old.items }
    ensures grows { NodesGrow nodes.old.items nodes.new.items }
    ensures closed { BranchesAreNodes nodes.new.items }
    ensures ok { OnOk result (HoldsPlace nodes.new.items number place) }
{
    nodes[number].add_place(place)
}

// The node below one for a part of a key, which is added where there is none.
fn below(
    alloc: Global,
    nodes: &mut Vec<Node>,
    number: usize,
    part: Option<u32>,
) -> Result<usize, NoMemory>
    requires within { number < length nodes.old.items }
    requires closed { BranchesAreNodes nodes.old.items }
    ensures grows { NodesGrow nodes.old.items nodes.new.items }
    ensures closed { BranchesAreNodes nodes.new.items }
    ensures ok { IfOk result (λ child. Leads nodes.new.items number part child) }
{
    if let Some(child) = nodes[number].branch(part) {
        return Ok(child);
    }
    let child = nodes.len();
    nodes.push(Node::new(alloc))?;
    nodes[number].add_branch(part, child)?;
    Ok(child)
}
