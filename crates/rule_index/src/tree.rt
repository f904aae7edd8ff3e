//! A discrimination tree: the places of rules under their keys.

ghost use Rattle.std.specs.Prelude.{◌≡◌, Some, IfOk, OnOk, length, nat_eq};
ghost use Rattle.indexmap.specs.IndexMap.{get};
ghost use Rattle.lf_terms.specs.Terms.{spine_of};
ghost use Rattle.rule_index.specs.Stored.{stored_key, target_atom};
ghost use Rattle.rule_index.specs.Trees.{IsClosed, TreeGrows, Holds, FindsPlaces, WalksBranches, PassesLevel};

use crate::key::{Demand, Key, demand_at};
use crate::node::{Node, insert};
use basics::NoMemory;
use indexmap::IndexMap;
use lf_terms::{Atom, Term};
use std::alloc::Global;

// The places of the rules that fit all, and for each family the node with which it begins. More levels
// stand than any key has parts.
#[derive(Drop)]
pub(crate) struct KeyTree {
    general: Vec<usize>,
    families: IndexMap<u32, usize>,
    nodes: Vec<Node>,
    levels: usize,
}

impl KeyTree {
    pub(crate) fn new(alloc: Global) -> KeyTree
        ensures { IsClosed result }
    {
        KeyTree {
            general: Vec::new(alloc),
            families: IndexMap::new(alloc),
            nodes: Vec::new(alloc),
            levels: 0,
        }
    }

    // Adds the place of a rule under its key.
    pub(crate) fn add(&mut self, alloc: Global, key: &Key, place: usize) -> Result<(), NoMemory>
        requires { IsClosed self.old }
        ensures grows { TreeGrows self.old self.new }
        ensures closed { IsClosed self.new }
        ensures ok { OnOk result (Holds self.new (stored_key key.now) place) }
    {
        match key {
            Key::All => {
                self.general.push(place)?;
                Ok(())
            }
            Key::Family(family, constants) => {
                self.levels = self.levels.max(constants.len() + 1);
                let root = self.root(alloc, *family)?;
                insert(alloc, &mut self.nodes, root, constants.as_slice(), place)
            }
        }
    }

    // The node with which a family begins, which is added where there is none.
    fn root(&mut self, alloc: Global, family: u32) -> Result<usize, NoMemory>
        requires { IsClosed self.old }
        ensures grows { TreeGrows self.old self.new }
        ensures closed { IsClosed self.new }
        ensures ok { IfOk result (λ root. get nat_eq self.new.families family ≡ Some root) }
    {
        if let Some(root) = self.families.get(&family) {
            return Ok(*root);
        }
        let root = self.nodes.len();
        self.nodes.push(Node::new(alloc))?;
        self.families.insert(family, root)?;
        Ok(root)
    }

    // The places under all keys that are compatible with a target, in no order.
    pub(crate) fn places(&self, alloc: Global, target: &Atom) -> Result<Vec<usize>, NoMemory>
        ensures { IfOk result (λ places. FindsPlaces self.now (target_atom target.now) places.items) }
    {
        let mut places = Vec::from_slice(alloc, self.general.as_slice())?;
        if let Some(root) = self.families.get(&target.family) {
            let args = target.args.as_slice();
            walk(
                alloc,
                self.nodes.as_slice(),
                *root,
                args,
                self.levels,
                &mut places,
            )?;
        }
        Ok(places)
    }
}

// Adds the places below a root under all parts that the arguments of a target allow.
fn walk(
    alloc: Global,
    nodes: &[Node],
    root: usize,
    args: &[Term],
    levels: usize,
    places: &mut Vec<usize>,
) -> Result<(), NoMemory>
    ensures { OnOk result (WalksBranches nodes.now root (spine_of args.now) levels places.old.items places.new.items) }
{
    let mut numbers = vec![in alloc; root]?;
    for level in 0..levels {
        if numbers.is_empty() {
            return Ok(());
        }
        numbers = pass(
            alloc,
            nodes,
            numbers.as_slice(),
            demand_at(args, level),
            places,
        )?;
    }
    Ok(())
}

// Adds the places at nodes, and answers the nodes below for the parts that meet a demand.
fn pass(
    alloc: Global,
    nodes: &[Node],
    numbers: &[usize],
    demand: Demand,
    places: &mut Vec<usize>,
) -> Result<Vec<usize>, NoMemory>
    ensures { IfOk result (λ next. PassesLevel nodes.now numbers.now (length numbers.now) demand places.old.items places.new.items next.items) }
{
    let mut next = Vec::new(alloc);
    for number in numbers {
        if *number < nodes.len() {
            let node = &nodes[*number];
            places.extend_from_slice(node.places.as_slice())?;
            node.add_branches(demand, &mut next)?;
        }
    }
    Ok(next)
}
