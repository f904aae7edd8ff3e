//! The index of a list of rules.

ghost use Rattle.std.specs.Prelude.{◌≡◌, ◌++◌, [], ◌∷◌, map, IfOk, OnOk, IsSorted};
ghost use Rattle.std.specs.Ordering.{nat_cmp};
ghost use Rattle.rule_index.specs.Keys.{keyed_rules, compatible_rules};
ghost use Rattle.rule_index.specs.Stored.{stored_key, keyed, target_atom};
ghost use Rattle.rule_index.specs.Trees.{HasCompatible};

use crate::key::{Key, is_compatible, key_of};
use crate::tree::KeyTree;
use basics::{Ids, NoMemory};
use lf_terms::{Atom, Signature};
use rule_sets::{Ordered, RuleBook};
use std::alloc::Global;
use std::marker::Model;

/// Rules with their keys, in the order in which they are tried. A contract sees the list of them.
#[derive(Drop)]
pub struct Index {
    entries: Vec<IndexedRule>,
    tree: KeyTree,
}

// A rule, by its number, with its key.
#[derive(Drop)]
struct IndexedRule {
    key: Key,
    number: u32,
}

impl Model for Index {
    ghost use Rattle.std.specs.Prelude.{List, map};
    ghost use Rattle.rule_index.specs.Keys.{KeyedRule};
    ghost use Rattle.rule_index.specs.Stored.{keyed};
    ghost use Rattle.rule_index.specs.Trees.{HoldsRules};

    ghost Value = { List KeyedRule };

    ghost view = { λ a. map keyed a.entries.items };

    ghost invariant = { λ a. HoldsRules a.tree (map keyed a.entries.items) };
}

impl Index {
    /// The index of the rules of these numbers. A number of no rule has the key that fits all.
    pub fn build(
        alloc: Global,
        sig: &Signature,
        rules: &RuleBook,
        ordered: &Ordered,
    ) -> Result<Index, NoMemory>
        ensures { IfOk result (λ index. index ≡ keyed_rules sig.now rules.now ordered.now) }
    {
        let mut index = Index::new(alloc);
        let numbers = ordered.as_slice();
        for number in numbers {
            let key = key_of(alloc, sig, rules, *number)?;
            index.add(alloc, key, *number)?;
        }
        Ok(index)
    }

    fn new(alloc: Global) -> Index
        ensures { result ≡ [] }
    {
        Index {
            entries: Vec::new(alloc),
            tree: KeyTree::new(alloc),
        }
    }

    // Adds a rule at the end.
    fn add(&mut self, alloc: Global, key: Key, number: u32) -> Result<(), NoMemory>
        ensures { OnOk result (self.new ≡ self.old ++ record { key = stored_key key; number = number } ∷ []) }
    {
        self.tree.add(alloc, &key, self.entries.len())?;
        self.entries.push(IndexedRule { key, number })?;
        Ok(())
    }

    /// The numbers of the rules whose keys are compatible with the target, in the order of the index.
    pub fn lookup(&self, alloc: Global, target: &Atom) -> Result<Ids, NoMemory>
        ensures { IfOk result (λ numbers. numbers ≡ compatible_rules self.now (target_atom target.now)) }
    {
        let mut places = self.tree.places(alloc, target)?;
        places.sort_unstable();
        pick(alloc, self.entries.as_slice(), places.as_slice(), target)
    }
}

// The numbers of the rules that are compatible with a target, where the places of all of them are given
// in rising order.
fn pick(
    alloc: Global,
    entries: &[IndexedRule],
    places: &[usize],
    target: &Atom,
) -> Result<Ids, NoMemory>
    requires sorted { IsSorted nat_cmp places.now }
    requires all { HasCompatible (map keyed entries.now) (target_atom target.now) places.now }
    ensures { IfOk result (λ numbers. numbers ≡ compatible_rules (map keyed entries.now) (target_atom target.now)) }
{
    let mut numbers = Ids::new(alloc);
    let mut passed = 0;
    for place in places {
        if *place >= passed && *place < entries.len() {
            let entry = &entries[*place];
            if is_compatible(&entry.key, target) {
                numbers.push(entry.number)?;
            }
            passed = *place + 1;
        }
    }
    Ok(numbers)
}
