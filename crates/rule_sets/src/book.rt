//! Books of rules.

ghost use Rattle.std.specs.Prelude.{◌≡◌, ◌<◌, List, [], ◌∷◌, ◌++◌, length, map, codes, Some, None, All, slice_get, option_copied, IfOk, IfErr, OnOk, OnErr};
ghost use Rattle.lf_definitions.specs.Signatures.{constant_types, family_kinds};
ghost use Rattle.basics.specs.Places.{place_of};
ghost use Rattle.rule_sets.specs.Books.{first_book, list_of, listed, IsUserBuilder, IsBook};
ghost use Rattle.rule_sets.specs.Refusals.{AddsRule, AddsList};
ghost use Rattle.rule_sets.specs.Acceptance.{IsFree};

use crate::faults::first_fault;
use crate::lists::first_fault_of_list;
use crate::rule::{Builder, CtorFault, Phase, Rule, RuleFault};
use basics::{Ids, Name, Names, NoMemory};
use indexmap::IndexMap;
use lf_terms::Signature;
use std::alloc::Global;
use std::marker::Model;

/// Rules, numbered from 0 in the order in which they were added, and the constructors that are listed
/// for families. A contract sees a `Book`, which `is_formed` describes.
#[derive(Drop)]
pub struct RuleBook {
    rules: Vec<Rule>,
    names: Names,
    lists: IndexMap<u32, Ids>,
}

impl Model for RuleBook {
    ghost use Rattle.std.specs.Prelude.{map};
    ghost use Rattle.rule_sets.specs.Books.{Book, listed};
    ghost use Rattle.rule_sets.specs.BookParts.{AreBookParts};

    ghost Value = { Book };

    ghost view = { λ a. record { rules = a.rules.items; lists = map listed a.lists.entries } };

    ghost invariant = { λ a. AreBookParts a.rules.items a.names (map listed a.lists.entries) };
}

impl RuleBook {
    /// The book of the two built-in rules.
    pub fn new(alloc: Global) -> Result<RuleBook, NoMemory>
        ensures { IfOk result (λ book. book ≡ first_book) }
    {
        let assumption = built_in(alloc, b"assumption", Phase::Safe(-50), Builder::Assumption)?;
        let hyps = built_in(alloc, b"hyps", Phase::Unsafe(75), Builder::Hyps)?;
        let mut names = Names::new(alloc);
        names.add(alloc, b"assumption")?;
        names.add(alloc, b"hyps")?;
        let mut rules = Vec::with_capacity(alloc, 2)?;
        rules.push(assumption)?;
        rules.push(hyps)?;
        Ok(RuleBook {
            rules,
            names,
            lists: IndexMap::new(alloc),
        })
    }

    /// A law: a book begins with the built-in rules, the names of its rules differ, and a family has at
    /// most one list. It does nothing.
    pub fn is_formed(&self)
        ensures { IsBook self.now }
    {
        let _ = &self.rules;
    }

    /// How many rules the book has.
    pub fn count(&self) -> u32
        ensures { result ≡ length self.now.rules }
    {
        self.rules.len() as u32
    }

    /// The rule of a number.
    pub fn rule(&self, number: u32) -> &Rule
        requires { number < length self.now.rules }
        ensures { slice_get self.now.rules number ≡ Some result.now }
    {
        &self.rules[number as usize]
    }

    /// The number of the rule that has the name.
    pub fn find(&self, name: &Name) -> Option<u32>
        ensures { result ≡ place_of (map (λ rule. rule.name) self.now.rules) name.now }
    {
        self.names.find(name.as_bytes())
    }

    /// Adds a rule at the end, unless it has a fault; the answer is its first one then. After a refusal
    /// the book is as it was, and when memory runs out the rule comes back.
    pub fn add(&mut self, alloc: Global, sig: &Signature, rule: Rule) -> Result<(), RuleFault>
        requires { IsUserBuilder rule.builder }
        ensures { AddsRule sig.now self.old rule result self.new }
    {
        match first_fault(alloc, self, sig, &rule) {
            Err(_) => Err(RuleFault::NoMemory(rule)),
            Ok(Some(fault)) => Err(fault),
            Ok(None) => match self.append(alloc, rule) {
                Ok(()) => Ok(()),
                Err(rule) => Err(RuleFault::NoMemory(rule)),
            },
        }
    }

    // Adds a rule at the end. When memory runs out it comes back.
    fn append(&mut self, alloc: Global, rule: Rule) -> Result<(), Rule>
        requires { IsFree self.old rule }
        ensures ok { OnOk result (self.new ≡ record { rules = self.old.rules ++ rule ∷ []; lists = self.old.lists }) }
        ensures back { IfErr result (λ back. back ≡ rule) }
        ensures err { OnErr result (self.new ≡ self.old) }
    {
        let Ok(()) = self.names.add(alloc, rule.name.as_bytes()) else {
            return Err(rule);
        };
        match self.rules.push(rule) {
            Ok(()) => Ok(()),
            Err(back) => {
                self.names.drop_last();
                Err(back.value)
            }
        }
    }

    /// Lists the constructors of a family, unless the family has a list or these have a fault; the answer
    /// is the first one then. After a refusal the book is as it was, and when memory runs out the list comes
    /// back.
    pub fn add_ctors(
        &mut self,
        alloc: Global,
        sig: &Signature,
        family: u32,
        constants: Ids,
    ) -> Result<(), CtorFault>
        requires { family < length (family_kinds sig.now) }
        ensures { AddsList sig.now self.old family constants result self.new }
    {
        if self.ctors(family).is_some() {
            return Err(CtorFault::Taken);
        }
        match first_fault_of_list(alloc, sig, family, &constants) {
            Err(_) => Err(CtorFault::NoMemory(constants)),
            Ok(Some(fault)) => Err(fault),
            Ok(None) => match self.append_list(family, constants) {
                Ok(()) => Ok(()),
                Err(constants) => Err(CtorFault::NoMemory(constants)),
            },
        }
    }

    // Lists the constructors of a family. When memory runs out they come back.
    fn append_list(&mut self, family: u32, constants: Ids) -> Result<(), Ids>
        requires { list_of self.old.lists family ≡ None }
        ensures ok { OnOk result (self.new ≡ record { rules = self.old.rules; lists = self.old.lists ++ listed (family, constants) ∷ [] }) }
        ensures back { IfErr result (λ back. back ≡ constants) }
        ensures err { OnErr result (self.new ≡ self.old) }
    {
        match self.lists.insert(family, constants) {
            Ok(_) => Ok(()),
            Err(back) => {
                let (_, constants) = back.value;
                Err(constants)
            }
        }
    }

    /// The constructors that are listed for a family.
    pub fn ctors(&self, family: u32) -> Option<&Ids>
        ensures { option_copied result ≡ list_of self.now.lists family }
    {
        self.lists.get(&family)
    }
}

// A built-in rule.
fn built_in(alloc: Global, name: &[u8], phase: Phase, builder: Builder) -> Result<Rule, NoMemory>
    ensures { IfOk result (λ rule. rule ≡ record { name = name.now; set = codes "builtin"; phase = phase; builder = builder; subject = 0; major = 0 }) }
{
    let name = Name::from_slice(alloc, name)?;
    let set = Name::from_slice(alloc, b"builtin")?;
    Ok(Rule {
        name,
        set,
        phase,
        builder,
        subject: 0,
        major: 0,
    })
}
