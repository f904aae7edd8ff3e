//! Books of rules for goals.

ghost use Rattle.std.specs.Prelude.{◌≡◌, IfOk, map, option_map};
ghost use Rattle.std.specs.Option.{option_to_list};
ghost use Rattle.lf_definitions.specs.GoalLists.{all_goals, next_id};
ghost use Rattle.lf_definitions.specs.ShapedGoals.{ShapedGoals};
ghost use Rattle.meta_goals.specs.GoalsOf.{goals_of};
ghost use Rattle.rule_sets.specs.Refusals.{IsOver};
ghost use Rattle.alternatives.specs.NormalForms.{first_lawful};
ghost use Rattle.alternatives.specs.Alternatives.{first_safe};
ghost use Rattle.build_shared.specs.RuleUses.{KnowShapes};
ghost use Rattle.build_shared.specs.Seen.{seen_application};
ghost use Rattle.goal_book.specs.GoalBooks.{IsGoalBook, IsBookOf, rules_in, fitting_in};
ghost use Rattle.goal_book.specs.Choices.{choices, seen_choice};

use crate::choices::{Choice, choices};
use crate::first::first_of;
use crate::query::Query;
use crate::wanted::Wanted;
use basics::{Ids, NoMemory};
use build_shared::App;
use build_shared::first::first_goal;
use index_laws::rules_with_applications_are_compatible;
use lf_terms::Signature;
use meta_goals::Goals;
use rule_index::Index;
use rule_sets::{Ordered, RuleBook, Sets};
use std::alloc::Global;
use std::marker::Model;

/// A signature, a book of rules over it, its active rules in the order in which they are tried, and their index. A contract sees an
/// `LfBook`, which `is_formed` describes.
#[derive(Drop)]
pub struct GoalBook<'a> {
    sig: &'a Signature,
    rules: &'a RuleBook,
    ordered: Ordered,
    index: Index,
}

impl<'a> Model for GoalBook<'a> {
    ghost use Rattle.goal_book.specs.GoalBooks.{LfBook, KeepsGoalBook};

    ghost Value = { LfBook };

    ghost use Rattle.std.specs.Coded.{codes};
    ghost use Rattle.lf_definitions.specs.Codes.{signature_code};

    ghost coded = { Prim.hlevel (codes, signature_code) };

    ghost view = { λ a. record { sig = a.sig.now; book = a.rules.now; numbers = a.ordered } };

    ghost invariant = { λ a. KeepsGoalBook (record { sig = a.sig.now; book = a.rules.now; numbers = a.ordered }) a.index };
}

impl<'a> GoalBook<'a> {
    /// The book of the rules of these sets, and of the built-in rules.
    pub fn make(
        alloc: Global,
        sig: &'a Signature,
        rules: &'a RuleBook,
        sets: &Sets,
    ) -> Result<GoalBook<'a>, NoMemory>
        requires { IsOver sig.now rules.now }
        ensures { IfOk result (λ book. IsBookOf sig.now rules.now sets.now book) }
    {
        let ordered = rules.active(alloc, sets)?;
        let index = Index::build(alloc, sig, rules, &ordered)?;
        Ok(GoalBook {
            sig,
            rules,
            ordered,
            index,
        })
    }

    /// A law: the book of rules is over the signature, and the active rules are in the order in which they are tried. It does nothing.
    pub fn is_formed(&self)
        ensures { IsGoalBook self.now }
    {
        let _ = &self.ordered;
    }

    /// The signature.
    pub fn sig(&self) -> &Signature
        ensures { result.now ≡ self.now.sig }
    {
        self.sig
    }

    /// The book of rules.
    pub fn rules(&self) -> &RuleBook
        ensures { result.now ≡ self.now.book }
    {
        self.rules
    }

    /// The numbers of the active rules, in the order in which they are tried.
    pub fn numbers(&self) -> &[u32]
        ensures { result.now ≡ self.now.numbers }
    {
        self.ordered.as_slice()
    }

    /// The numbers of those active rules that fit the first goal of a list, in their order, by one look-up. None where there is no goal.
    pub fn fitting(&self, alloc: Global, goals: &Goals) -> Result<Ids, NoMemory>
        ensures { IfOk result (λ numbers. numbers ≡ fitting_in self.now (goals_of goals.now)) }
    {
        match first_goal(goals) {
            None => Ok(Ids::new(alloc)),
            Some(goal) => self.index.lookup(alloc, &goal.target),
        }
    }

    /// The first lawful application of the first normalising rule that has one, among the rules that fit. Later rules are not run.
    pub fn first_lawful(
        &self,
        alloc: Global,
        goals: &Goals,
        fitting: &Ids,
    ) -> Result<Option<App>, NoMemory>
        requires goals { ShapedGoals self.now.sig (all_goals (goals_of goals.now)) }
        requires fitting { fitting.now ≡ fitting_in self.now (goals_of goals.now) }
        ensures found { IfOk result (λ found. option_map seen_application found ≡ first_lawful self.now.sig (rules_in self.now) (next_id (goals_of goals.now)) (goals_of goals.now)) }
        ensures shapes { IfOk result (λ found. KnowShapes (all_goals (goals_of goals.now)) (option_to_list found)) }
    {
        rules_with_applications_are_compatible();
        let query = Query {
            alloc,
            sig: self.sig,
            rules: self.rules,
            goals,
        };
        let found = first_of(&query, Wanted::Lawful, fitting.as_slice())?;
        Ok(found)
    }

    /// The first application of the first safe rule that has one which assigns no goal but the first, among the rules that fit. Later
    /// rules are not run.
    pub fn first_safe(
        &self,
        alloc: Global,
        goals: &Goals,
        fitting: &Ids,
    ) -> Result<Option<App>, NoMemory>
        requires goals { ShapedGoals self.now.sig (all_goals (goals_of goals.now)) }
        requires fitting { fitting.now ≡ fitting_in self.now (goals_of goals.now) }
        ensures found { IfOk result (λ found. option_map seen_application found ≡ first_safe self.now.sig (rules_in self.now) (next_id (goals_of goals.now)) (goals_of goals.now)) }
        ensures shapes { IfOk result (λ found. KnowShapes (all_goals (goals_of goals.now)) (option_to_list found)) }
    {
        rules_with_applications_are_compatible();
        let query = Query {
            alloc,
            sig: self.sig,
            rules: self.rules,
            goals,
        };
        let found = first_of(&query, Wanted::Safe, fitting.as_slice())?;
        Ok(found)
    }

    /// All applications of the unsafe and the safe rules that fit, by falling percentage, then by rising number of the rule, then in the
    /// rule's order.
    pub fn choices(
        &self,
        alloc: Global,
        goals: &Goals,
        fitting: &Ids,
    ) -> Result<Vec<Choice>, NoMemory>
        requires goals { ShapedGoals self.now.sig (all_goals (goals_of goals.now)) }
        requires fitting { fitting.now ≡ fitting_in self.now (goals_of goals.now) }
        ensures choices { IfOk result (λ found. map seen_choice found.items ≡ choices self.now.sig (rules_in self.now) (next_id (goals_of goals.now)) (goals_of goals.now)) }
        ensures shapes { IfOk result (λ found. KnowShapes (all_goals (goals_of goals.now)) (map (λ choice. choice.app) found.items)) }
    {
        rules_with_applications_are_compatible();
        let query = Query {
            alloc,
            sig: self.sig,
            rules: self.rules,
            goals,
        };
        let found = choices(&query, fitting.as_slice())?;
        Ok(found)
    }
}
