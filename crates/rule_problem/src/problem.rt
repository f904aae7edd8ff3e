//! The problem of a book.

use crate::branching::branches_of;
use crate::seen::SeenGoals;
use basics::NoMemory;
use goal_book::GoalBook;
use goal_expand::alternatives;
use lf_terms::goal::same_goals;
use meta_goals::Goals;
use std::alloc::Global;
use tree_steps::{Branches, Problem};

/// The problem of a book of rules: its nodes are shaped lists of goals that aren't empty.
#[derive(Clone, Copy)]
pub struct RuleProblem<'a, 'b> {
    /// Where memory comes from.
    pub alloc: Global,
    /// The book whose rules are tried.
    pub book: &'a GoalBook<'b>,
}

impl<'a, 'b> Problem for RuleProblem<'a, 'b> {
    ghost use Rattle.meta_goals.specs.GoalsOf.{goals_of};
    ghost use Rattle.rule_problem.specs.Problems.{branches_in, branches_low, IsNode};

    type Node = Goals;

    type Seen = SeenGoals;

    ghost is_own = { λ problem node. IsNode problem.book.now node };

    ghost seen = { λ problem node. goals_of node };

    ghost branches = { λ problem node. branches_in problem.book.now node };

    fn expand(&self, node: &Goals) -> Result<Branches<Goals>, NoMemory> {
        self.book.is_formed();
        self.book.sig().is_formed();
        let found = alternatives(self.alloc, self.book, node)?;
        let made = branches_of(self.alloc, found)?;
        Ok(made)
    }

    fn copy(&self, node: &Goals) -> Result<Goals, NoMemory> {
        let proofs = node.proofs.copy(self.alloc)?;
        let witnesses = node.witnesses.copy(self.alloc)?;
        Ok(Goals { proofs, witnesses })
    }

    fn same(&self, first: &Goals, second: &Goals) -> bool {
        same_goals(&first.proofs, &second.proofs) && same_goals(&first.witnesses, &second.witnesses)
    }

    ghost percentages = { λ problem node. branches_low problem.book.now node };
}
