//! Goals.

ghost use Rattle.std.specs.Prelude.{◌≡◌, ◌↔◌, ◌++◌, [], ◌∷◌, IsTrue, IfOk, OnOk, OnErr, length, map, option_map};
ghost use Rattle.lf_definitions.specs.ShapedGoals.{shapes_of_goals};
ghost use Rattle.lf_terms.specs.GoalNumbers.{goal_numbered};
ghost use Rattle.lf_terms.specs.Targets.{goal_of};

use crate::goal_numbers::{find_anywhere, find_rising, is_past, numbers_rise};
use crate::same::{same_atom, same_tys};
use crate::shape::{MetaShape, MetaShapes};
use crate::shape_of::shapes_of;
use crate::ty::{Atom, Ctx};
use basics::NoMemory;
use std::alloc::Global;
use std::marker::Model;

/// A goal: its number, which is that of its metavariable, its context, and its target in that context.
#[derive(Drop)]
pub struct Goal {
    pub id: u32,
    pub ctx: Ctx,
    pub target: Atom,
}

/// Goals, in order. A contract sees the list of them.
#[derive(Drop)]
pub struct GoalList {
    items: Vec<Goal>,
    rises: bool,
}

impl Model for GoalList {
    ghost use Rattle.std.specs.Prelude.{List, IsTrue, map};
    ghost use Rattle.lf_definitions.specs.Typing.{LfGoal};
    ghost use Rattle.lf_definitions.specs.Codes.{goals_code};

    ghost Value = { List LfGoal };

    ghost coded = { goals_code };

    ghost use Rattle.lf_terms.specs.Targets.{goal_of};

    ghost view = { λ a. map goal_of a.items.items };

    ghost use Rattle.lf_terms.specs.GoalNumbers.{NumbersRise};

    ghost invariant = { λ a. IsTrue a.rises → NumbersRise (map goal_of a.items.items) };
}

impl Goal {
    /// An equal goal, which shares its context and the arguments of its target.
    pub fn copy(&self) -> Result<Goal, NoMemory>
        ensures { IfOk result (λ goal. goal_of goal ≡ goal_of self.now) }
    {
        let ctx = self.ctx.copy()?;
        let target = self.target.copy()?;
        Ok(Goal {
            id: self.id,
            ctx,
            target,
        })
    }
}

/// Whether two goals are equal, symbol by symbol, with their numbers. It takes no memory.
pub fn same_goal(a: &Goal, b: &Goal) -> bool
    ensures { IsTrue result ↔ (goal_of a.now ≡ goal_of b.now) }
{
    if a.id != b.id {
        return false;
    }
    if !same_atom(&a.target, &b.target) {
        return false;
    }
    same_tys(&a.ctx, &b.ctx)
}

/// Whether two lists have equal goals at each place. It takes no memory.
pub fn same_goals(a: &GoalList, b: &GoalList) -> bool
    ensures { IsTrue result ↔ (a.now ≡ b.now) }
{
    let goals = a.as_slice();
    let others = b.as_slice();
    if goals.len() != others.len() {
        return false;
    }
    for i in 0..goals.len() {
        if !same_goal(&goals[i], &others[i]) {
            return false;
        }
    }
    true
}

/// The shapes of goals as metavariables, in their order.
pub fn shapes_of_metas(alloc: Global, goals: &GoalList) -> Result<MetaShapes, NoMemory>
    ensures { IfOk result (λ shapes. shapes ≡ shapes_of_goals goals.now) }
{
    let items = goals.as_slice();
    let mut shapes = Vec::with_capacity(alloc, items.len())?;
    for goal in items {
        let args = shapes_of(alloc, &goal.ctx)?;
        shapes.push(MetaShape { id: goal.id, args })?;
    }
    Ok(MetaShapes::from_vec(shapes))
}

impl GoalList {
    /// No goals. It takes no memory.
    pub fn new(alloc: Global) -> GoalList
        ensures { result ≡ [] }
    {
        GoalList {
            items: Vec::new(alloc),
            rises: true,
        }
    }

    /// The goals of a vector, whose numbers are compared in one pass. It takes no memory.
    pub fn from_vec(items: Vec<Goal>) -> GoalList
        ensures { result ≡ map goal_of items.items }
    {
        let rises = numbers_rise(items.as_slice());
        GoalList { items, rises }
    }

    /// The goals as a slice. It takes no memory.
    pub fn as_slice(&self) -> &[Goal]
        ensures { map goal_of result.now ≡ self.now }
    {
        self.items.as_slice()
    }

    /// How many goals there are. It takes no memory.
    pub fn len(&self) -> usize
        ensures { result ≡ length self.now }
    {
        self.items.len()
    }

    /// The first goal of a number, if there is one. Where the numbers rise it stands at the place of its number
    /// or is found by halving, and elsewhere by a walk over the list. It takes no memory.
    pub fn find(&self, id: u32) -> Option<&Goal>
        ensures { option_map (λ g. goal_of g.now) result ≡ goal_numbered self.now id }
    {
        let goals = self.items.as_slice();
        if self.rises {
            find_rising(goals, id)
        } else {
            find_anywhere(goals, id)
        }
    }

    /// Adds a goal at the end. A refusal leaves the list as it was.
    pub fn push(&mut self, goal: Goal) -> Result<(), NoMemory>
        ensures ok { OnOk result (self.new ≡ self.old ++ goal_of goal ∷ []) }
        ensures err { OnErr result (self.new ≡ self.old) }
    {
        let follows = is_past(self.items.as_slice(), &goal);
        self.items.push(goal)?;
        if !follows {
            self.rises = false;
        }
        Ok(())
    }

    /// An equal list, whose goals share what these hold.
    pub fn copy(&self, alloc: Global) -> Result<GoalList, NoMemory>
        ensures { IfOk result (λ goals. goals ≡ self.now) }
    {
        let goals = self.items.as_slice();
        let mut copies = Vec::with_capacity(alloc, goals.len())?;
        for goal in goals {
            copies.push(goal.copy()?)?;
        }
        Ok(GoalList {
            items: copies,
            rises: self.rises,
        })
    }
}
