//! Tuples of which nothing comes.

ghost use Rattle.std.specs.Prelude.{◌≡◌, ◌<◌, ◌++◌, map, length, All, IfOk, OnOk};
ghost use Rattle.lf_definitions.specs.GoalLists.{all_goals, ids};
ghost use Rattle.meta_goals.specs.GoalsOf.{goals_of};
ghost use Rattle.build_shared.specs.Seen.{seen_hypothesis};
ghost use Rattle.build_forward.specs.Onwards.{IsAtomIn};
ghost use Rattle.build_forward.specs.Sieves.{IsSieve, Awaits};

use crate::equations::equations_between;
use crate::onward::Onward;
use basics::{Ids, NoMemory};
use build_shared::Hypothesis;
use lf_terms::{Atom, GoalList};
use meta_goals::Goals;
use meta_goals::instantiate::instantiate_atom;
use meta_unify::{Unified, unify};
use std::alloc::Global;

// What goes onward, the types of its premises in what the constant's type is opened to for some tuple, and the numbers of all goals. Nothing
// mentions a premise, so these types are the same for all tuples.
#[derive(Clone, Copy)]
pub struct Sieve<'a> {
    pub onward: &'a Onward<'a>,
    pub premises: &'a [Atom],
    pub frozen: &'a Ids,
}

// What the first premises, once these hypotheses stand for them, leave of the next one. None where they are refused: then so are all
// premises, whatever hypotheses come after these.
pub fn awaited_after(sieve: &Sieve<'_>, chosen: &[Hypothesis]) -> Result<Option<Atom>, NoMemory>
    requires sieve { IsSieve sieve.now }
    requires chosen { All (IsAtomIn sieve.now.onward.now.usage.now) (map seen_hypothesis chosen.now) }
    requires few { length chosen.now < length sieve.now.onward.now.premises.now }
    ensures { IfOk result (λ found. Awaits sieve.now.onward.now (map seen_hypothesis chosen.now) found) }
{
    let alloc = sieve.onward.usage.alloc;
    let equations = equations_between(alloc, sieve.premises, chosen)?;
    let unified = unify(alloc, sieve.frozen, &equations)?;
    let Unified::Solved(assign) = &unified else {
        return Ok(None);
    };
    let premises = sieve.premises;
    let place = chosen.len();
    let atom = instantiate_atom(alloc, assign, &premises[place])?;
    Ok(Some(atom))
}

// The numbers of all goals of a list.
pub fn all_numbers(alloc: Global, goals: &Goals) -> Result<Ids, NoMemory>
    ensures { IfOk result (λ numbers. numbers ≡ ids (all_goals (goals_of goals.now))) }
{
    let mut numbers = Ids::new(alloc);
    add_numbers(&goals.proofs, &mut numbers)?;
    add_numbers(&goals.witnesses, &mut numbers)?;
    Ok(numbers)
}

fn add_numbers(goals: &GoalList, numbers: &mut Ids) -> Result<(), NoMemory>
    ensures { OnOk result (numbers.new ≡ numbers.old ++ ids goals.now) }
{
    let items = goals.as_slice();
    for i in 0..items.len() {
        let item = &items[i];
        numbers.push(item.id)?;
    }
    Ok(())
}
