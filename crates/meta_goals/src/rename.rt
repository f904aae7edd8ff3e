//! Lists of goals that are numbered by their places.

ghost use Rattle.std.specs.Prelude.{◌≡◌, ◌≢◌, ◌++◌, ◌+◌, AllPairs, IfOk, OnOk, length, map};
ghost use Rattle.lf_definitions.specs.GoalLists.{all_goals, ids, AreDistinct};
ghost use Rattle.lf_definitions.specs.Instantiation.{rename_goal};
ghost use Rattle.head_laws.specs.Renumbering.{place_of_number};
ghost use Rattle.goal_lists.specs.Numbering.{renumbered, numbered_pairs};
ghost use Rattle.meta_goals.specs.GoalsOf.{goals_of};

use crate::goals::Goals;
use crate::places::Places;
use crate::renumber::renumbered_goal;
use basics::{NoMemory, Pairs};
use lf_terms::GoalList;
use std::alloc::Global;

/// The goals with their places as numbers, 0, 1 and so on, and the pairs of old numbers with new ones, in
/// this order. It takes time that grows with the size of the goals, and shares what mentions no
/// metavariable.
pub fn rename(alloc: Global, goals: &Goals) -> Result<(Goals, Pairs), NoMemory>
    requires { AreDistinct (all_goals (goals_of goals.now)) }
    ensures goals { IfOk result (λ r. goals_of r.0 ≡ renumbered (goals_of goals.now)) }
    ensures pairs { IfOk result (λ r. r.1 ≡ numbered_pairs 0 (ids (all_goals (goals_of goals.now)))) }
{
    let mut places = Places::new(alloc);
    let mut pairs = Pairs::new(alloc);
    number(&mut places, &mut pairs, &goals.proofs)?;
    number(&mut places, &mut pairs, &goals.witnesses)?;
    let proofs = renumbered_list(alloc, &places, &goals.proofs)?;
    let witnesses = renumbered_list(alloc, &places, &goals.witnesses)?;
    Ok((Goals { proofs, witnesses }, pairs))
}

// Adds the numbers of goals, each with its place.
fn number(places: &mut Places, pairs: &mut Pairs, goals: &GoalList) -> Result<(), NoMemory>
    requires { AllPairs (λ m n. m ≢ n) (places.old ++ ids goals.now) }
    ensures places { OnOk result (places.new ≡ places.old ++ ids goals.now) }
    ensures pairs { OnOk result (pairs.new ≡ pairs.old ++ numbered_pairs (length places.old) (ids goals.now)) }
{
    let items = goals.as_slice();
    for i in 0..items.len() {
        let id = items[i].id;
        pairs.push((id, places.len()))?;
        places.add(id)?;
    }
    Ok(())
}

// The goals of a list with places for numbers.
fn renumbered_list(alloc: Global, places: &Places, goals: &GoalList) -> Result<GoalList, NoMemory>
    ensures { IfOk result (λ r. r ≡ map (rename_goal (place_of_number places.now)) goals.now) }
{
    let items = goals.as_slice();
    let mut results = Vec::with_capacity(alloc, items.len())?;
    for i in 0..items.len() {
        results.push(renumbered_goal(alloc, places, &items[i])?)?;
    }
    Ok(GoalList::from_vec(results))
}
