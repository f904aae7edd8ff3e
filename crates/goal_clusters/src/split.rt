//! The clusters of a list of goals.

ghost use Rattle.std.specs.Prelude.{◌≡◌, ◌++◌, IfOk, length, map};
ghost use Rattle.lf_definitions.specs.GoalLists.{all_goals, ids, AreDistinct};
ghost use Rattle.goal_lists.specs.Numbering.{renumbered, numbered_pairs};
ghost use Rattle.application_laws.specs.Conditions.{goals_inside};
ghost use Rattle.applications.specs.Candidates.{counting_from};
ghost use Rattle.clusters.specs.Clusters.{classes, is_one_of, clusters};
ghost use Rattle.meta_goals.specs.GoalsOf.{goals_of};
ghost use Rattle.goal_clusters.specs.Dealing.{own_roots, part_at, numbers_of, PartsAreDistinct};

use crate::deal::deal;
use crate::mentions::roots_of;
use basics::{NoMemory, Pairs};
use lf_terms::GoalList;
use meta_goals::Goals;
use meta_goals::rename::rename;
use std::alloc::Global;

/// One cluster: its goals, numbered by their places, and the pairs of old numbers with new ones, in this order.
#[derive(Drop)]
pub struct Cluster {
    pub goals: Goals,
    pub renaming: Pairs,
}

/// The clusters of a list: goals that mention each other, directly or through others, in the order of their
/// first goals. It takes time that grows nearly as the number of goals and the size of what they mention.
pub fn clusters(alloc: Global, goals: &Goals) -> Result<Vec<Cluster>, NoMemory>
    requires { AreDistinct (all_goals (goals_of goals.now)) }
    ensures goals { IfOk result (λ found. map (λ c. goals_of c.goals) found.items ≡ clusters (goals_of goals.now)) }
    ensures renaming { IfOk result (λ found. map (λ c. c.renaming) found.items ≡ map (λ class. numbered_pairs 0 (ids (all_goals (goals_inside (is_one_of class) (goals_of goals.now))))) (classes (all_goals (goals_of goals.now)))) }
{
    let found_roots = roots_of(alloc, goals)?;
    let roots = found_roots.as_slice();
    let proofs = deal(alloc, roots, 0, &goals.proofs)?;
    let witnesses = deal(alloc, roots, goals.proofs.len(), &goals.witnesses)?;
    let found = numbered_parts(alloc, roots, proofs.as_slice(), witnesses.as_slice())?;
    Ok(found)
}

// The parts of the places that are their own roots, each numbered by its places.
fn numbered_parts(
    alloc: Global,
    roots: &[usize],
    proofs: &[GoalList],
    witnesses: &[GoalList],
) -> Result<Vec<Cluster>, NoMemory>
    requires as_many_proofs { length proofs.now ≡ length roots.now }
    requires as_many_witnesses { length witnesses.now ≡ length roots.now }
    requires distinct { PartsAreDistinct proofs.now witnesses.now }
    ensures goals { IfOk result (λ found. map (λ c. goals_of c.goals) found.items ≡ map (λ r. renumbered (part_at proofs.now witnesses.now r)) (own_roots roots.now (counting_from 0 (length roots.now)))) }
    ensures renaming { IfOk result (λ found. map (λ c. c.renaming) found.items ≡ map (λ r. numbered_pairs 0 (numbers_of (part_at proofs.now witnesses.now r))) (own_roots roots.now (counting_from 0 (length roots.now)))) }
{
    let mut found = Vec::new(alloc);
    for place in 0..roots.len() {
        if roots[place] == place {
            found.push(numbered_part(alloc, &proofs[place], &witnesses[place])?)?;
        }
    }
    Ok(found)
}

// One part, numbered by its places.
fn numbered_part(
    alloc: Global,
    proofs: &GoalList,
    witnesses: &GoalList,
) -> Result<Cluster, NoMemory>
    requires { AreDistinct (proofs.now ++ witnesses.now) }
    ensures goals { IfOk result (λ c. goals_of c.goals ≡ renumbered (record { proofs = proofs.now; witnesses = witnesses.now })) }
    ensures renaming { IfOk result (λ c. c.renaming ≡ numbered_pairs 0 (ids (proofs.now ++ witnesses.now))) }
{
    let part = Goals {
        proofs: proofs.copy(alloc)?,
        witnesses: witnesses.copy(alloc)?,
    };
    let (goals, renaming) = rename(alloc, &part)?;
    Ok(Cluster { goals, renaming })
}
