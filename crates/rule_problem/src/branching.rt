//! From alternatives to branches.

ghost use Rattle.std.specs.Prelude.{◌≡◌, map, All, IfOk};
ghost use Rattle.lf_definitions.specs.GoalLists.{all_goals, AreDistinct};
ghost use Rattle.goal_expand.specs.Seen.{seen_alternative};
ghost use Rattle.meta_goals.specs.GoalsOf.{goals_of};
ghost use Rattle.rule_problem.specs.Problems.{as_branch};
ghost use Rattle.tree_steps.specs.Seen.{branch_seen, branches_seen};

use basics::NoMemory;
use goal_clusters::Cluster;
use goal_clusters::split::clusters;
use goal_expand::Alternative;
use meta_goals::Goals;
use std::alloc::Global;
use tree_steps::{Branch, Branches};

// The branches of alternatives, in their order.
pub(crate) fn branches_of(
    alloc: Global,
    found: Vec<Alternative>,
) -> Result<Branches<Goals>, NoMemory>
    requires { All (λ alternative. AreDistinct (all_goals (goals_of alternative.goals))) found.items }
    ensures { IfOk result (λ made. branches_seen goals_of made ≡ map as_branch (map seen_alternative found.items)) }
{
    let mut alternatives = Vec::with_capacity(alloc, found.len())?;
    for alternative in found {
        let branch = branch_of(alloc, alternative)?;
        alternatives.push(branch)?;
    }
    Ok(Branches { alternatives })
}

// The branch of an alternative: its percentage, and the clusters of the goals that it leaves.
fn branch_of(alloc: Global, alternative: Alternative) -> Result<Branch<Goals>, NoMemory>
    requires { AreDistinct (all_goals (goals_of alternative.goals)) }
    ensures { IfOk result (λ made. branch_seen goals_of made ≡ as_branch (seen_alternative alternative)) }
{
    let nodes = nodes_of(alloc, clusters(alloc, &alternative.goals)?)?;
    Ok(Branch {
        percent: alternative.percent,
        nodes,
    })
}

// The goals of clusters.
fn nodes_of(alloc: Global, found: Vec<Cluster>) -> Result<Vec<Goals>, NoMemory>
    ensures { IfOk result (λ nodes. nodes.items ≡ map (λ cluster. cluster.goals) found.items) }
{
    let nodes = found
        .into_iter()
        .map(|cluster| cluster.goals)
        .collect(alloc)?;
    Ok(nodes)
}
