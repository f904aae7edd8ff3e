//! Which candidates count.

ghost use Rattle.std.specs.Prelude.{◌≡◌, IfOk, IfSome, option_map};
ghost use Rattle.lf_definitions.specs.GoalLists.{all_goals};
ghost use Rattle.lf_terms.specs.Targets.{goal_of};
ghost use Rattle.applications.specs.Applications.{application_of};
ghost use Rattle.build_shared.specs.Attempts.{IsOffered};
ghost use Rattle.build_shared.specs.Conditions.{MayBeUsedFirst, ComesOf};
ghost use Rattle.build_shared.specs.Seen.{seen_candidate, seen_application};
ghost use Rattle.meta_goals.specs.GoalsOf.{goals_of};
ghost use Rattle.meta_goals.specs.Laws.{HaveShapesOf};

use crate::answering::parts_of;
use crate::app::App;
use crate::attempt::Attempt;
use crate::candidate::Candidate;
use crate::first::first_goal;
use basics::NoMemory;
use lf_terms::{Goal, Signature};
use meta_goals::Goals;
use std::alloc::Global;

/// What comes of a candidate for the first goal of a list, with fresh numbers from `first` on: an application where its equations are
/// unified and each assigned body has its goal's type in the list that is left, and nothing elsewhere. Each entry has the shapes of its
/// goal's context.
pub fn application_of(
    alloc: Global,
    sig: &Signature,
    goals: &Goals,
    first: u32,
    candidate: Candidate,
) -> Result<Option<App>, NoMemory>
    requires { MayBeUsedFirst sig.now (goals_of goals.now) first (seen_candidate candidate) }
    ensures found { IfOk result (λ found. ComesOf sig.now (goals_of goals.now) first (seen_candidate candidate) (option_map seen_application found)) }
    ensures shapes { IfOk result (λ found. IfSome found (λ app. HaveShapesOf (all_goals (goals_of goals.now)) app.assign)) }
{
    sig.is_formed();
    match first_goal(goals) {
        None => Ok(None),
        Some(goal) => app_for(alloc, sig, goals, goal, first, candidate),
    }
}

// What comes of a candidate for a goal of a list.
fn app_for(
    alloc: Global,
    sig: &Signature,
    goals: &Goals,
    goal: &Goal,
    first: u32,
    candidate: Candidate,
) -> Result<Option<App>, NoMemory>
    requires { IsOffered sig.now (all_goals (goals_of goals.now)) first (goal_of goal.now) (seen_candidate candidate) }
    ensures found { IfOk result (λ found. option_map seen_application found ≡ application_of sig.now first (all_goals (goals_of goals.now)) (goal_of goal.now) (seen_candidate candidate)) }
    ensures shapes { IfOk result (λ found. IfSome found (λ app. HaveShapesOf (all_goals (goals_of goals.now)) app.assign)) }
{
    let attempt = Attempt {
        alloc,
        sig,
        goals,
        goal,
        first,
        candidate: &candidate,
    };
    match parts_of(&attempt)? {
        None => Ok(None),
        Some(parts) => Ok(Some(App {
            label: candidate.label,
            assign: parts.assign,
            proofs: parts.proofs,
            witnesses: parts.witnesses,
            assigns_others: parts.assigns_others,
        })),
    }
}
