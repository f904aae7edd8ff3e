//! What comes after an alternative.

ghost use Rattle.std.specs.Prelude.{◌≡◌, map, IfOk};
ghost use Rattle.lf_definitions.specs.GoalLists.{all_goals};
ghost use Rattle.meta_goals.specs.Bindings.{assigned_of};
ghost use Rattle.meta_goals.specs.GoalsOf.{goals_of};
ghost use Rattle.meta_goals.specs.Laws.{HaveShapesOf};
ghost use Rattle.build_shared.specs.Seen.{seen_application};
ghost use Rattle.proof_replay.specs.Naming.{seen_next, left_after, MayCome};

use basics::NoMemory;
use build_shared::App;
use build_shared::numbers::next_number;
use goal_advance::advance::advance;
use goal_advance::follow::follow;
use goal_expand::Normed;
use lf_terms::Signature;
use meta_goals::{Assign, Goals};
use std::alloc::Global;

/// The list after an alternative, and what it assigns to goals of the list before.
#[derive(Drop)]
pub struct Next {
    pub goals: Goals,
    pub build: Assign,
}

/// What comes after an application to the normal form of a list.
pub(crate) fn after_app(
    alloc: Global,
    sig: &Signature,
    goals: &Goals,
    normed: &Normed,
    app: &App,
) -> Result<Next, NoMemory>
    requires { MayCome sig.now (goals_of goals.now) (goals_of normed.now.goals) normed.now.build app.now }
    ensures found { IfOk result (λ next. seen_next next ≡ left_after (goals_of goals.now) (goals_of normed.now.goals) (map assigned_of normed.now.build) (seen_application app.now)) }
    ensures shapes { IfOk result (λ next. HaveShapesOf (all_goals (goals_of goals.now)) next.build) }
{
    let first = next_number(goals)?;
    let list = advance(alloc, sig, &normed.goals, app)?;
    let build = follow(alloc, first, &normed.build, &app.assign)?;
    Ok(Next { goals: list, build })
}
