//! One more application.

ghost use Rattle.std.specs.Prelude.{◌≡◌, map, IfOk, OnOk};
ghost use Rattle.lf_definitions.specs.GoalLists.{all_goals};
ghost use Rattle.meta_goals.specs.Bindings.{assigned_of};
ghost use Rattle.meta_goals.specs.GoalsOf.{goals_of};
ghost use Rattle.meta_goals.specs.Laws.{HaveShapesOf};
ghost use Rattle.alternatives.specs.ListsAfter.{list_after};
ghost use Rattle.alternatives.specs.NormalForms.{has_none};
ghost use Rattle.build_shared.specs.Seen.{seen_application};
ghost use Rattle.goal_expand.specs.Reaching.{MayGoOn, built};
ghost use Rattle.goal_expand.specs.Progress.{list_given, goals_reached, bindings_reached, IsGiven, IsReachedFrom, MayBeNext, IsOneStep};

use crate::given::Given;
use crate::progress::{Progress, Reached, list_after};
use basics::NoMemory;
use build_shared::App;
use goal_advance::advance::advance;
use goal_advance::follow::follow;
use meta_goals::{Assign, Goals};

/// Adds a step.
pub fn add_step(given: &Given<'_, '_>, app: App, made: &mut Progress) -> Result<(), NoMemory>
    requires given { IsGiven given.now }
    requires reached { IsReachedFrom given.now made.old.reached }
    requires next { MayBeNext given.now made.old.reached app }
    ensures { OnOk result (IsOneStep (list_given given.now) app made.old made.new) }
{
    let closed = closes(&app);
    let goals = advanced(given, &made.reached, &app)?;
    let build = build_on(given, &made.reached, app.assign)?;
    made.labels.push(app.label)?;
    made.closed = closed;
    made.reached = Some(Reached { goals, build });
    Ok(())
}

// Whether an application closes the goal: it leaves no proof goal.
fn closes(app: &App) -> bool
    ensures { result ≡ has_none app.now.proofs }
{
    app.proofs.len() == 0
}

/// The list after one more application.
pub fn advanced(
    given: &Given<'_, '_>,
    reached: &Option<Reached>,
    app: &App,
) -> Result<Goals, NoMemory>
    requires { MayBeNext given.now reached.now app.now }
    ensures { IfOk result (λ goals. goals_of goals ≡ list_after (goals_reached (list_given given.now) reached.now) (seen_application app.now)) }
{
    let goals = list_after(given.goals, reached);
    let next = advance(given.alloc, given.book.sig(), goals, app)?;
    Ok(next)
}

/// What was assigned, and then by one more application. Where no step was made this is what the application assigns.
pub fn build_on(
    given: &Given<'_, '_>,
    reached: &Option<Reached>,
    assign: Assign,
) -> Result<Assign, NoMemory>
    requires { MayGoOn given.now.first (list_given given.now) (goals_reached (list_given given.now) reached.now) (bindings_reached reached.now) assign }
    ensures build { IfOk result (λ all. map assigned_of all ≡ built (list_given given.now) (goals_reached (list_given given.now) reached.now) (bindings_reached reached.now) assign) }
    ensures shapes { IfOk result (λ all. HaveShapesOf (all_goals (list_given given.now)) all) }
{
    match reached {
        None => Ok(assign),
        Some(before) => {
            let all = follow(given.alloc, given.first, &before.build, &assign)?;
            Ok(all)
        }
    }
}
