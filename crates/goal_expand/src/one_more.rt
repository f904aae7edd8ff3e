//! The alternative of one more application.

ghost use Rattle.std.specs.Prelude.{◌≡◌, map, IfOk};
ghost use Rattle.lf_definitions.specs.GoalLists.{all_goals};
ghost use Rattle.meta_goals.specs.Laws.{HaveShapesOf};
ghost use Rattle.applications.specs.Methods.{LfLabel};
ghost use Rattle.build_shared.specs.Seen.{seen_label};
ghost use Rattle.goal_book.specs.Choices.{last_by};
ghost use Rattle.goal_expand.specs.Seen.{seen_last, seen_alternative, last_as};
ghost use Rattle.goal_expand.specs.Progress.{list_given, IsGiven, IsReachedFrom, MayBeNext, after_application};

use crate::alternative::{Alternative, Last};
use crate::given::Given;
use crate::progress::Reached;
use crate::taking::{advanced, build_on};
use basics::NoMemory;
use build_shared::{App, Label};

/// What an application is as a last step: one that is committed, or one that is chosen, which may be postponed.
#[derive(Clone, Copy)]
pub enum Taken {
    Committed,
    Chosen,
    Postponed,
}

/// The alternative of an application after steps that have these labels.
pub fn alternative_of(
    given: &Given<'_, '_>,
    reached: &Option<Reached>,
    norm: Vec<Label>,
    taken: Taken,
    percent: u8,
    app: App,
) -> Result<Alternative, NoMemory>
    requires given { IsGiven given.now }
    requires reached { IsReachedFrom given.now reached.now }
    requires next { MayBeNext given.now reached.now app }
    ensures alternative { IfOk result (λ found. seen_alternative found ≡ after_application given.now reached.now (map seen_label norm.items) (last_as taken (seen_label app.label)) percent app) }
    ensures shapes { IfOk result (λ found. HaveShapesOf (all_goals (list_given given.now)) found.build) }
{
    let goals = advanced(given, reached, &app)?;
    let build = build_on(given, reached, app.assign)?;
    let last = last_of(taken, app.label);
    Ok(Alternative {
        norm,
        last,
        percent,
        goals,
        build,
    })
}

// The last step of this label.
fn last_of(taken: Taken, label: Label) -> Last
    ensures { seen_last result ≡ last_as taken (seen_label label) }
{
    match taken {
        Taken::Committed => Last::Safe(label),
        Taken::Chosen => Last::Unsafe(label),
        Taken::Postponed => Last::Late(label),
    }
}

/// What a choice is, by whether it was postponed.
pub fn chosen_as(late: bool) -> Taken
    ensures { (label : LfLabel) → last_as result label ≡ last_by late label }
{
    if late {
        Taken::Postponed
    } else {
        Taken::Chosen
    }
}
