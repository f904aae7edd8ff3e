//! Which applications are wanted.

ghost use Rattle.std.specs.Prelude.{◌≡◌};
ghost use Rattle.build_shared.specs.Seen.{seen_application};
ghost use Rattle.alternatives.specs.NormalForms.{is_lawful};
ghost use Rattle.goal_book.specs.Rules.{phase_of};
ghost use Rattle.goal_book.specs.Queries.{serves, phase_is_tried};

use build_shared::App;
use rule_sets::Phase;

/// What is wanted of rules: a lawful application of one that normalises, or one of a safe rule that assigns no other goal.
#[derive(Clone, Copy)]
pub enum Wanted {
    Lawful,
    Safe,
}

/// Whether a rule of this phase is tried.
pub fn is_tried(wanted: Wanted, phase: Phase) -> bool
    ensures { result ≡ phase_is_tried wanted (phase_of phase) }
{
    match wanted {
        Wanted::Lawful => matches!(phase, Phase::Norm(_)),
        Wanted::Safe => matches!(phase, Phase::Safe(_)),
    }
}

/// Whether an application serves.
pub fn serves(wanted: Wanted, app: &App) -> bool
    ensures { result ≡ serves wanted (seen_application app.now) }
{
    match wanted {
        Wanted::Lawful => is_lawful(app),
        Wanted::Safe => !app.assigns_others,
    }
}

// Whether an application assigns no other goal and leaves no witness and at most one proof goal.
fn is_lawful(app: &App) -> bool
    ensures { result ≡ is_lawful (seen_application app.now) }
{
    !app.assigns_others && app.witnesses.len() == 0 && app.proofs.len() <= 1
}
