//! What a goal becomes.

ghost use Rattle.std.specs.Prelude.{◌≡◌, IfOk, option_map};
ghost use Rattle.lf_definitions.specs.Syntax.{at};
ghost use Rattle.lf_terms.specs.Terms.{term_of};
ghost use Rattle.lf_functions.specs.Instances.{instance_of};
ghost use Rattle.applications.specs.Applications.{completion};
ghost use Rattle.meta_goals.specs.Bindings.{assigning};
ghost use Rattle.build_shared.specs.Attempts.{among_at, goal_at, candidate_at, UnifiedAt};
ghost use Rattle.build_shared.specs.Completed.{seen_completed};

use crate::adding::with_hypothesis;
use crate::attempt::Attempt;
use crate::candidate::Outcome;
use basics::NoMemory;
use lf_terms::{GoalList, Term};
use meta_goals::Assign;
use meta_goals::instantiate::instantiate;

/// What a goal becomes, and the new goals.
#[derive(Drop)]
pub struct Completed {
    pub becomes: Term,
    pub more: GoalList,
}

/// What the goal becomes once its candidate's equations are unified, if it becomes anything.
pub fn complete(attempt: &Attempt<'_>, entries: &Assign) -> Result<Option<Completed>, NoMemory>
    requires { UnifiedAt attempt.now entries.now }
    ensures { IfOk result (λ done. option_map seen_completed done
        ≡ completion attempt.now.first (among_at attempt.now) (goal_at attempt.now) (candidate_at attempt.now) (assigning entries.now) (candidate_at attempt.now).outcome) }
{
    match &attempt.candidate.outcome {
        Outcome::Closes => {
            let becomes = head_applied(attempt, entries)?;
            let more = GoalList::new(attempt.alloc);
            Ok(Some(Completed { becomes, more }))
        }
        Outcome::Adds(kept) => with_hypothesis(attempt, entries, kept),
    }
}

/// The head applied to its terms, under the assignment.
pub fn head_applied(attempt: &Attempt<'_>, entries: &Assign) -> Result<Term, NoMemory>
    requires { UnifiedAt attempt.now entries.now }
    ensures { IfOk result (λ term. term_of term
        ≡ instance_of (among_at attempt.now) (assigning entries.now) (at (candidate_at attempt.now).head (candidate_at attempt.now).opened.terms)) }
{
    let args = attempt.candidate.opened.terms.copy()?;
    let term = Term::At(attempt.candidate.head, args);
    instantiate(attempt.alloc, entries, &term)
}
