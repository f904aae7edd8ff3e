//! Whole assignments.

ghost use Rattle.std.specs.Prelude.{◌≡◌, ◌++◌, [], ◌∷◌, None, IfOk, OnOk};
ghost use Rattle.lf_definitions.specs.Syntax.{LfTerm};
ghost use Rattle.lf_definitions.specs.Instantiation.{Instantiated};
ghost use Rattle.lf_terms.specs.Terms.{term_of};
ghost use Rattle.meta_goals.specs.Bindings.{assigning, binding_for};
ghost use Rattle.meta_goals.specs.Instantiates.{Instantiates, TermIsShaped};
ghost use Rattle.build_shared.specs.Attempts.{goal_at, CompletedAt};
ghost use Rattle.build_shared.specs.Completed.{seen_completed};
ghost use Rattle.build_shared.specs.Whole.{goal_binding, with_body, IsWhole};

use crate::attempt::Attempt;
use crate::completing::Completed;
use basics::NoMemory;
use lf_terms::shape_of::shapes_of;
use lf_terms::term::copy;
use meta_goals::instantiate::instantiate;
use meta_goals::{Assign, Entry};
use std::alloc::Global;

/// What a goal becomes, first, and what is assigned to the others, into which that is put; and the others alone.
#[derive(Drop)]
pub struct Whole {
    pub all: Assign,
    pub others: Assign,
}

/// The whole assignment of a candidate whose equations are unified by these entries.
pub fn whole_assignment(
    attempt: &Attempt<'_>,
    entries: &Assign,
    done: &Completed,
) -> Result<Whole, NoMemory>
    requires { CompletedAt attempt.now entries.now (seen_completed done.now) }
    ensures { IfOk result (λ whole. IsWhole attempt.now entries.now (seen_completed done.now) whole) }
{
    let alone = goal_alone(attempt, done)?;
    let mut whole = Whole {
        all: goal_alone(attempt, done)?,
        others: Assign::new(attempt.alloc),
    };
    for place in 0..entries.len() {
        match entries.at(place) {
            None => unreachable!(),
            Some((id, entry)) => add_entry(attempt.alloc, &alone, id, entry, &mut whole)?,
        }
    }
    Ok(whole)
}

// The goal's own entry alone.
fn goal_alone(attempt: &Attempt<'_>, done: &Completed) -> Result<Assign, NoMemory>
    ensures { IfOk result (λ alone. alone ≡ goal_binding (goal_at attempt.now) (term_of done.now.becomes) ∷ []) }
{
    let mut alone = Assign::new(attempt.alloc);
    let shapes = shapes_of(attempt.alloc, &attempt.goal.ctx)?;
    let body = copy(&done.becomes)?;
    alone.push(attempt.goal.id, Entry { shapes, body })?;
    Ok(alone)
}

// Adds an entry with the goal's put into its body.
fn add_entry(
    alloc: Global,
    alone: &Assign,
    id: u32,
    entry: &Entry,
    whole: &mut Whole,
) -> Result<(), NoMemory>
    requires instantiates { Instantiates alone.now (TermIsShaped (term_of entry.now.body)) }
    requires all { binding_for whole.old.all id ≡ None }
    requires others { binding_for whole.old.others id ≡ None }
    ensures { OnOk result ((body : LfTerm) × Instantiated (assigning alone.now) (term_of entry.now.body) body
        × (whole.new.all ≡ whole.old.all ++ with_body id entry.now.shapes body ∷ []) × (whole.new.others ≡ whole.old.others ++ with_body id entry.now.shapes body ∷ [])) }
{
    let body = instantiate(alloc, alone, &entry.body)?;
    let again = copy(&body)?;
    let shapes = entry.shapes.copy()?;
    whole.all.push(id, Entry { shapes, body })?;
    let shapes = entry.shapes.copy()?;
    whole.others.push(
        id,
        Entry {
            shapes,
            body: again,
        },
    )?;
    Ok(())
}
