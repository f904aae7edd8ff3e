//! The parts of an application.

ghost use Rattle.std.specs.Prelude.{◌≡◌, ◌≢◌, AllPairs, IfOk, IfSome, Some, not, nat_eq, option_map};
ghost use Rattle.std.specs.List.{list_any};
ghost use Rattle.applications.specs.Applications.{application_of, completion};
ghost use Rattle.meta_goals.specs.Bindings.{LfBinding, assigning};
ghost use Rattle.meta_goals.specs.Laws.{HaveShapesOf};
ghost use Rattle.build_shared.specs.Attempts.{goals_at, goal_at, candidate_at, among_at, OfferedAt, UnifiedAt, CompletedAt};
ghost use Rattle.build_shared.specs.Completed.{seen_completed};
ghost use Rattle.build_shared.specs.Whole.{bindings_below};
ghost use Rattle.build_shared.specs.Answers.{seen_parts, where_typed_at};

use crate::attempt::Attempt;
use crate::below::add_below;
use crate::completing::{Completed, complete};
use crate::remaining::what_remains;
use crate::testing::are_typed;
use crate::unifying::unified;
use crate::whole::whole_assignment;
use basics::NoMemory;
use lf_terms::GoalList;
use meta_goals::Assign;
use meta_goals::mentions::term_mentions;
use std::alloc::Global;

/// An application but for its label.
#[derive(Drop)]
pub struct Parts {
    pub assign: Assign,
    pub proofs: GoalList,
    pub witnesses: GoalList,
    pub assigns_others: bool,
}

/// What comes of a candidate, if it counts. Each entry has the shapes of its goal's context.
pub fn parts_of(attempt: &Attempt<'_>) -> Result<Option<Parts>, NoMemory>
    requires { OfferedAt attempt.now }
    ensures found { IfOk result (λ found. option_map (seen_parts (candidate_at attempt.now).label) found
        ≡ application_of attempt.now.sig.now attempt.now.first (goals_at attempt.now) (goal_at attempt.now) (candidate_at attempt.now)) }
    ensures shapes { IfOk result (λ found. IfSome found (λ parts. HaveShapesOf (goals_at attempt.now) parts.assign)) }
{
    match unified(attempt)? {
        None => Ok(None),
        Some(entries) => parts_by(attempt, &entries),
    }
}

// What comes of it once its equations are unified.
fn parts_by(attempt: &Attempt<'_>, entries: &Assign) -> Result<Option<Parts>, NoMemory>
    requires { UnifiedAt attempt.now entries.now }
    ensures found { IfOk result (λ found. option_map (seen_parts (candidate_at attempt.now).label) found
        ≡ where_typed_at attempt.now entries.now (completion attempt.now.first (among_at attempt.now) (goal_at attempt.now) (candidate_at attempt.now) (assigning entries.now) (candidate_at attempt.now).outcome)) }
    ensures shapes { IfOk result (λ found. IfSome found (λ parts. HaveShapesOf (goals_at attempt.now) parts.assign)) }
{
    match complete(attempt, entries)? {
        None => Ok(None),
        Some(done) => {
            if term_mentions(&done.becomes, attempt.goal.id) {
                return Ok(None);
            }
            parts_with(attempt, entries, &done)
        }
    }
}

// What comes of it once it is known what the goal becomes.
fn parts_with(
    attempt: &Attempt<'_>,
    entries: &Assign,
    done: &Completed,
) -> Result<Option<Parts>, NoMemory>
    requires { CompletedAt attempt.now entries.now (seen_completed done.now) }
    ensures found { IfOk result (λ found. option_map (seen_parts (candidate_at attempt.now).label) found ≡ where_typed_at attempt.now entries.now (Some (seen_completed done.now))) }
    ensures shapes { IfOk result (λ found. IfSome found (λ parts. HaveShapesOf (goals_at attempt.now) parts.assign)) }
{
    let whole = whole_assignment(attempt, entries, done)?;
    let left = what_remains(attempt, done, &whole)?;
    if !are_typed(attempt, &whole.all, &left.list)? {
        return Ok(None);
    }
    let assign = entries_below(attempt.alloc, attempt.first, &whole.all)?;
    let assigns_others = assigns_another(&assign, attempt.goal.id);
    Ok(Some(Parts {
        assign,
        proofs: left.proofs,
        witnesses: left.witnesses,
        assigns_others,
    }))
}

// The entries of numbers below another.
fn entries_below(alloc: Global, first: u32, entries: &Assign) -> Result<Assign, NoMemory>
    requires { AllPairs (λ (b : LfBinding) c. b.number ≢ c.number) entries.now }
    ensures { IfOk result (λ below. below ≡ bindings_below first entries.now) }
{
    let mut below = Assign::new(alloc);
    add_below(first, entries, &mut below)?;
    Ok(below)
}

// Whether another goal is assigned.
fn assigns_another(entries: &Assign, goal: u32) -> bool
    ensures { result ≡ list_any (λ (b : LfBinding). not (nat_eq b.number goal)) entries.now }
{
    for place in 0..entries.len() {
        match entries.at(place) {
            None => unreachable!(),
            Some((id, _)) => {
                if id != goal {
                    return true;
                }
            }
        }
    }
    false
}
