//! New goals with one more hypothesis.

ghost use Rattle.std.specs.Prelude.{◌≡◌, ◌<◌, length, All, IfOk, is_some, option_map};
ghost use Rattle.std.specs.List.{list_all};
ghost use Rattle.lf_definitions.specs.Syntax.{no_args, arg, joined};
ghost use Rattle.lf_definitions.specs.Typing.{LfGoal};
ghost use Rattle.lf_terms.specs.Targets.{goal_of};
ghost use Rattle.lf_terms.specs.Terms.{term_of};
ghost use Rattle.lf_terms.specs.Types.{type_of, atom_of};
ghost use Rattle.applications.specs.Methods.{adds};
ghost use Rattle.applications.specs.OpenedTypes.{kept_entries};
ghost use Rattle.applications.specs.Applications.{completion, goal_with};
ghost use Rattle.meta_goals.specs.Bindings.{assigning};
ghost use Rattle.meta_openings.specs.Tables.{AreTables};
ghost use Rattle.build_shared.specs.Attempts.{among_at, goal_at, candidate_at, UnifiedAt};
ghost use Rattle.build_shared.specs.Completed.{seen_completed};
ghost use Rattle.build_shared.specs.Added.{with_one_more, CanAdd};
ghost use Rattle.build_shared.specs.Seen.{seen_atom};

use crate::adding_tests::may_be_added;
use crate::attempt::Attempt;
use crate::completing::{Completed, head_applied};
use crate::dropping::without;
use crate::hypotheses::{places, raised};
use basics::{Ids, NoMemory};
use lf_terms::shape_of::shapes_of;
use lf_terms::{Atom, Ctx, Goal, GoalList, Head, Term, Terms, Ty, Tys};
use meta_goals::Assign;
use meta_goals::instantiate::instantiate_atom;
use meta_openings::entries::{among_kept, kept_entries};
use meta_openings::fresh::number_after;
use meta_openings::lists::{followed, joined};
use meta_openings::places::{Places, places_of};
use meta_openings::variables::kept_variables;
use std::alloc::Global;

/// What the goal becomes where the head applied to its terms is one more hypothesis of a new goal, if it may be added. A place that is none
/// of the context's is not kept.
pub fn with_hypothesis(
    attempt: &Attempt<'_>,
    entries: &Assign,
    kept: &Ids,
) -> Result<Option<Completed>, NoMemory>
    requires { UnifiedAt attempt.now entries.now }
    ensures { IfOk result (λ done. option_map seen_completed done
        ≡ completion attempt.now.first (among_at attempt.now) (goal_at attempt.now) (candidate_at attempt.now) (assigning entries.now) (adds kept.now)) }
{
    let all = places(attempt.alloc, &attempt.goal.ctx)?;
    let dropped = without(attempt.alloc, kept, &all)?;
    let present = without(attempt.alloc, &dropped, &all)?;
    with_places(attempt, entries, &present)
}

// The same where the kept places are places of the context.
fn with_places(
    attempt: &Attempt<'_>,
    entries: &Assign,
    kept: &Ids,
) -> Result<Option<Completed>, NoMemory>
    requires unified { UnifiedAt attempt.now entries.now }
    requires places { All (λ place. place < length attempt.now.goal.now.ctx) kept.now }
    ensures { IfOk result (λ done. option_map seen_completed done
        ≡ completion attempt.now.first (among_at attempt.now) (goal_at attempt.now) (candidate_at attempt.now) (assigning entries.now) (adds kept.now)) }
{
    let opened = &attempt.candidate.opened;
    if !are_assigned(entries, &opened.fresh) {
        return Ok(None);
    }
    let fact = instantiate_atom(attempt.alloc, entries, &opened.conclusion)?;
    if !may_be_added(attempt.alloc, attempt.goal, kept, &fact)? {
        return Ok(None);
    }
    let number = number_after(attempt.first, opened.fresh.len())?;
    let proof = head_applied(attempt, entries)?;
    let done = one_more(attempt.alloc, attempt.goal, kept, number, fact, proof)?;
    Ok(Some(done))
}

// Whether each goal is assigned.
fn are_assigned(entries: &Assign, goals: &GoalList) -> bool
    ensures { result ≡ list_all (λ (g : LfGoal). is_some (assigning entries.now g.id)) goals.now }
{
    let items = goals.as_slice();
    for i in 0..items.len() {
        match entries.find(items[i].id) {
            None => return false,
            Some(_) => {}
        }
    }
    true
}

// The new goal with this number, and what the old one becomes.
fn one_more(
    alloc: Global,
    goal: &Goal,
    kept: &Ids,
    number: u32,
    fact: Atom,
    proof: Term,
) -> Result<Completed, NoMemory>
    requires { CanAdd (goal_of goal.now) kept.now (seen_atom fact) }
    ensures { IfOk result (λ done. seen_completed done ≡ with_one_more number (goal_of goal.now) kept.now (seen_atom fact) (term_of proof)) }
{
    let places = places_of(alloc, kept, goal.ctx.len())?;
    let entries = kept_entries(&places, &goal.ctx)?;
    let shapes = shapes_of(alloc, &goal.ctx)?;
    let variables = kept_variables(&places, &shapes, 0)?;
    let added = added_goal(&places, goal, &entries, number, fact)?;
    let mut more = GoalList::new(alloc);
    more.push(added)?;
    let args = with_last(alloc, &variables, proof)?;
    let becomes = Term::At(Head::Meta(number), args);
    Ok(Completed { becomes, more })
}

// The new goal: its context is the kept entries and then the fact, and its target is the goal's, as both are seen there.
fn added_goal(
    places: &Places<'_>,
    goal: &Goal,
    entries: &Ctx,
    number: u32,
    fact: Atom,
) -> Result<Goal, NoMemory>
    requires tables { AreTables places.now (length goal.now.ctx) }
    requires entries { entries.now ≡ kept_entries places.now.kept.now 0 goal.now.ctx }
    requires can { CanAdd (goal_of goal.now) places.now.kept.now (seen_atom fact) }
    ensures { IfOk result (λ added. goal_of added ≡ goal_with number (goal_of goal.now) places.now.kept.now (seen_atom fact)) }
{
    let count = goal.ctx.len();
    let hypothesis = among_kept(places, count, type_of_atom(fact))?;
    let inside = among_kept(places, count, type_of_atom(goal.target.copy()?))?;
    let raised_target = raised(places.alloc, 1, &inside)?;
    let mut last = Vec::new(places.alloc);
    last.push(hypothesis)?;
    let last = Tys::from_vec(places.alloc, last)?;
    let ctx = followed(places.alloc, entries, &last)?;
    let target = Atom {
        family: raised_target.family,
        args: raised_target.args,
    };
    Ok(Goal {
        id: number,
        ctx,
        target,
    })
}

// A family with arguments as a type.
fn type_of_atom(atom: Atom) -> Ty
    ensures { type_of result ≡ atom_of atom }
{
    Ty {
        binders: Tys::new(),
        family: atom.family,
        args: atom.args,
    }
}

// A list of terms and one more.
fn with_last(alloc: Global, first: &Terms, last: Term) -> Result<Terms, NoMemory>
    ensures { IfOk result (λ terms. terms ≡ joined first.now (arg (term_of last) no_args)) }
{
    let mut one = Vec::new(alloc);
    one.push(last)?;
    let one = Terms::from_vec(alloc, one)?;
    joined(alloc, first, &one)
}
