//! What was assigned so far, kept as it was found: a body may mention goals that were assigned later.

ghost use Rattle.std.specs.Prelude.{◌≡◌, List, IfOk, map, All};
ghost use Rattle.lf_definitions.specs.Instantiation.{LfAssigned};
ghost use Rattle.lf_definitions.specs.Shaping.{Scope};
ghost use Rattle.lf_terms.specs.Terms.{term_of};
ghost use Rattle.meta_goals.specs.Bindings.{assigned_of};
ghost use Rattle.meta_unify.specs.Standing.{KnowsContext, Stands, IsWorkable, MentionsNoneBound, Fills};

use crate::mentions::mentions;
use basics::NoMemory;
use lf_terms::Term;
use lf_terms::term::copy;
use meta_goals::instantiate::instantiate;
use meta_goals::{Assign, Entry};
use std::alloc::Global;

// A term with all that is assigned put for its metavariables, until it mentions nothing that is assigned. A body mentions only goals that
// were assigned later, so after each pass one more is mentioned no longer.
pub fn full(alloc: Global, late: &Assign, term: &Term) -> Result<Term, NoMemory>
    requires { IsWorkable late.now (term_of term.now) (term_of term.now) }
    ensures full { IfOk result (λ r. MentionsNoneBound late.now (term_of r)) }
    ensures instance { IfOk result (λ r. Fills late.now (term_of term.now) (term_of r)) }
{
    let mut result = copy(term)?;
    for _ in 0..late.len() {
        if !mentions(late, &result) {
            return Ok(result);
        }
        result = instantiate(alloc, late, &result)?;
    }
    Ok(result)
}

// The entries with all that is assigned put in each, the newest first: each is instantiated once, by those that stand in the answer already.
pub fn resolved(alloc: Global, late: &Assign) -> Result<Assign, NoMemory>
    requires { (Γ : Scope) × (entries : List LfAssigned) × Stands Γ late.now entries }
    ensures entries { IfOk result (λ answer. (Γ : Scope) (entries : List LfAssigned) → Stands Γ late.now entries → map assigned_of answer ≡ entries) }
    ensures contexts { IfOk result (λ answer. (Γ : Scope) (entries : List LfAssigned) → Stands Γ late.now entries → All (KnowsContext Γ) answer) }
{
    let mut answer = Assign::new(alloc);
    let count = late.len();
    for i in 0..count {
        let Some((id, entry)) = late.at(count - 1 - i) else {
            unreachable!();
        };
        let body = instantiate(alloc, &answer, &entry.body)?;
        let shapes = entry.shapes.copy()?;
        answer.push(id, Entry { shapes, body })?;
    }
    Ok(answer)
}
