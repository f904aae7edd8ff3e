//! Scripts, from the opening list of a type.

ghost use Rattle.std.specs.Prelude.{◌≡◌, [], map, length, IfOk, Some};
ghost use Rattle.lf_definitions.specs.Syntax.{lams, binders_of};
ghost use Rattle.lf_definitions.specs.Signatures.{LfSignature};
ghost use Rattle.lf_definitions.specs.GoalLists.{opening};
ghost use Rattle.lf_definitions.specs.ShapedGoals.{ShapedTypeIn};
ghost use Rattle.lf_terms.specs.Terms.{term_of};
ghost use Rattle.lf_terms.specs.Types.{type_of};
ghost use Rattle.meta_goals.specs.Bindings.{LfBinding, binding_for};
ghost use Rattle.derivations.specs.Replays.{own_term, replay};
ghost use Rattle.goal_book.specs.GoalBooks.{rules_in};
ghost use Rattle.proof_replay.specs.Seen.{seen_step, seen_replayed};
ghost use Rattle.proof_replay.specs.Leading.{Leads, carried};

use crate::finals::finals_of;
use crate::following::{Run, follow};
use crate::replayed::Replayed;
use crate::step::Step;
use basics::NoMemory;
use goal_book::{GoalBook, opening};
use lf_terms::term::copy;
use lf_terms::{Body, Term, Ty};
use meta_goals::Assign;
use std::alloc::Global;

/// Follows a script from the opening list of a theorem's type. A step makes the one list that it names, and costs the size of its own build:
/// the term is made from the last build to the first. A number past its type is out of memory.
pub fn replay(
    alloc: Global,
    book: &GoalBook<'_>,
    ty: &Ty,
    script: &[Step],
) -> Result<Replayed, NoMemory>
    requires { ShapedTypeIn book.now.sig [] [] (type_of ty.now) }
    ensures { IfOk result (λ replayed. seen_replayed replayed ≡ replay book.now.sig (rules_in book.now) (type_of ty.now) (map seen_step script.now)) }
{
    book.is_formed();
    book.sig().is_formed();
    let list = opening(alloc, ty)?;
    let run = follow(alloc, book, list, script)?;
    match run {
        Run::Refused(answer) => Ok(answer),
        Run::Led(builds) => {
            let term = whole_term(alloc, ty, builds.as_slice())?;
            Ok(Replayed::Closed(term))
        }
    }
}

// The term of a type, by builds that lead from its opening list to no goals.
fn whole_term(alloc: Global, ty: &Ty, builds: &[Assign]) -> Result<Term, NoMemory>
    requires { (sig : LfSignature) × Leads sig (opening (type_of ty.now)) builds.now }
    ensures { IfOk result (λ term. (sig : LfSignature) (leads : Leads sig (opening (type_of ty.now)) builds.now) →
        term_of term ≡ lams (length (binders_of (type_of ty.now))) (carried sig (opening (type_of ty.now)) builds.now leads (own_term (type_of ty.now)))) }
{
    let finals = finals_of(alloc, builds)?;
    let body = first_body(&finals)?;
    let term = under_binders(alloc, ty.binders.len(), body)?;
    Ok(term)
}

// The body that a table has for number 0.
fn first_body(finals: &Assign) -> Result<Term, NoMemory>
    requires { (b : LfBinding) × (binding_for finals.now 0 ≡ Some b) }
    ensures { IfOk result (λ body. (b : LfBinding) → binding_for finals.now 0 ≡ Some b → term_of body ≡ b.bound_body) }
{
    match finals.find(0) {
        None => unreachable!(),
        Some(entry) => {
            let body = copy(&entry.body)?;
            Ok(body)
        }
    }
}

// A term under so many abstractions.
fn under_binders(alloc: Global, count: usize, inside: Term) -> Result<Term, NoMemory>
    ensures { IfOk result (λ term. term_of term ≡ lams count (term_of inside)) }
{
    let mut term = inside;
    for _ in 0..count {
        let body = Body::new(alloc, term)?;
        term = Term::Lam(body);
    }
    Ok(term)
}
