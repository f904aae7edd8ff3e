//! Whether a term mentions what is assigned.

ghost use Rattle.std.specs.Prelude.{◌≡◌};
ghost use Rattle.lf_terms.specs.Terms.{head_of, term_of};
ghost use Rattle.meta_unify.specs.Mentions.{is_bound, mentions_bound, mentions_bound_among};

use lf_terms::{Head, Term, Terms};
use meta_goals::Assign;

// Whether a goal that is assigned occurs in a term. A part with no metavariable costs one step.
#[cycle(mentions)]
pub fn mentions(assign: &Assign, term: &Term) -> bool
    ensures { result ≡ mentions_bound assign.now (term_of term.now) }
{
    match term {
        Term::Lam(body) => mentions(assign, body.term()),
        Term::At(head, args) => is_assigned(assign, *head) || mentions_among(assign, args),
    }
}

// The same of a list of terms.
#[cycle(mentions)]
fn mentions_among(assign: &Assign, terms: &Terms) -> bool
    ensures { result ≡ mentions_bound_among assign.now terms.now }
{
    if !terms.has_metas() {
        return false;
    }
    let items = terms.as_slice();
    for i in 0..items.len() {
        if mentions(assign, &items[i]) {
            return true;
        }
    }
    false
}

// Whether a head is an assigned goal's metavariable.
fn is_assigned(assign: &Assign, head: Head) -> bool
    ensures { result ≡ is_bound assign.now (head_of head) }
{
    match head {
        Head::Bound(_) | Head::Const(_) => false,
        Head::Meta(goal) => assign.find(goal).is_some(),
    }
}
