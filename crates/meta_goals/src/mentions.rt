//! Which goals mention a metavariable.

ghost use Rattle.std.specs.Prelude.{◌≡◌, ◌↔◌, IsTrue};
ghost use Rattle.lf_definitions.specs.Syntax.{metavariable};
ghost use Rattle.lf_definitions.specs.Occurrence.{OccursIn, OccursInSpine, OccursInType, OccursInContext, OccursInGoal};
ghost use Rattle.lf_terms.specs.Targets.{goal_of};
ghost use Rattle.lf_terms.specs.Terms.{head_of, term_of};
ghost use Rattle.lf_terms.specs.Types.{type_of};

use lf_terms::{Goal, Head, Term, Terms, Ty, Tys};

/// Whether the context or the target of a goal mentions a metavariable. Parts without metavariables are
/// passed in one step. It takes no memory.
pub fn mentions(g: &Goal, id: u32) -> bool
    ensures { IsTrue result ↔ OccursInGoal (metavariable id) (goal_of g.now) }
{
    types_mention(&g.ctx, id) || terms_mention(&g.target.args, id)
}

// Whether a type mentions it.
#[cycle(type_mentions)]
fn type_mentions(ty: &Ty, id: u32) -> bool
    ensures { IsTrue result ↔ OccursInType (metavariable id) (type_of ty.now) }
{
    types_mention(&ty.binders, id) || terms_mention(&ty.args, id)
}

// Whether one of some types, each in the scope of those before it, mentions it.
#[cycle(type_mentions)]
fn types_mention(types: &Tys, id: u32) -> bool
    ensures { IsTrue result ↔ OccursInContext (metavariable id) types.now }
{
    if !types.has_metas() {
        return false;
    }
    let items = types.as_slice();
    for i in 0..items.len() {
        if type_mentions(&items[i], id) {
            return true;
        }
    }
    false
}

/// Whether a term mentions a metavariable, as `mentions` answers it of a goal.
#[cycle(term_mentions)]
pub fn term_mentions(term: &Term, id: u32) -> bool
    ensures { IsTrue result ↔ OccursIn (metavariable id) (term_of term.now) }
{
    match term {
        Term::Lam(body) => term_mentions(body.term(), id),
        Term::At(head, args) => is_metavariable(*head, id) || terms_mention(args, id),
    }
}

// Whether one of some terms mentions it.
#[cycle(term_mentions)]
fn terms_mention(terms: &Terms, id: u32) -> bool
    ensures { IsTrue result ↔ OccursInSpine (metavariable id) terms.now }
{
    if !terms.has_metas() {
        return false;
    }
    let items = terms.as_slice();
    for i in 0..items.len() {
        if term_mentions(&items[i], id) {
            return true;
        }
    }
    false
}

// Whether a head is the metavariable.
fn is_metavariable(head: Head, id: u32) -> bool
    ensures { IsTrue result ↔ (head_of head ≡ metavariable id) }
{
    match head {
        Head::Meta(number) => number == id,
        Head::Bound(_) | Head::Const(_) => false,
    }
}
