//! Equality of syntax.

ghost use Rattle.std.specs.Prelude.{◌≡◌, ◌↔◌, IsTrue};
ghost use Rattle.lf_terms.specs.Terms.{term_of};
ghost use Rattle.lf_terms.specs.Types.{type_of, atom_of};

use crate::term::{Term, Terms};
use crate::ty::{Atom, Ty, Tys};

/// Whether two terms are equal, symbol by symbol. It stops at the first difference, and takes no memory.
#[cycle(same)]
pub fn same(a: &Term, b: &Term) -> bool
    ensures { IsTrue result ↔ (term_of a.now ≡ term_of b.now) }
{
    match (a, b) {
        (Term::Lam(a), Term::Lam(b)) => same(a.term(), b.term()),
        (Term::At(h, a), Term::At(k, b)) => *h == *k && same_terms(a, b),
        _ => false,
    }
}

/// Whether two lists have equal terms at each place.
#[cycle(same)]
pub fn same_terms(a: &Terms, b: &Terms) -> bool
    ensures { IsTrue result ↔ (a.now ≡ b.now) }
{
    let xs = a.as_slice();
    let ys = b.as_slice();
    if xs.len() != ys.len() {
        return false;
    }
    for i in 0..xs.len() {
        if !same(&xs[i], &ys[i]) {
            return false;
        }
    }
    true
}

/// Whether two types are equal, symbol by symbol. It takes no memory.
#[cycle(same_ty)]
pub fn same_ty(a: &Ty, b: &Ty) -> bool
    ensures { IsTrue result ↔ (type_of a.now ≡ type_of b.now) }
{
    if a.family != b.family {
        return false;
    }
    if !same_tys(&a.binders, &b.binders) {
        return false;
    }
    same_terms(&a.args, &b.args)
}

/// Whether two lists have equal types at each place.
#[cycle(same_ty)]
pub fn same_tys(a: &Tys, b: &Tys) -> bool
    ensures { IsTrue result ↔ (a.now ≡ b.now) }
{
    let types = a.as_slice();
    let others = b.as_slice();
    if types.len() != others.len() {
        return false;
    }
    for i in 0..types.len() {
        if !same_ty(&types[i], &others[i]) {
            return false;
        }
    }
    true
}

/// Whether two families with arguments are equal, symbol by symbol. It takes no memory.
pub fn same_atom(a: &Atom, b: &Atom) -> bool
    ensures { IsTrue result ↔ (atom_of a.now ≡ atom_of b.now) }
{
    if a.family != b.family {
        return false;
    }
    same_terms(&a.args, &b.args)
}
