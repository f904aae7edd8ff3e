//! Terms that no assignment makes equal.

ghost use Rattle.std.specs.Prelude.{◌≡◌, IsTrue};
ghost use Rattle.lf_definitions.specs.Syntax.{conclusion_atom};
ghost use Rattle.lf_terms.specs.Terms.{head_of, term_of};
ghost use Rattle.lf_terms.specs.Types.{type_of};
ghost use Rattle.build_shared.specs.Seen.{seen_atom};
ghost use Rattle.build_forward.specs.Clashes.{HeadsDiffer, HeadsAgree, TermsClash, ArgsClash, AtomsClash};

use lf_terms::{Atom, Head, Term, Terms, Ty};

// Whether different variables or constants stand at one place in an atom and in what a type ends in, outside the arguments of
// metavariables, or their families differ. It takes no memory.
pub fn atoms_clash(atom: &Atom, ty: &Ty) -> bool
    ensures { IsTrue result → AtomsClash (seen_atom atom.now) (conclusion_atom (type_of ty.now)) }
{
    atom.family != ty.family || args_clash(&atom.args, &ty.args)
}

// The same for two terms.
#[cycle(clash)]
fn terms_clash(left: &Term, right: &Term) -> bool
    ensures { IsTrue result → TermsClash (term_of left.now) (term_of right.now) }
{
    match (left, right) {
        (Term::Lam(b), Term::Lam(c)) => terms_clash(b.term(), c.term()),
        (Term::At(h, ts), Term::At(k, us)) => {
            if heads_differ(*h, *k) {
                return true;
            }
            if heads_agree(*h, *k) {
                return args_clash(ts, us);
            }
            false
        }
        _ => false,
    }
}

// The same for the terms at one place of two lists.
#[cycle(clash)]
fn args_clash(left: &Terms, right: &Terms) -> bool
    ensures { IsTrue result → ArgsClash left.now right.now }
{
    let ts = left.as_slice();
    let us = right.as_slice();
    if ts.len() != us.len() {
        return false;
    }
    for i in 0..ts.len() {
        if terms_clash(&ts[i], &us[i]) {
            return true;
        }
    }
    false
}

// Whether two heads are different variables or constants.
fn heads_differ(h: Head, k: Head) -> bool
    ensures { IsTrue result → HeadsDiffer (head_of h) (head_of k) }
{
    match (h, k) {
        (Head::Bound(n), Head::Bound(m)) => n != m,
        (Head::Const(c), Head::Const(d)) => c != d,
        (Head::Bound(_), Head::Const(_)) => true,
        (Head::Const(_), Head::Bound(_)) => true,
        _ => false,
    }
}

// Whether two heads are one variable or constant.
fn heads_agree(h: Head, k: Head) -> bool
    ensures { IsTrue result → HeadsAgree (head_of h) (head_of k) }
{
    match (h, k) {
        (Head::Bound(n), Head::Bound(m)) => n == m,
        (Head::Const(c), Head::Const(d)) => c == d,
        _ => false,
    }
}
