//! Abstractions above a body.

ghost use Rattle.std.specs.Prelude.{◌≡◌, MatchResult};
ghost use Rattle.lf_definitions.specs.Syntax.{lams};
ghost use Rattle.lf_kernel.specs.Stripping.{EndsAfter};
ghost use Rattle.lf_terms.specs.Terms.{term_of};

use lf_terms::Term;

// The body under so many abstractions, or how many there are above a spine that comes before.
pub fn body_under(term: &Term, count: usize) -> Result<&Term, usize>
    ensures { MatchResult result (λ body. term_of term.now ≡ lams count (term_of body.now)) (λ depth. EndsAfter count (term_of term.now) depth) }
{
    let mut body = term;
    for depth in 0..count {
        match body {
            Term::Lam(inner) => body = inner.term(),
            Term::At(..) => return Err(depth),
        }
    }
    Ok(body)
}
