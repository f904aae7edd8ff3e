//! Where a variable occurs.

ghost use Rattle.std.specs.Prelude.{◌≡◌, ◌+◌, IfOk};
ghost use Rattle.lf_definitions.specs.Syntax.{bound};
ghost use Rattle.head_laws.specs.Mentions.{same_head, occurs_in, occurs_in_spine, occurs_in_type, occurs_in_context};
ghost use Rattle.lf_terms.specs.Terms.{head_of, term_of};
ghost use Rattle.lf_terms.specs.Types.{type_of, types_of};

use basics::NoMemory;
use lf_terms::{Head, Term, Terms, Ty};

/// Whether a variable occurs in a type. A part whose variables have lower numbers costs one step. `NoMemory` comes only where binders
/// are past counting.
#[cycle(occurs_in_type)]
pub fn occurs_in_type(number: u32, ty: &Ty) -> Result<bool, NoMemory>
    ensures { IfOk result (λ occurs. occurs ≡ occurs_in_type (bound number) (type_of ty.now)) }
{
    if ty.is_within(number) {
        return Ok(false);
    }
    let binders = ty.binders.as_slice();
    let early = occurs_in_types(number, binders)?;
    if early {
        return Ok(true);
    }
    let inside = number_under(number, binders.len())?;
    let later = occurs_among(inside, &ty.args)?;
    Ok(later)
}

/// The same in types, each of which stands under those before it.
#[cycle(occurs_in_type)]
pub fn occurs_in_types(number: u32, types: &[Ty]) -> Result<bool, NoMemory>
    ensures { IfOk result (λ occurs. occurs ≡ occurs_in_context (bound number) (types_of types.now)) }
{
    for i in 0..types.len() {
        let inside = number_under(number, i)?;
        let occurs = occurs_in_type(inside, &types[i])?;
        if occurs {
            return Ok(true);
        }
    }
    Ok(false)
}

/// Whether a variable occurs in one of some terms.
#[cycle(occurs_among)]
pub fn occurs_among(number: u32, terms: &Terms) -> Result<bool, NoMemory>
    ensures { IfOk result (λ occurs. occurs ≡ occurs_in_spine (bound number) terms.now) }
{
    if terms.is_within(number) {
        return Ok(false);
    }
    let items = terms.as_slice();
    for i in 0..items.len() {
        let occurs = occurs_in_term(number, &items[i])?;
        if occurs {
            return Ok(true);
        }
    }
    Ok(false)
}

#[cycle(occurs_among)]
fn occurs_in_term(number: u32, term: &Term) -> Result<bool, NoMemory>
    ensures { IfOk result (λ occurs. occurs ≡ occurs_in (bound number) (term_of term.now)) }
{
    match term {
        Term::Lam(body) => {
            let inside = number_under(number, 1)?;
            occurs_in_term(inside, body.term())
        }
        Term::At(head, args) => {
            if is_variable(number, *head) {
                return Ok(true);
            }
            occurs_among(number, args)
        }
    }
}

fn is_variable(number: u32, head: Head) -> bool
    ensures { result ≡ same_head (bound number) (head_of head) }
{
    match head {
        Head::Bound(other) => number == other,
        Head::Const(_) | Head::Meta(_) => false,
    }
}

// A variable's number under so many more binders.
fn number_under(number: u32, count: usize) -> Result<u32, NoMemory>
    ensures { IfOk result (λ inside. inside ≡ number + count) }
{
    if count > (u32::MAX - number) as usize {
        return Err(NoMemory);
    }
    Ok(number + count as u32)
}
