//! The numbers of the metavariables that goals mention.

ghost use Rattle.std.specs.Prelude.{◌≡◌, ◌++◌, OnOk};
ghost use Rattle.lf_definitions.specs.Typing.{goal_type};
ghost use Rattle.lf_terms.specs.Targets.{goal_of};
ghost use Rattle.lf_terms.specs.Terms.{head_of, term_of};
ghost use Rattle.lf_terms.specs.Types.{type_of};
ghost use Rattle.goal_clusters.specs.Mentioned.{number_of_head, numbers_in, numbers_in_spine, numbers_in_type, numbers_in_context};

use basics::NoMemory;
use lf_terms::{Goal, Head, Term, Terms, Ty, Tys};

// Adds the numbers that the context and the target of a goal mention, each as often as it occurs. Parts
// without metavariables are passed in one step.
pub(crate) fn add_goal(numbers: &mut Vec<u32>, goal: &Goal) -> Result<(), NoMemory>
    ensures { OnOk result (numbers.new.items ≡ numbers.old.items ++ numbers_in_type (goal_type (goal_of goal.now))) }
{
    add_types(numbers, &goal.ctx)?;
    add_terms(numbers, &goal.target.args)
}

// Adds those of a type.
#[cycle(add_type)]
fn add_type(numbers: &mut Vec<u32>, ty: &Ty) -> Result<(), NoMemory>
    ensures { OnOk result (numbers.new.items ≡ numbers.old.items ++ numbers_in_type (type_of ty.now)) }
{
    add_types(numbers, &ty.binders)?;
    add_terms(numbers, &ty.args)
}

// Adds those of types.
#[cycle(add_type)]
fn add_types(numbers: &mut Vec<u32>, types: &Tys) -> Result<(), NoMemory>
    ensures { OnOk result (numbers.new.items ≡ numbers.old.items ++ numbers_in_context types.now) }
{
    if !types.has_metas() {
        return Ok(());
    }
    let items = types.as_slice();
    for i in 0..items.len() {
        add_type(numbers, &items[i])?;
    }
    Ok(())
}

// Adds those of a term.
#[cycle(add_term)]
fn add_term(numbers: &mut Vec<u32>, term: &Term) -> Result<(), NoMemory>
    ensures { OnOk result (numbers.new.items ≡ numbers.old.items ++ numbers_in (term_of term.now)) }
{
    match term {
        Term::Lam(body) => add_term(numbers, body.term()),
        Term::At(head, args) => {
            add_head(numbers, *head)?;
            add_terms(numbers, args)
        }
    }
}

// Adds those of terms.
#[cycle(add_term)]
fn add_terms(numbers: &mut Vec<u32>, terms: &Terms) -> Result<(), NoMemory>
    ensures { OnOk result (numbers.new.items ≡ numbers.old.items ++ numbers_in_spine terms.now) }
{
    if !terms.has_metas() {
        return Ok(());
    }
    let items = terms.as_slice();
    for i in 0..items.len() {
        add_term(numbers, &items[i])?;
    }
    Ok(())
}

// Adds that of a head, if it is a metavariable.
fn add_head(numbers: &mut Vec<u32>, head: Head) -> Result<(), NoMemory>
    ensures { OnOk result (numbers.new.items ≡ numbers.old.items ++ number_of_head (head_of head)) }
{
    if let Head::Meta(number) = head {
        numbers.push(number)?;
    }
    Ok(())
}
