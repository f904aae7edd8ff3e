//! Which binders of a type the rest mentions, by one walk over the whole type.

ghost use Rattle.std.specs.Prelude.{◌≡◌, ◌+◌, ◌++◌, ◌<◌, length, IfOk, OnOk, nat_eq};
ghost use Rattle.lf_terms.specs.Terms.{head_of, term_of};
ghost use Rattle.lf_terms.specs.Types.{type_of};
ghost use Rattle.binder_marks.specs.Marks.{ArePlaces, binder_places, marks_at, marks_of, with_marks};
ghost use Rattle.binder_marks.specs.Mentions.{AreMentions, is_variable, mentions, mentions_in_spine, mentions_in_term};

use basics::NoMemory;
use lf_terms::{Head, Term, Terms, Ty};
use std::alloc::Global;

/// For each binder of a type, in order, whether it occurs in a later binder or in the conclusion.
/// Its time is linear in the size of the type, whatever the number of its binders.
pub fn mentioned_binders(alloc: Global, ty: &Ty) -> Result<Vec<bool>, NoMemory>
    ensures { IfOk result (λ marks. AreMentions (type_of ty.now) marks.items) }
{
    let mut marks = Vec::new(alloc);
    let mut places = Vec::new(alloc);
    mark_type(&mut marks, &mut places, ty)?;
    read_marks(alloc, marks.as_slice(), places.as_slice())
}

/// For each binder of a type and of the types of its binders, in the order in which they are printed, whether the
/// rest mentions it. Its time is linear in the size of the type.
pub fn binder_marks(alloc: Global, ty: &Ty) -> Result<Vec<bool>, NoMemory>
    ensures { IfOk result (λ marks. marks.items ≡ marks_of (type_of ty.now)) }
{
    let mut marks = Vec::new(alloc);
    let mut places = Vec::new(alloc);
    mark_type(&mut marks, &mut places, ty)?;
    Ok(marks)
}

// The marks at places.
fn read_marks(alloc: Global, marks: &[bool], places: &[usize]) -> Result<Vec<bool>, NoMemory>
    requires { ArePlaces places.now marks.now }
    ensures { IfOk result (λ read. read.items ≡ marks_at places.now marks.now) }
{
    let mut read = Vec::with_capacity(alloc, places.len())?;
    for place in places {
        read.push(marks[*place])?;
    }
    Ok(read)
}

// Adds the marks of the binders of a type and marks the variables around it that it mentions. Each of these,
// the outermost first, has its mark at a place. The places of the binders of the type are added after them.
fn mark_type(marks: &mut Vec<bool>, places: &mut Vec<usize>, ty: &Ty) -> Result<(), NoMemory>
    requires { ArePlaces places.old.items marks.old.items }
    ensures marks { OnOk result (marks.new.items ≡ with_marks places.old.items (λ n. mentions n (type_of ty.now)) marks.old.items ++ marks_of (type_of ty.now)) }
    ensures places { OnOk result (places.new.items ≡ places.old.items ++ binder_places (length marks.old.items) (type_of ty.now)) }
{
    let binders = ty.binders.as_slice();
    for binder in binders {
        let around = places.len();
        let place = marks.len();
        marks.push(false)?;
        mark_type(marks, places, binder)?;
        places.truncate(around);
        places.push(place)?;
    }
    mark_terms(marks, places, 0, &ty.args)
}

// Marks the variables that a term under `local` abstractions mentions.
#[cycle(mark_term)]
fn mark_term(
    marks: &mut [bool],
    places: &[usize],
    local: usize,
    term: &Term,
) -> Result<(), NoMemory>
    requires { ArePlaces places.now marks.old }
    ensures { OnOk result (marks.new ≡ with_marks places.now (λ n. mentions_in_term (local + n) (term_of term.now)) marks.old) }
{
    match term {
        Term::Lam(body) => {
            let inside = deeper(local)?;
            mark_term(marks, places, inside, body.term())
        }
        Term::At(head, args) => {
            mark_head(marks, places, local, *head);
            mark_terms(marks, places, local, args)
        }
    }
}

// Marks the variables that a list of terms mentions.
#[cycle(mark_term)]
fn mark_terms(
    marks: &mut [bool],
    places: &[usize],
    local: usize,
    terms: &Terms,
) -> Result<(), NoMemory>
    requires { ArePlaces places.now marks.old }
    ensures { OnOk result (marks.new ≡ with_marks places.now (λ n. mentions_in_spine (local + n) terms.now) marks.old) }
{
    let items = terms.as_slice();
    for term in items {
        mark_term(marks, places, local, term)?;
    }
    Ok(())
}

// Under one more abstraction.
fn deeper(local: usize) -> Result<usize, NoMemory>
    ensures { IfOk result (λ inside. inside ≡ local + 1) }
{
    match local.checked_add(1) {
        None => Err(NoMemory),
        Some(inside) => Ok(inside),
    }
}

// Marks the variable that a head is, unless it is one of the local ones or stands outside the whole type.
fn mark_head(marks: &mut [bool], places: &[usize], local: usize, head: Head)
    requires { ArePlaces places.now marks.old }
    ensures { marks.new ≡ with_marks places.now (λ n. is_variable (local + n) (head_of head)) marks.old }
{
    if let Head::Bound(number) = head {
        mark_variable(marks, places, local, number as usize);
    }
}

fn mark_variable(marks: &mut [bool], places: &[usize], local: usize, number: usize)
    requires { ArePlaces places.now marks.old }
    ensures { marks.new ≡ with_marks places.now (λ n. nat_eq (local + n) number) marks.old }
{
    let count = places.len();
    if number >= local && number - local < count {
        marks[places[count - 1 - (number - local)]] = true;
    }
}
