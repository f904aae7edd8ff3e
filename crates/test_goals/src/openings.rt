//! Theorems of programs, and their opening lists.

ghost use Rattle.std.specs.Prelude.{[], IfOk, IfSome};
ghost use Rattle.lf_definitions.specs.GoalLists.{all_goals};
ghost use Rattle.lf_definitions.specs.ShapedGoals.{ShapedGoals};
ghost use Rattle.lf_definitions.specs.Signatures.{kinds_in, typing_in};
ghost use Rattle.lf_definitions.specs.Typing.{Formed};
ghost use Rattle.lf_terms.specs.Types.{type_of};
ghost use Rattle.meta_goals.specs.GoalsOf.{goals_of};
ghost use Rattle.file_elab.specs.Theorems.{AreFormed};

use basics::NoMemory;
use file_elab::Program;
use goal_book::opening;
use lf_terms::Ty;
use meta_goals::Goals;
use std::alloc::Global;

/// The type of the theorem that has a name, if there is one.
pub fn theorem_type<'a>(program: &'a Program, name: &str) -> Option<&'a Ty>
    requires { AreFormed program.now.sig program.now.theorems }
    ensures { IfSome result (λ ty. Formed (kinds_in program.now.sig) (typing_in program.now.sig [] []) (type_of ty.now)) }
{
    match program.theorems.find(name.as_bytes()) {
        None => None,
        Some(place) => type_at(program, place as usize),
    }
}

// The type of the theorem at a place, from 0.
fn type_at<'a>(program: &'a Program, place: usize) -> Option<&'a Ty>
    requires { AreFormed program.now.sig program.now.theorems }
    ensures { IfSome result (λ ty. Formed (kinds_in program.now.sig) (typing_in program.now.sig [] []) (type_of ty.now)) }
{
    let theorems = program.theorems.as_slice();
    if place >= theorems.len() {
        return None;
    }
    Some(&theorems[place].ty)
}

/// The opening list of the type of the theorem that has a name, if there is one.
///
/// # Errors
///
/// `NoMemory` where memory runs out.
pub fn opened_theorem(
    alloc: Global,
    program: &Program,
    name: &str,
) -> Result<Option<Goals>, NoMemory>
    requires { AreFormed program.now.sig program.now.theorems }
    ensures { IfOk result (λ found. IfSome found (λ goals. ShapedGoals program.now.sig (all_goals (goals_of goals)))) }
{
    let found = theorem_type(program, name);
    match found {
        None => Ok(None),
        Some(ty) => {
            let goals = opening(alloc, ty)?;
            Ok(Some(goals))
        },
    }
}
