//! Opening lists.

ghost use Rattle.std.specs.Prelude.{◌≡◌, IfOk};
ghost use Rattle.lf_definitions.specs.GoalLists.{opening};
ghost use Rattle.lf_terms.specs.Types.{type_of};
ghost use Rattle.meta_goals.specs.GoalsOf.{goals_of};

use basics::NoMemory;
use lf_terms::{Atom, Goal, GoalList, Ty};
use meta_goals::Goals;
use std::alloc::Global;

/// The opening list of a type: the one proof goal 0, with the type's binders as its context and the atom that it ends in as its target.
pub fn opening(alloc: Global, ty: &Ty) -> Result<Goals, NoMemory>
    ensures { IfOk result (λ goals. goals_of goals ≡ opening (type_of ty.now)) }
{
    let ctx = ty.binders.copy()?;
    let args = ty.args.copy()?;
    let target = Atom {
        family: ty.family,
        args,
    };
    let mut proofs = GoalList::new(alloc);
    proofs.push(Goal { id: 0, ctx, target })?;
    Ok(Goals {
        proofs,
        witnesses: GoalList::new(alloc),
    })
}
