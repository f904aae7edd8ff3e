//! What the goals of the first list become in the end.

ghost use Rattle.std.specs.Prelude.{IfOk};
ghost use Rattle.lf_definitions.specs.Signatures.{LfSignature};
ghost use Rattle.lf_definitions.specs.GoalLists.{LfGoals};
ghost use Rattle.proof_replay.specs.Leading.{Leads, AreFinals};

use crate::putting::put_back;
use basics::NoMemory;
use meta_goals::Assign;
use std::alloc::Global;

/// A table of what each goal of a list becomes by builds that lead from it to no goals. It is filled from the last build to the first, so
/// that each costs its own size.
pub(crate) fn finals_of(alloc: Global, builds: &[Assign]) -> Result<Assign, NoMemory>
    requires { (sig : LfSignature) × (list : LfGoals) × Leads sig list builds.now }
    ensures { IfOk result (λ finals. (sig : LfSignature) (list : LfGoals) (leads : Leads sig list builds.now) → AreFinals sig list builds.now leads finals) }
{
    let count = builds.len();
    let mut finals = Assign::new(alloc);
    for i in 0..count {
        let place = count - 1 - i;
        put_back(alloc, &builds[place], &mut finals)?;
    }
    Ok(finals)
}
