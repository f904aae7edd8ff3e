//! What the goals of a list become in the end, from what those of the next list become.

ghost use Rattle.std.specs.Prelude.{◌≡◌, ◌++◌, List, [], ◌∷◌, map, All, IfOk, OnOk};
ghost use Rattle.lf_definitions.specs.Syntax.{LfTerm};
ghost use Rattle.lf_definitions.specs.Signatures.{LfSignature};
ghost use Rattle.lf_definitions.specs.GoalLists.{LfGoals, all_goals};
ghost use Rattle.lf_definitions.specs.Typing.{LfGoal};
ghost use Rattle.lf_definitions.specs.Instantiation.{Instantiated};
ghost use Rattle.lf_terms.specs.Terms.{term_of};
ghost use Rattle.meta_goals.specs.Bindings.{assigning};
ghost use Rattle.meta_goals.specs.Instantiates.{Instantiates, TermIsShaped};
ghost use Rattle.proof_replay.specs.Leading.{BuildTakes, EndsGoals};
ghost use Rattle.proof_replay.specs.Putting.{seen_final, with_body, put_into, all_again, CanEnd, PutsBack};

use basics::NoMemory;
use meta_goals::instantiate::instantiate;
use meta_goals::{Assign, Entry};
use std::alloc::Global;

/// What a goal of this number becomes in the end.
#[derive(Drop)]
pub struct Final {
    pub number: u32,
    pub entry: Entry,
}

/// Puts what the goals of a build become in the end into the table that has it for the goals after the build. What the table holds of other
/// numbers is of no matter.
pub(crate) fn put_back(alloc: Global, build: &Assign, finals: &mut Assign) -> Result<(), NoMemory>
    requires { (sig : LfSignature) × (list : LfGoals) × (next : LfGoals) × BuildTakes sig list next build.now × EndsGoals sig (all_goals next) finals.old }
    ensures { OnOk result ((sig : LfSignature) (list next : LfGoals) → BuildTakes sig list next build.now → EndsGoals sig (all_goals next) finals.old → PutsBack sig list next build.now finals.old finals.new) }
{
    let entries = final_entries(alloc, build, finals)?;
    put_all(entries, finals)?;
    Ok(())
}

// The entries of a build, with what its new goals become put into their bodies.
fn final_entries(alloc: Global, build: &Assign, finals: &Assign) -> Result<Vec<Final>, NoMemory>
    requires { (goals : List LfGoal) × All (CanEnd goals finals.now) build.now }
    ensures { IfOk result (λ entries. (goals : List LfGoal) → All (CanEnd goals finals.now) build.now → map seen_final entries.items ≡ map (put_into goals finals.now) build.now) }
{
    let mut entries = Vec::new(alloc);
    for place in 0..build.len() {
        match build.at(place) {
            None => unreachable!(),
            Some((id, entry)) => add_final(alloc, id, entry, finals, &mut entries)?,
        }
    }
    Ok(entries)
}

// Adds one entry.
fn add_final(
    alloc: Global,
    id: u32,
    entry: &Entry,
    finals: &Assign,
    entries: &mut Vec<Final>,
) -> Result<(), NoMemory>
    requires { Instantiates finals.now (TermIsShaped (term_of entry.now.body)) }
    ensures { OnOk result ((body : LfTerm) × Instantiated (assigning finals.now) (term_of entry.now.body) body
        × (map seen_final entries.new.items ≡ map seen_final entries.old.items ++ with_body id entry.now.shapes body ∷ [])) }
{
    let body = instantiate(alloc, finals, &entry.body)?;
    let shapes = entry.shapes.copy()?;
    entries.push(Final {
        number: id,
        entry: Entry { shapes, body },
    })?;
    Ok(())
}

// Puts entries into a table, each in the place of what was there before.
fn put_all(entries: Vec<Final>, finals: &mut Assign) -> Result<(), NoMemory>
    ensures { OnOk result (finals.new ≡ all_again finals.old (map seen_final entries.items)) }
{
    for last in entries {
        finals.put(last.number, last.entry)?;
    }
    Ok(())
}
