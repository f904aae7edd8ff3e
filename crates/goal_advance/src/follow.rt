//! One assignment after another.

ghost use Rattle.std.specs.Prelude.{◌≡◌, ◌++◌, ℕ, [], ◌∷◌, map, IfOk, OnOk, None};
ghost use Rattle.lf_definitions.specs.Syntax.{LfTerm};
ghost use Rattle.lf_definitions.specs.GoalLists.{all_goals, ids};
ghost use Rattle.lf_definitions.specs.Instantiation.{Instantiated};
ghost use Rattle.lf_terms.specs.Terms.{term_of};
ghost use Rattle.alternatives.specs.ListsAfter.{then_assigned};
ghost use Rattle.meta_goals.specs.Bindings.{assigned_of, assigning, binding_for};
ghost use Rattle.meta_goals.specs.Instantiates.{Instantiates, TermIsShaped};
ghost use Rattle.meta_goals.specs.Laws.{HaveShapesOf};
ghost use Rattle.build_shared.specs.Whole.{with_body};
ghost use Rattle.goal_advance.specs.Following.{MayFollow, put_later};

use basics::NoMemory;
use build_shared::below::add_below;
use meta_goals::instantiate::instantiate;
use meta_goals::{Assign, Entry};
use std::alloc::Global;

/// One assignment after another, for the goals with numbers below `first`: what is assigned later is put into the earlier bodies, and the
/// later entries of these goals follow. A body that mentions no goal that is assigned later is shared.
pub fn follow(
    alloc: Global,
    first: u32,
    earlier: &Assign,
    later: &Assign,
) -> Result<Assign, NoMemory>
    requires { MayFollow first earlier.now later.now }
    ensures found { IfOk result (λ all. (m : MayFollow first earlier.now later.now) →
        map assigned_of all ≡ then_assigned (ids (all_goals m.before)) (all_goals m.between) (map assigned_of earlier.now) (map assigned_of later.now)) }
    ensures shapes { IfOk result (λ all. (m : MayFollow first earlier.now later.now) → HaveShapesOf (all_goals m.before) all) }
{
    let mut all = earlier_under(alloc, earlier, later)?;
    add_below(first, later, &mut all)?;
    Ok(all)
}

// The earlier entries, with what is assigned later put into their bodies.
fn earlier_under(alloc: Global, earlier: &Assign, later: &Assign) -> Result<Assign, NoMemory>
    requires { (n : ℕ) × MayFollow n earlier.now later.now }
    ensures { IfOk result (λ all. (n : ℕ) (m : MayFollow n earlier.now later.now) → all ≡ map (put_later (all_goals m.between) later.now) earlier.now) }
{
    let mut all = Assign::new(alloc);
    for place in 0..earlier.len() {
        match earlier.at(place) {
            None => unreachable!(),
            Some((id, entry)) => add_under(alloc, later, id, entry, &mut all)?,
        }
    }
    Ok(all)
}

// Adds an entry with what is assigned later put into its body.
fn add_under(
    alloc: Global,
    later: &Assign,
    id: u32,
    entry: &Entry,
    all: &mut Assign,
) -> Result<(), NoMemory>
    requires instantiates { Instantiates later.now (TermIsShaped (term_of entry.now.body)) }
    requires absent { binding_for all.old id ≡ None }
    ensures { OnOk result ((body : LfTerm) × Instantiated (assigning later.now) (term_of entry.now.body) body × (all.new ≡ all.old ++ with_body id entry.now.shapes body ∷ [])) }
{
    let body = instantiate(alloc, later, &entry.body)?;
    let shapes = entry.shapes.copy()?;
    all.push(id, Entry { shapes, body })?;
    Ok(())
}
