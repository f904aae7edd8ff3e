//! The equations between premises and hypotheses.

ghost use Rattle.std.specs.Prelude.{◌≡◌, ◌≤◌, ◌++◌, ◌∷◌, [], map, length, IfOk, OnOk};
ghost use Rattle.lf_definitions.specs.Syntax.{conclusion_atom};
ghost use Rattle.lf_terms.specs.Types.{type_of};
ghost use Rattle.meta_openings.specs.Results.{opened_type_of};
ghost use Rattle.applications.specs.Candidates.{premises_from, premise_equations};
ghost use Rattle.build_shared.specs.ArgumentTypes.{HasShapedTerms};
ghost use Rattle.build_shared.specs.Seen.{seen_atom, seen_hypothesis};
ghost use Rattle.build_forward.specs.Onwards.{IsOnward, premise_types, equations_between};

use crate::onward::Onward;
use basics::NoMemory;
use build_shared::Hypothesis;
use build_shared::arguments::argument_type;
use lf_terms::Atom;
use meta_openings::Opened;
use meta_unify::{Equation, Equations};
use std::alloc::Global;

// Each of the first premises of an opened type has its hypothesis's type.
pub fn equations_for(
    onward: &Onward<'_>,
    opened: &Opened,
    chosen: &[Hypothesis],
) -> Result<Equations, NoMemory>
    requires onward { IsOnward onward.now }
    requires shaped { HasShapedTerms (type_of onward.now.ty.now) opened.now.terms }
    requires few { length chosen.now ≤ length onward.now.premises.now }
    ensures { IfOk result (λ equations. equations
        ≡ premise_equations (type_of onward.now.ty.now) (opened_type_of opened.now) (premises_from 0 (type_of onward.now.ty.now)) (map seen_hypothesis chosen.now)) }
{
    let premises = premise_types(onward, opened)?;
    let equations = equations_between(onward.usage.alloc, premises.as_slice(), chosen)?;
    Ok(equations)
}

// The types of the premises of an opened type.
pub fn premise_types(onward: &Onward<'_>, opened: &Opened) -> Result<Vec<Atom>, NoMemory>
    requires onward { IsOnward onward.now }
    requires shaped { HasShapedTerms (type_of onward.now.ty.now) opened.now.terms }
    ensures { IfOk result (λ types. map seen_atom types.items ≡ premise_types onward.now (opened_type_of opened.now)) }
{
    let alloc = onward.usage.alloc;
    let premises = onward.premises.as_slice();
    let mut types = Vec::new(alloc);
    for i in 0..premises.len() {
        let premise = premises[i];
        let ty = argument_type(alloc, onward.ty, opened, premise as usize)?;
        types.push(ty)?;
    }
    Ok(types)
}

// The first of some premises have the types of hypotheses.
pub fn equations_between(
    alloc: Global,
    premises: &[Atom],
    chosen: &[Hypothesis],
) -> Result<Equations, NoMemory>
    requires { length chosen.now ≤ length premises.now }
    ensures { IfOk result (λ equations. equations ≡ equations_between (map seen_atom premises.now) (map seen_hypothesis chosen.now)) }
{
    let mut equations = Equations::new(alloc);
    for i in 0..chosen.len() {
        add_equation(&premises[i], &chosen[i], &mut equations)?;
    }
    Ok(equations)
}

// Adds that a premise has a hypothesis's type.
fn add_equation(premise: &Atom, hyp: &Hypothesis, equations: &mut Equations) -> Result<(), NoMemory>
    ensures { OnOk result (equations.new ≡ equations.old ++ (seen_atom premise.now, conclusion_atom (type_of hyp.now.ty)) ∷ []) }
{
    let left = premise.copy()?;
    let family = hyp.ty.family;
    let args = hyp.ty.args.copy()?;
    let right = Atom { family, args };
    equations.push(Equation { left, right })?;
    Ok(())
}
