//! Fresh goals and their terms.

ghost use Rattle.std.specs.Prelude.{◌≡◌, ◌+◌, length, IfOk};
ghost use Rattle.lf_definitions.specs.Syntax.{metavariable};
ghost use Rattle.typing_laws.specs.EtaLaws.{expanded};
ghost use Rattle.lf_terms.specs.Shapes.{simple_type_of};
ghost use Rattle.lf_terms.specs.Targets.{goal_of};
ghost use Rattle.lf_terms.specs.Terms.{term_of};
ghost use Rattle.lf_terms.specs.Types.{type_of};
ghost use Rattle.opening_laws.specs.Openings.{fresh_goal, kept_variables};
ghost use Rattle.meta_openings.specs.Arguments.{IsSetting};

use crate::lists::{followed, joined};
use crate::places::Places;
use crate::variables::kept_variables;
use basics::NoMemory;
use lf_terms::eta::{abstracted, own_variables};
use lf_terms::{Atom, Ctx, Goal, Head, Shape, Shapes, Term, Terms, Ty};

/// What arguments are opened in: the places of a context with entries of these shapes, its kept entries, their
/// variables as they are seen from the whole context, and the first fresh number.
#[derive(Clone, Copy)]
pub struct Setting<'a> {
    pub places: &'a Places<'a>,
    pub shapes: &'a Shapes,
    pub entries: &'a Ctx,
    pub variables: &'a Terms,
    pub first: u32,
}

/// The fresh number after so many.
pub fn number_after(first: u32, count: usize) -> Result<u32, NoMemory>
    ensures { IfOk result (λ number. number ≡ first + count) }
{
    if count > (u32::MAX - first) as usize {
        return Err(NoMemory);
    }
    Ok(first + count as u32)
}

/// The goal for an argument that has this type among the kept entries.
pub fn goal_for(setting: &Setting<'_>, number: u32, inside: Ty) -> Result<Goal, NoMemory>
    ensures { IfOk result (λ goal. goal_of goal ≡ fresh_goal number setting.now.entries.now (type_of inside)) }
{
    let ctx = followed(setting.places.alloc, setting.entries, &inside.binders)?;
    let target = Atom {
        family: inside.family,
        args: inside.args,
    };
    Ok(Goal {
        id: number,
        ctx,
        target,
    })
}

/// The term for it: the goal's metavariable on the kept entries, made eta-long.
pub fn term_for(setting: &Setting<'_>, number: u32, shape: &Shape) -> Result<Term, NoMemory>
    requires { IsSetting setting.now }
    ensures { IfOk result (λ term. term_of term
        ≡ expanded (metavariable number) (kept_variables setting.now.places.now.kept.now (length setting.now.shapes.now) setting.now.entries.now) (simple_type_of shape.now)) }
{
    let count = shape.args.len();
    let head = Head::Meta(number);
    if count == 0 {
        return Ok(Term::At(head, setting.variables.copy()?));
    }
    let alloc = setting.places.alloc;
    let outer = kept_variables(setting.places, setting.shapes, count)?;
    let own = own_variables(alloc, &shape.args)?;
    let args = joined(alloc, &outer, &own)?;
    abstracted(alloc, count, Term::At(head, args))
}
