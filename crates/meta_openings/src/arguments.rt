//! The arguments of a type, one after another.

ghost use Rattle.std.specs.Prelude.{◌≡◌, ◌<◌, [], length, map, All, OnOk, IfOk};
ghost use Rattle.lf_definitions.specs.Syntax.{no_args, family, shapes_of_types};
ghost use Rattle.lf_terms.specs.Putting.{Puts, TypeShaped};
ghost use Rattle.lf_terms.specs.Shapes.{simple_type_of, simple_types_of};
ghost use Rattle.lf_terms.specs.Targets.{goal_of};
ghost use Rattle.lf_terms.specs.Terms.{spine_of};
ghost use Rattle.lf_terms.specs.Types.{type_of};
ghost use Rattle.meta_openings.specs.Arguments.{IsSetting, AddsArgument, IsLeft};

use crate::entries::among_kept;
use crate::fresh::{Setting, goal_for, number_after, term_for};
use crate::places::fixed_places;
use crate::variables::variable_at;
use basics::{NoMemory, Pairs};
use lf_terms::eta::eta;
use lf_terms::subst::put_type;
use lf_terms::{Goal, Shape, Shapes, Term, Ty};

// The terms and the fresh goals of the first arguments.
#[derive(Drop)]
pub struct Partly {
    pub terms: Vec<Term>,
    pub goals: Vec<Goal>,
}

// Opens the next argument, of this type and this shape, after those with these shapes.
fn open_argument(
    setting: &Setting<'_>,
    fixed: Option<u32>,
    shapes: &[Shape],
    shape: &Shape,
    ty: &Ty,
    opened: &mut Partly,
) -> Result<(), NoMemory>
    requires setting { IsSetting setting.now }
    requires puts { Puts (spine_of opened.old.terms.items) (simple_types_of shapes.now) 0 0 (TypeShaped (type_of ty.now)) }
    ensures { OnOk result (AddsArgument setting.now fixed (simple_type_of shape.now) (type_of ty.now) (spine_of opened.old.terms.items) (map goal_of opened.old.goals.items)
        (spine_of opened.new.terms.items) (map goal_of opened.new.goals.items)) }
{
    let alloc = setting.places.alloc;
    let count = setting.shapes.len();
    match fixed {
        Some(place) => {
            let variable = variable_at(count, place as usize)?;
            opened.terms.push(eta(alloc, variable, shape)?)?;
            Ok(())
        }
        None => {
            let put = put_type(alloc, shapes, opened.terms.as_slice(), 0, ty)?;
            let inside = among_kept(setting.places, count, put)?;
            let number = number_after(setting.first, opened.goals.len())?;
            opened.goals.push(goal_for(setting, number, inside)?)?;
            opened.terms.push(term_for(setting, number, shape)?)?;
            Ok(())
        }
    }
}

// Opens all arguments of a type, which have these shapes.
pub fn open_arguments(
    setting: &Setting<'_>,
    fixed: &Pairs,
    shapes: &Shapes,
    ty: &Ty,
) -> Result<Partly, NoMemory>
    requires setting { IsSetting setting.now }
    requires fixed { All (λ pair. pair.0 < length ty.now.binders) fixed.now }
    requires shapes { shapes.now ≡ shapes_of_types ty.now.binders }
    requires begins { IsLeft setting.now fixed.now (type_of ty.now) 0 [] no_args [] (type_of ty.now) }
    ensures { IfOk result (λ opened. IsLeft setting.now fixed.now (type_of ty.now) (length ty.now.binders) shapes.now (spine_of opened.terms.items) (map goal_of opened.goals.items)
        (family ty.now.family ty.now.args)) }
{
    let types = ty.binders.as_slice();
    let items = shapes.as_slice();
    let alloc = setting.places.alloc;
    let places = fixed_places(alloc, fixed, types.len())?;
    let mut opened = Partly {
        terms: Vec::with_capacity(alloc, types.len())?,
        goals: Vec::new(alloc),
    };
    for i in 0..types.len() {
        open_argument(
            setting,
            places[i],
            &items[..i],
            &items[i],
            &types[i],
            &mut opened,
        )?;
    }
    Ok(opened)
}
