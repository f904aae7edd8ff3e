//! The types of heads.

ghost use Rattle.std.specs.Prelude.{◌≡◌, IfOk};
ghost use Rattle.lf_definitions.specs.Signatures.{constant_types};
ghost use Rattle.lf_definitions.specs.Typing.{type_at, type_of_metavariable};
ghost use Rattle.lf_kernel.specs.Heads.{typing_at, seen_type};
ghost use Rattle.lf_terms.specs.Terms.{head_of};

use crate::local_context::{LocalContext, type_of_variable};
use basics::NoMemory;
use lf_terms::{GoalList, Head, Signature, Terms, Tys};

/// The type of a head as it stands where the head is declared, and how far the variables outside have risen
/// on the way to where it is used.
#[derive(Clone, Copy)]
pub struct HeadType<'a> {
    pub binders: &'a Tys,
    pub family: u32,
    pub args: &'a Terms,
    pub raise: u32,
}

/// The type of a head, if it may occur. It takes no memory; a number of a variable that is the greatest of its
/// type is out of memory.
pub fn type_of_head<'a>(
    sig: &'a Signature,
    metas: &'a GoalList,
    scope: &'a LocalContext<'a>,
    head: Head,
) -> Result<Option<HeadType<'a>>, NoMemory>
    ensures { IfOk result (λ found. seen_type found ≡ typing_at sig.now metas.now scope.now (head_of head)) }
{
    match head {
        Head::Bound(number) => match type_of_variable(scope, number as usize) {
            None => Ok(None),
            Some(ty) => {
                if number == u32::MAX {
                    return Err(NoMemory);
                }
                Ok(Some(HeadType {
                    binders: &ty.binders,
                    family: ty.family,
                    args: &ty.args,
                    raise: number + 1,
                }))
            }
        },
        Head::Const(number) => Ok(type_of_constant(sig, number)),
        Head::Meta(goal) => Ok(type_of_goal(metas, goal)),
    }
}

// The type of a constant, if there is one of this number.
fn type_of_constant<'a>(sig: &'a Signature, number: u32) -> Option<HeadType<'a>>
    ensures { seen_type result ≡ type_at (constant_types sig.now) number }
{
    if number >= sig.constants() {
        return None;
    }
    let ty = sig.type_of(number);
    Some(HeadType {
        binders: &ty.binders,
        family: ty.family,
        args: &ty.args,
        raise: 0,
    })
}

// The type of a goal as a metavariable: its context as binders over its target.
fn type_of_goal<'a>(metas: &'a GoalList, number: u32) -> Option<HeadType<'a>>
    ensures { seen_type result ≡ type_of_metavariable metas.now number }
{
    match metas.find(number) {
        None => None,
        Some(goal) => Some(HeadType {
            binders: &goal.ctx,
            family: goal.target.family,
            args: &goal.target.args,
            raise: 0,
        }),
    }
}
