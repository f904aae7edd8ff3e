//! Where a walk stands.

ghost use Rattle.std.specs.Prelude.{◌≡◌, IfOk};
ghost use Rattle.lf_kernel.specs.Heads.{typing_of, seen_type};
ghost use Rattle.lf_terms.specs.Terms.{head_of};

use crate::head_type::{HeadType, type_of_head};
use crate::local_context::LocalContext;
use basics::NoMemory;
use lf_terms::{GoalList, Head, Signature};
use std::alloc::Global;

// What is known of all that stands at a place in a term or a type: where memory comes from, the signature, the goals
// as metavariables, and the variables.
#[derive(Clone, Copy)]
pub struct Place<'a> {
    pub alloc: Global,
    pub sig: &'a Signature,
    pub metas: &'a GoalList,
    pub scope: &'a LocalContext<'a>,
}

// The type of a head at a place, if it may occur.
pub fn type_at_place<'a>(place: &'a Place<'a>, head: Head) -> Result<Option<HeadType<'a>>, NoMemory>
    ensures { IfOk result (λ found. seen_type found ≡ typing_of place.now (head_of head)) }
{
    type_of_head(place.sig, place.metas, place.scope, head)
}
