//! Places that are kept.

ghost use Rattle.std.specs.Prelude.{◌≡◌, IfOk};
ghost use Rattle.applications.specs.Candidates.{places_of, without};

use crate::dropping::without;
use crate::hypotheses::places;
use basics::{Ids, NoMemory};
use lf_terms::Ctx;
use std::alloc::Global;

/// The places of a context but for these, oldest first. These are few: each place is compared with all of them.
pub fn places_without(alloc: Global, dropped: &Ids, ctx: &Ctx) -> Result<Ids, NoMemory>
    ensures { IfOk result (λ kept. kept ≡ without dropped.now (places_of ctx.now)) }
{
    let all = places(alloc, ctx)?;
    without(alloc, dropped, &all)
}
