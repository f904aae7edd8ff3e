//! Why and where a walk stops.

ghost use Rattle.std.specs.Prelude.{◌≡◌, ◌++◌, [], ◌∷◌, IfOk, reverse};
ghost use Rattle.unification.specs.Equations.{refused};
ghost use Rattle.meta_unify.specs.Endings.{ending_of, reason_at};

use crate::unified::Unified;
use basics::{Ids, NoMemory};
use std::alloc::Global;

// The heads differ; the metavariable occurs in what it would have to be; a variable would leave its scope; so may one that stands in an
// argument of a metavariable; the arguments are no pattern.
#[derive(Clone, Copy)]
pub enum Cause {
    Apart,
    Cyclic(u32),
    Outside,
    Hidden,
    Unclear,
}

// A cause, with the steps to its place from the last to the first, since a walk knows the place before what is above it.
#[derive(Drop)]
pub struct Stop {
    pub cause: Cause,
    pub steps: Ids,
}

// A stop here.
pub fn stop_here(alloc: Global, cause: Cause) -> Stop
    ensures cause { result.cause ≡ cause }
    ensures steps { result.steps ≡ [] }
{
    Stop {
        cause,
        steps: Ids::new(alloc),
    }
}

// A stop in a child, seen from above.
pub fn stop_in(child: usize, stop: Stop) -> Result<Stop, NoMemory>
    ensures cause { IfOk result (λ outside. outside.cause ≡ stop.cause) }
    ensures steps { IfOk result (λ outside. outside.steps ≡ stop.steps ++ child ∷ []) }
{
    if child > u32::MAX as usize {
        return Err(NoMemory);
    }
    let mut steps = stop.steps;
    steps.push(child as u32)?;
    Ok(Stop {
        cause: stop.cause,
        steps,
    })
}

// A stop as an answer.
pub fn refusal(stop: Stop) -> Unified
    ensures { ending_of result ≡ refused (reason_at stop.cause (reverse stop.steps)) }
{
    let cause = stop.cause;
    let path = turned(stop.steps);
    match cause {
        Cause::Apart => Unified::Clash(path),
        Cause::Cyclic(goal) => Unified::Occurs(goal),
        Cause::Outside => Unified::Escapes(path),
        Cause::Hidden => Unified::Prune(path),
        Cause::Unclear => Unified::NotPattern(path),
    }
}

// The path from the first step to the last.
fn turned(path: Ids) -> Ids
    ensures { result ≡ reverse path }
{
    let mut steps = path.into_vec();
    steps.reverse();
    Ids::from_vec(steps)
}
