//! Which places of the context are kept.

ghost use Rattle.std.specs.Prelude.{◌≡◌, map, IfOk};
ghost use Rattle.std.specs.List.{list_any};
ghost use Rattle.lf_definitions.specs.Syntax.{bound};
ghost use Rattle.lf_terms.specs.Targets.{goal_of};
ghost use Rattle.lf_terms.specs.Types.{type_of};
ghost use Rattle.opening_laws.specs.Openings.{context_variable};
ghost use Rattle.applications.specs.Candidates.{hypotheses_of, drops, kept_by_splitting};
ghost use Rattle.build_shared.specs.Seen.{seen_hypothesis};
ghost use Rattle.build_cases.specs.Splits.{mentions_besides};

use crate::major::{occurs_at_end, occurs_later};
use crate::split::Split;
use basics::{Ids, NoMemory};
use build_shared::Hypothesis;
use build_shared::hypotheses::places;
use build_shared::kept::places_without;
use build_shared::variables::{occurs_among, occurs_in_type};

// The places that are kept where the hypothesis at a place is split.
pub fn kept_places(split: &Split<'_>, place: u32) -> Result<Ids, NoMemory>
    requires { map seen_hypothesis split.now.hyps.now ≡ hypotheses_of split.now.usage.now.goal.now.ctx }
    ensures { IfOk result (λ kept. kept ≡ kept_by_splitting (type_of split.now.ty.now) split.now.major (goal_of split.now.usage.now.goal.now) place) }
{
    let is_dropped = drops(split, place)?;
    let ctx = &split.usage.goal.ctx;
    if !is_dropped {
        let all = places(split.usage.alloc, ctx)?;
        return Ok(all);
    }
    let mut dropped = Ids::new(split.usage.alloc);
    dropped.push(place)?;
    let kept = places_without(split.usage.alloc, &dropped, ctx)?;
    Ok(kept)
}

// Whether it is dropped: no other hypothesis mentions it, the major argument occurs in no later one, and the major argument occurs in the
// conclusion, or the target does not mention the hypothesis.
fn drops(split: &Split<'_>, place: u32) -> Result<bool, NoMemory>
    requires { map seen_hypothesis split.now.hyps.now ≡ hypotheses_of split.now.usage.now.goal.now.ctx }
    ensures { IfOk result (λ answer. answer ≡ drops (type_of split.now.ty.now) split.now.major (goal_of split.now.usage.now.goal.now) place) }
{
    let variable = variable_at(split.usage.goal.ctx.len(), place as usize)?;
    let mentioned = mentioned_besides(split.hyps, variable, place)?;
    if mentioned {
        return Ok(false);
    }
    let later = occurs_later(split.ty, split.major as usize)?;
    if later {
        return Ok(false);
    }
    let at_end = occurs_at_end(split.ty, split.major as usize)?;
    if at_end {
        return Ok(true);
    }
    let in_target = occurs_among(variable, &split.usage.goal.target.args)?;
    Ok(!in_target)
}

// The number of the variable at a place of a context with so many entries.
fn variable_at(count: usize, place: usize) -> Result<u32, NoMemory>
    ensures { IfOk result (λ number. bound number ≡ context_variable count place) }
{
    let after = count.saturating_sub(place);
    let number = after.saturating_sub(1);
    if number > u32::MAX as usize {
        return Err(NoMemory);
    }
    Ok(number as u32)
}

// Whether a hypothesis that isn't at a place mentions a variable.
fn mentioned_besides(hyps: &[Hypothesis], number: u32, place: u32) -> Result<bool, NoMemory>
    ensures { IfOk result (λ found. found ≡ list_any (mentions_besides number place) (map seen_hypothesis hyps.now)) }
{
    for i in 0..hyps.len() {
        let found = mentions_besides(&hyps[i], number, place)?;
        if found {
            return Ok(true);
        }
    }
    Ok(false)
}

fn mentions_besides(hyp: &Hypothesis, number: u32, place: u32) -> Result<bool, NoMemory>
    ensures { IfOk result (λ mentions. mentions ≡ mentions_besides number place (seen_hypothesis hyp.now)) }
{
    if hyp.place == place {
        return Ok(false);
    }
    let mentions = occurs_in_type(number, &hyp.ty)?;
    Ok(mentions)
}
