//! The tuples of hypotheses, one after another.

ghost use Rattle.std.specs.Prelude.{◌≡◌, ◌+◌, ◌++◌, ◌∷◌, [], map, length, All, IfOk, OnOk};
ghost use Rattle.build_shared.specs.RuleUses.{AddsWhatCounts, KeepsShapes};
ghost use Rattle.build_shared.specs.Seen.{seen_atom, seen_hypothesis};
ghost use Rattle.build_forward.specs.Onwards.{IsOnward, IsAtomIn, tuple_offer, tuple_offers};
ghost use Rattle.build_forward.specs.Sieves.{IsSieve, ClashesComeToNothing};

use crate::clashes::atoms_clash;
use crate::onward::{Onward, candidate_of};
use crate::refusal::{Sieve, awaited_after};
use basics::NoMemory;
use build_shared::rule_use::add_if_counts;
use build_shared::{App, Hypothesis};
use lf_terms::Atom;
use std::alloc::Global;

// Adds what comes of the tuples that begin with these hypotheses and have so many more. They are passed over where the first premises are
// refused.
#[cycle(go_on)]
pub fn go_on(
    sieve: &Sieve<'_>,
    chosen: &[Hypothesis],
    left: usize,
    found: &mut Vec<App>,
) -> Result<(), NoMemory>
    requires sieve { IsSieve sieve.now }
    requires chosen { All (IsAtomIn sieve.now.onward.now.usage.now) (map seen_hypothesis chosen.now) }
    requires count { length chosen.now + left ≡ length sieve.now.onward.now.premises.now }
    ensures found { OnOk result (AddsWhatCounts sieve.now.onward.now.usage.now (tuple_offers sieve.now.onward.now left (map seen_hypothesis chosen.now)) found.old.items found.new.items) }
    ensures shapes { OnOk result (KeepsShapes sieve.now.onward.now.usage.now found.old.items found.new.items) }
{
    if left == 0 {
        return add_tuple(sieve.onward, chosen, found);
    }
    let Some(awaited) = awaited_after(sieve, chosen)? else {
        return Ok(());
    };
    let hyps = sieve.onward.hyps;
    for i in 0..hyps.len() {
        go_on_with(sieve, chosen, &hyps[i], &awaited, left - 1, found)?;
    }
    Ok(())
}

// The same, where they go on with a hypothesis. They are passed over where its type clashes with what is awaited.
#[cycle(go_on)]
fn go_on_with(
    sieve: &Sieve<'_>,
    chosen: &[Hypothesis],
    hyp: &Hypothesis,
    awaited: &Atom,
    left: usize,
    found: &mut Vec<App>,
) -> Result<(), NoMemory>
    requires sieve { IsSieve sieve.now }
    requires chosen { All (IsAtomIn sieve.now.onward.now.usage.now) (map seen_hypothesis chosen.now) }
    requires hyp { IsAtomIn sieve.now.onward.now.usage.now (seen_hypothesis hyp.now) }
    requires awaited { ClashesComeToNothing sieve.now.onward.now (map seen_hypothesis chosen.now) (seen_atom awaited.now) }
    requires count { length chosen.now + 1 + left ≡ length sieve.now.onward.now.premises.now }
    ensures found { OnOk result (AddsWhatCounts sieve.now.onward.now.usage.now
        (tuple_offers sieve.now.onward.now left (map seen_hypothesis chosen.now ++ seen_hypothesis hyp.now ∷ [])) found.old.items found.new.items) }
    ensures shapes { OnOk result (KeepsShapes sieve.now.onward.now.usage.now found.old.items found.new.items) }
{
    if atoms_clash(awaited, &hyp.ty) {
        return Ok(());
    }
    let longer = one_more(sieve.onward.usage.alloc, chosen, hyp)?;
    go_on(sieve, longer.as_slice(), left, found)?;
    Ok(())
}

// Adds what comes of a tuple.
pub fn add_tuple(
    onward: &Onward<'_>,
    chosen: &[Hypothesis],
    found: &mut Vec<App>,
) -> Result<(), NoMemory>
    requires onward { IsOnward onward.now }
    requires chosen { All (IsAtomIn onward.now.usage.now) (map seen_hypothesis chosen.now) }
    requires count { length chosen.now ≡ length onward.now.premises.now }
    ensures found { OnOk result (AddsWhatCounts onward.now.usage.now (tuple_offer onward.now (map seen_hypothesis chosen.now) ∷ []) found.old.items found.new.items) }
    ensures shapes { OnOk result (KeepsShapes onward.now.usage.now found.old.items found.new.items) }
{
    let candidate = candidate_of(onward, chosen)?;
    add_if_counts(onward.usage, candidate, found)
}

// Hypotheses and one more.
fn one_more(
    alloc: Global,
    chosen: &[Hypothesis],
    hyp: &Hypothesis,
) -> Result<Vec<Hypothesis>, NoMemory>
    ensures { IfOk result (λ longer. map seen_hypothesis longer.items ≡ map seen_hypothesis chosen.now ++ seen_hypothesis hyp.now ∷ []) }
{
    let mut longer = Vec::new(alloc);
    for i in 0..chosen.len() {
        let earlier = copied(&chosen[i])?;
        longer.push(earlier)?;
    }
    let last = copied(hyp)?;
    longer.push(last)?;
    Ok(longer)
}

pub fn copied(hyp: &Hypothesis) -> Result<Hypothesis, NoMemory>
    ensures { IfOk result (λ copy. seen_hypothesis copy ≡ seen_hypothesis hyp.now) }
{
    let place = hyp.place;
    let ty = hyp.ty.copy()?;
    Ok(Hypothesis { place, ty })
}
