//! What keeps a rule out of a book.

ghost use Rattle.std.specs.Prelude.{◌≡◌, ◌↔◌, Some, slice_get, option_map, IsTrue, IfOk, MatchOption};
ghost use Rattle.lf_definitions.specs.Signatures.{constant_types};
ghost use Rattle.lf_terms.specs.Types.{type_of};
ghost use Rattle.rule_sets.specs.Refusals.{IsAtomic, IsTaken, IsFull, IsNoPercent, HasNoSubject, IsBadMajor, HasBadPremises, IsFirstFault};
ghost use Rattle.rule_sets.specs.Books.{IsUserBuilder};
ghost use Rattle.rule_sets.specs.Acceptance.{HasNoFault, HasMajor, HasPremisesOf};

use crate::book::RuleBook;
use crate::rule::{Builder, Phase, Rule, RuleFault};
use basics::NoMemory;
use basics::limits::MOST_RULES;
use binder_marks::mentioned_binders;
use lf_terms::{Signature, Ty};
use std::alloc::Global;

// The most premises of a forward or destruct rule.
const MOST_PREMISES: usize = 4;

/// The first fault that a rule has, if it has one.
pub fn first_fault(
    alloc: Global,
    book: &RuleBook,
    sig: &Signature,
    rule: &Rule,
) -> Result<Option<RuleFault>, NoMemory>
    requires { IsUserBuilder rule.now.builder }
    ensures { IfOk result (λ fault. MatchOption fault (HasNoFault sig.now book.now rule.now) (IsFirstFault sig.now book.now rule.now)) }
{
    if is_taken(book, rule) {
        return Ok(Some(RuleFault::Taken));
    }
    if is_full(book) {
        return Ok(Some(RuleFault::Full));
    }
    if is_no_percent(rule.phase) {
        return Ok(Some(RuleFault::Percent));
    }
    if has_no_subject(book, sig, rule.builder, rule.subject) {
        return Ok(Some(RuleFault::NoConst));
    }
    if is_bad_major(sig, rule.builder, rule.subject, rule.major) {
        return Ok(Some(RuleFault::BadMajor));
    }
    if has_bad_premises(alloc, sig, rule.builder, rule.subject)? {
        return Ok(Some(RuleFault::Premises));
    }
    Ok(None)
}

fn is_taken(book: &RuleBook, rule: &Rule) -> bool
    ensures { IsTrue result ↔ IsTaken book.now rule.now }
{
    book.find(&rule.name).is_some()
}

fn is_full(book: &RuleBook) -> bool
    ensures { IsTrue result ↔ IsFull book.now }
{
    book.count() >= MOST_RULES
}

fn is_no_percent(phase: Phase) -> bool
    ensures { IsTrue result ↔ IsNoPercent phase }
{
    match phase {
        Phase::Unsafe(percent) => percent > 100,
        _ => false,
    }
}

fn has_no_subject(book: &RuleBook, sig: &Signature, builder: Builder, subject: u32) -> bool
    ensures { IsTrue result ↔ HasNoSubject sig.now book.now builder subject }
{
    match builder {
        Builder::Constructors => book.ctors(subject).is_none(),
        _ => subject >= sig.constants(),
    }
}

fn is_bad_major(sig: &Signature, builder: Builder, subject: u32, major: u32) -> bool
    ensures { IsTrue result ↔ IsBadMajor sig.now builder subject major }
{
    match builder {
        Builder::Cases => match constant(sig, subject) {
            None => true,
            Some(ty) => !has_major(ty, major),
        },
        _ => major != 0,
    }
}

fn has_bad_premises(
    alloc: Global,
    sig: &Signature,
    builder: Builder,
    subject: u32,
) -> Result<bool, NoMemory>
    ensures { IfOk result (λ bad. IsTrue bad ↔ HasBadPremises sig.now builder subject) }
{
    match builder {
        Builder::Forward | Builder::Destruct => match constant(sig, subject) {
            None => Ok(true),
            Some(ty) => Ok(!has_premises(alloc, ty)?),
        },
        _ => Ok(false),
    }
}

// The type of a constant, if there is one of the number.
fn constant(sig: &Signature, number: u32) -> Option<&Ty>
    ensures { option_map (λ ty. type_of ty.now) result ≡ slice_get (constant_types sig.now) number }
{
    if number < sig.constants() {
        Some(sig.type_of(number))
    } else {
        None
    }
}

// Whether the argument of a number, from 1, is there and has no binders.
fn has_major(ty: &Ty, major: u32) -> bool
    ensures { IsTrue result ↔ HasMajor (type_of ty.now) major }
{
    let binders = ty.binders.as_slice();
    let major = major as usize;
    if major == 0 || major > binders.len() {
        return false;
    }
    is_atomic(&binders[major - 1])
}

// Whether a type has as many premises as may be, none of which has binders.
fn has_premises(alloc: Global, ty: &Ty) -> Result<bool, NoMemory>
    ensures { IfOk result (λ has. IsTrue has ↔ HasPremisesOf (type_of ty.now)) }
{
    let marks = mentioned_binders(alloc, ty)?;
    let binders = ty.binders.as_slice();
    let mut count = 0;
    for i in 0..binders.len() {
        if !marks[i] {
            if !is_atomic(&binders[i]) {
                return Ok(false);
            }
            count += 1;
        }
    }
    Ok(1 <= count && count <= MOST_PREMISES)
}

// Whether a type has no binders.
fn is_atomic(ty: &Ty) -> bool
    ensures { IsTrue result ↔ IsAtomic (type_of ty.now) }
{
    ty.binders.len() == 0
}
