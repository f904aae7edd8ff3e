//! Keys of rules, and what targets ask of them.

ghost use Rattle.std.specs.Prelude.{◌≡◌, IfOk, slice_get, option_map};
ghost use Rattle.lf_definitions.specs.Signatures.{constant_types};
ghost use Rattle.lf_terms.specs.Terms.{term_of, spine_of};
ghost use Rattle.lf_terms.specs.Types.{type_of};
ghost use Rattle.rule_index.specs.Keys.{head_constant, head_constants, builder_key, rule_key, type_key, all_allow, is_compatible};
ghost use Rattle.rule_index.specs.Stored.{stored_key, target_atom, demand_at, meets, demand_of};

use basics::NoMemory;
use lf_terms::{Atom, Head, Signature, Term, Ty};
use rule_sets::{Builder, Rule, RuleBook};
use std::alloc::Global;

// A rule's key: all targets, or a family with, for each argument of the conclusion, the constant at its
// head, if there is one.
#[derive(Drop)]
pub(crate) enum Key {
    All,
    Family(u32, Vec<Option<u32>>),
}

// What an argument of a target asks of a key: nothing, this constant or none, or none.
#[derive(Clone, Copy)]
pub(crate) enum Demand {
    Anything,
    Constant(u32),
    Variable,
}

// The key of the rule of a number.
pub(crate) fn key_of(
    alloc: Global,
    sig: &Signature,
    rules: &RuleBook,
    number: u32,
) -> Result<Key, NoMemory>
    ensures { IfOk result (λ key. stored_key key ≡ rule_key sig.now (slice_get rules.now.rules number)) }
{
    if number < rules.count() {
        key_of_rule(alloc, sig, rules.rule(number))
    } else {
        Ok(Key::All)
    }
}

fn key_of_rule(alloc: Global, sig: &Signature, rule: &Rule) -> Result<Key, NoMemory>
    ensures { IfOk result (λ key. stored_key key ≡ builder_key sig.now rule.now.builder rule.now.subject) }
{
    match rule.builder {
        Builder::Apply | Builder::Cases => key_of_constant(alloc, sig, rule.subject),
        Builder::Constructors => Ok(Key::Family(rule.subject, Vec::new(alloc))),
        _ => Ok(Key::All),
    }
}

// The key of the conclusion of a constant's type, if there is a constant of the number.
fn key_of_constant(alloc: Global, sig: &Signature, number: u32) -> Result<Key, NoMemory>
    ensures { IfOk result (λ key. stored_key key ≡ type_key (slice_get (constant_types sig.now) number)) }
{
    if number >= sig.constants() {
        return Ok(Key::All);
    }
    let ty = sig.type_of(number);
    let constants = head_constants(alloc, ty.args.as_slice())?;
    Ok(Key::Family(ty.family, constants))
}

// The constants at the heads of terms.
fn head_constants(alloc: Global, terms: &[Term]) -> Result<Vec<Option<u32>>, NoMemory>
    ensures { IfOk result (λ constants. constants.items ≡ head_constants (spine_of terms.now)) }
{
    let mut constants = Vec::with_capacity(alloc, terms.len())?;
    for term in terms {
        constants.push(head_constant(term))?;
    }
    Ok(constants)
}

// The constant at the head of a term that is no abstraction.
fn head_constant(term: &Term) -> Option<u32>
    ensures { result ≡ head_constant (term_of term.now) }
{
    match term {
        Term::At(Head::Const(constant), _) => Some(*constant),
        _ => None,
    }
}

// Whether a key is compatible with a target.
pub(crate) fn is_compatible(key: &Key, target: &Atom) -> bool
    ensures { result ≡ is_compatible (stored_key key.now) (target_atom target.now) }
{
    match key {
        Key::All => true,
        Key::Family(family, constants) => {
            *family == target.family && all_allow(constants.as_slice(), target.args.as_slice())
        }
    }
}

// Whether each argument of a target allows what the key asks for there.
fn all_allow(constants: &[Option<u32>], args: &[Term]) -> bool
    ensures { result ≡ all_allow constants.now (spine_of args.now) }
{
    for i in 0..constants.len() {
        if !meets(constants[i], demand_at(args, i)) {
            return false;
        }
    }
    true
}

// Whether a part of a key meets a demand.
fn meets(part: Option<u32>, demand: Demand) -> bool
    ensures { result ≡ meets part demand }
{
    match (part, demand) {
        (None, _) => true,
        (Some(_), Demand::Anything) => true,
        (Some(constant), Demand::Constant(other)) => constant == other,
        (Some(_), Demand::Variable) => false,
    }
}

// What the argument at a place asks, from 0. Where there is none, nothing is asked.
pub(crate) fn demand_at(args: &[Term], place: usize) -> Demand
    ensures { result ≡ demand_at (spine_of args.now) place }
{
    if place < args.len() {
        demand_of(&args[place])
    } else {
        Demand::Anything
    }
}

fn demand_of(term: &Term) -> Demand
    ensures { result ≡ demand_of (term_of term.now) }
{
    match term {
        Term::At(Head::Const(constant), _) => Demand::Constant(*constant),
        Term::At(Head::Bound(_), _) => Demand::Variable,
        _ => Demand::Anything,
    }
}
