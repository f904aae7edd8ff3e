//! Look-ups in an index, as text.

use basics::{Bytes, NoMemory};
use lf_terms::{Atom, Signature, Ty};
use rule_index::Index;
use rule_sets::{Ordered, RuleBook};
use std::alloc::Global;
use test_goals::{append_rule, default_sets};

/// The names of the rules that the index of a book finds for the end of a type, in the order in which they are tried.
pub(crate) fn append_found(
    alloc: Global,
    sig: &Signature,
    rules: &RuleBook,
    ty: &Ty,
    text: &mut Bytes,
) -> Result<(), NoMemory> {
    let order = default_order(alloc, rules)?;
    let index = Index::build(alloc, sig, rules, &order)?;
    let args = ty.args.copy()?;
    let target = Atom {
        family: ty.family,
        args,
    };
    let found = index.lookup(alloc, &target)?;
    append_names(rules, found.as_slice(), text)
}

// The rules of the set of rules that name none, and the built-in ones.
fn default_order(alloc: Global, rules: &RuleBook) -> Result<Ordered, NoMemory> {
    let sets = default_sets(alloc)?;
    rules.active(alloc, &sets)
}

fn append_names(rules: &RuleBook, numbers: &[u32], text: &mut Bytes) -> Result<(), NoMemory> {
    for i in 0..numbers.len() {
        if i > 0 {
            text.push(b' ')?;
        }
        append_rule(rules, numbers[i], text)?;
    }
    Ok(())
}
