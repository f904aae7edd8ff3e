//! What keeps a list of constructors out of a book.

ghost use Rattle.std.specs.Prelude.{◌≡◌, ◌↔◌, None, IsTrue, IfOk, MatchOption};
ghost use Rattle.rule_sets.specs.Books.{Book, list_of};
ghost use Rattle.rule_sets.specs.Refusals.{AreConstructors, HasFamily, IsFirstFaultOfList};

use crate::rule::CtorFault;
use basics::{Ids, NoMemory};
use indexmap::IndexSet;
use lf_terms::Signature;
use std::alloc::Global;

/// The first fault that a list of constructors has by itself, if it has one.
pub fn first_fault_of_list(
    alloc: Global,
    sig: &Signature,
    family: u32,
    constants: &Ids,
) -> Result<Option<CtorFault>, NoMemory>
    ensures { IfOk result (λ fault. MatchOption fault (AreConstructors sig.now family constants.now)
        (λ fault. (book : Book) → list_of book.lists family ≡ None → IsFirstFaultOfList sig.now book family constants.now fault)) }
{
    let items = constants.as_slice();
    if items.len() > u32::MAX as usize {
        return Err(NoMemory);
    }
    let mut passed = IndexSet::new(alloc);
    for i in 0..items.len() {
        let (_, is_new) = passed.insert_full(items[i])?;
        if !is_new {
            return Ok(Some(CtorFault::Repeated(i as u32)));
        }
        if !has_family(sig, items[i], family) {
            return Ok(Some(CtorFault::Other(i as u32)));
        }
    }
    Ok(None)
}

// Whether a number is that of a constant whose conclusion has the family.
fn has_family(sig: &Signature, number: u32, family: u32) -> bool
    ensures { IsTrue result ↔ HasFamily sig.now family number }
{
    if number >= sig.constants() {
        return false;
    }
    sig.type_of(number).family == family
}
