//! Adding entries to a signature.

ghost use Rattle.std.specs.Prelude.{[], IfOk};
ghost use Rattle.lf_definitions.specs.Signatures.{family_entry, constant_entry, kinds_in, typing_in};
ghost use Rattle.lf_kernel.specs.Adding.{AddsEntry, MayAddOr};
ghost use Rattle.lf_kernel.specs.Checks.{ChecksType};
ghost use Rattle.lf_terms.specs.Types.{type_of};

use crate::answer::Check;
use crate::sig_fault::SigFault;
use crate::typing::{check_kind, check_type};
use basics::limits::MOST_SYMBOLS;
use basics::{Name, NoMemory};
use lf_terms::{GoalList, Kind, Signature, Ty, Tys};
use std::alloc::Global;

/// Adds a family with its kind, under a new name, and answers its number among the families. It is refused
/// as `Taken`, with the place of the entry that has the name; as `Full`; as `Ill`, with the path at which
/// its kind first fails to be well formed; or when memory runs out, with the name. A refusal changes nothing.
pub fn add_family(
    alloc: Global,
    sig: &mut Signature,
    name: Name,
    kind: Kind,
) -> Result<u32, SigFault>
    ensures { AddsEntry sig.old sig.new (family_entry name kind.binders) result }
{
    if let Err(fault) = room_for(&*sig, &name) {
        return Err(fault);
    }
    match check_kind(alloc, &*sig, &kind) {
        Err(NoMemory) => Err(SigFault::NoMemory(name)),
        Ok(Check::Ill(path)) => Err(SigFault::Ill(path)),
        Ok(Check::Well) => match sig.push_family(alloc, name, kind) {
            Ok(number) => Ok(number),
            Err(name) => Err(SigFault::NoMemory(name)),
        },
    }
}

/// Adds a constant with its type, as `add_family` adds a family, and answers its number among the constants.
pub fn add_const(alloc: Global, sig: &mut Signature, name: Name, ty: Ty) -> Result<u32, SigFault>
    ensures { AddsEntry sig.old sig.new (constant_entry name (type_of ty)) result }
{
    if let Err(fault) = room_for(&*sig, &name) {
        return Err(fault);
    }
    match check_closed(alloc, &*sig, &ty) {
        Err(NoMemory) => Err(SigFault::NoMemory(name)),
        Ok(Check::Ill(path)) => Err(SigFault::Ill(path)),
        Ok(Check::Well) => match sig.push_const(alloc, name, ty) {
            Ok(number) => Ok(number),
            Err(name) => Err(SigFault::NoMemory(name)),
        },
    }
}

// Whether an entry of this name may be added, if it is well formed, or why not.
fn room_for(sig: &Signature, name: &Name) -> Result<(), SigFault>
    ensures { MayAddOr sig.now name.now result }
{
    sig.has_few_entries();
    match sig.order_of(name) {
        Some(place) => Err(SigFault::Taken(place)),
        None => {
            if sig.size() >= MOST_SYMBOLS {
                Err(SigFault::Full)
            } else {
                Ok(())
            }
        }
    }
}

// Whether a type is well formed with no variables and no metavariables.
fn check_closed(alloc: Global, sig: &Signature, ty: &Ty) -> Result<Check, NoMemory>
    ensures { IfOk result (λ answer. ChecksType (kinds_in sig.now) (typing_in sig.now [] []) (type_of ty.now) answer) }
{
    let metas = GoalList::new(alloc);
    check_type(alloc, sig, &metas, &Tys::new(), ty)
}
