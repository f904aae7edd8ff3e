//! Types and kinds with no variables around them.

ghost use Rattle.std.specs.Prelude.{[], IfOk, IfErr};
ghost use Rattle.lf_definitions.specs.Signatures.{kinds_in, typing_in};
ghost use Rattle.lf_definitions.specs.Typing.{Formed, FormedKind};
ghost use Rattle.lf_terms.specs.Types.{type_of};
ghost use Rattle.elab_terms.specs.KnownTypes.{IsRefusal};
ghost use Rattle.elab_terms.specs.Types.{ReadsType, RefusesType, ReadsKind, RefusesKind};

use crate::bound_names::BoundNames;
use crate::elab_fault::ElabFault;
use crate::read_kind::read_kind;
use crate::read_type::read_type;
use crate::reader::Reader;
use file_trees::TypeTree;
use lf_kernel::local_context::LocalContext;
use lf_terms::{GoalList, Kind, Signature, Ty};
use std::alloc::Global;

/// Reads a type with no variables around it. It is well formed.
pub fn closed_type(
    alloc: Global,
    source: &[u8],
    sig: &Signature,
    tree: &TypeTree,
) -> Result<Ty, ElabFault>
    ensures read { IfOk result (λ ty. ReadsType source.now sig.now [] (typing_in sig.now [] []) 0 tree.now (type_of ty)) }
    ensures formed { IfOk result (λ ty. Formed (kinds_in sig.now) (typing_in sig.now [] []) (type_of ty)) }
    ensures refused { IfErr result (IsRefusal (RefusesType source.now sig.now [] (typing_in sig.now [] []) 0 tree.now)) }
{
    sig.is_formed();
    let metas = GoalList::new(alloc);
    let mut names = BoundNames::new(alloc);
    let reader = Reader {
        alloc,
        source,
        sig,
        metas: &metas,
    };
    match read_type(&reader, &mut names, &LocalContext::Closed, tree) {
        Err(fault) => Err(fault),
        Ok(ty) => Ok(ty),
    }
}

/// Reads a kind. It is well formed.
pub fn closed_kind(
    alloc: Global,
    source: &[u8],
    sig: &Signature,
    tree: &TypeTree,
) -> Result<Kind, ElabFault>
    ensures read { IfOk result (λ kind. ReadsKind source.now sig.now [] (typing_in sig.now [] []) tree.now kind.binders) }
    ensures formed { IfOk result (λ kind. FormedKind (kinds_in sig.now) (typing_in sig.now [] []) kind.binders) }
    ensures refused { IfErr result (IsRefusal (RefusesKind source.now sig.now [] (typing_in sig.now [] []) tree.now)) }
{
    sig.is_formed();
    let metas = GoalList::new(alloc);
    let mut names = BoundNames::new(alloc);
    let reader = Reader {
        alloc,
        source,
        sig,
        metas: &metas,
    };
    match read_kind(&reader, &mut names, &LocalContext::Closed, tree) {
        Err(fault) => Err(fault),
        Ok(kind) => Ok(kind),
    }
}
