//! Reading a kind.

ghost use Rattle.std.specs.Prelude.{◌≡◌, [], IfOk, IfErr, OnOk};
ghost use Rattle.elab_terms.specs.KnownTypes.{KnownAt, IsRefusal};
ghost use Rattle.elab_terms.specs.Readers.{whole_text, typing_by};
ghost use Rattle.elab_terms.specs.Types.{ReadsKind, RefusesKind};

use crate::bound_names::BoundNames;
use crate::elab_fault::ElabFault;
use crate::ending::{Ending, Parts};
use crate::read_type::read_rest;
use crate::reader::Reader;
use file_trees::TypeTree;
use lf_kernel::local_context::LocalContext;
use lf_terms::{Kind, Tys};

/// Reads a kind. However many binders it has, it is read without recursion over them.
pub fn read_kind<'a>(
    reader: &'a Reader<'a>,
    names: &mut BoundNames,
    scope: &'a LocalContext<'a>,
    tree: &'a TypeTree,
) -> Result<Kind, ElabFault>
    requires closed { reader.now.metas.now ≡ [] }
    requires known { KnownAt reader.now.sig.now (typing_by reader.now scope.now) names.old }
    ensures read { IfOk result (λ kind. ReadsKind (whole_text reader.now) reader.now.sig.now names.old (typing_by reader.now scope.now) tree.now kind.binders) }
    ensures refused { IfErr result (IsRefusal (RefusesKind (whole_text reader.now) reader.now.sig.now names.old (typing_by reader.now scope.now) tree.now)) }
    ensures names { OnOk result (names.new ≡ names.old) }
{
    let prefix = Vec::new(reader.alloc);
    match read_rest(reader, names, scope, Ending::Word, prefix, tree) {
        Err(fault) => Err(fault),
        Ok(parts) => {
            let Parts { binders, end } = parts;
            match end {
                Some(_) => unreachable!(),
                None => {
                    let binders = Tys::from_vec(reader.alloc, binders)?;
                    Ok(Kind { binders })
                }
            }
        }
    }
}
