//! Reading a family with its arguments.

ghost use Rattle.std.specs.Prelude.{◌≡◌, ℕ, [], IfOk, IfErr, OnOk, length};
ghost use Rattle.lf_definitions.specs.Syntax.{shapes_of_types};
ghost use Rattle.lf_definitions.specs.Substitution.{stays};
ghost use Rattle.lf_terms.specs.Terms.{spine_of};
ghost use Rattle.lf_terms.specs.Types.{atom_of};
ghost use Rattle.file_trees.specs.Trees.{family};
ghost use Rattle.file_trees.specs.TermViews.{trees_of};
ghost use Rattle.elab_terms.specs.KnownTypes.{KnownAt, IsRefusal};
ghost use Rattle.elab_terms.specs.Domains.{Domains};
ghost use Rattle.elab_terms.specs.Readers.{whole_text, typing_by};
ghost use Rattle.elab_terms.specs.Terms.{ReadsArguments, RefusesArguments};
ghost use Rattle.elab_terms.specs.Types.{ReadsType, RefusesType};

use crate::bound_names::BoundNames;
use crate::elab_fault::ElabFault;
use crate::file_text::text;
use crate::head::family_at;
use crate::reader::Reader;
use crate::terms::read_term;
use file_trees::{Span, TermTree, TermTrees, place};
use lf_kernel::local_context::LocalContext;
use lf_terms::shape_of::shapes_of;
use lf_terms::subst::put_type;
use lf_terms::{Atom, Shapes, Term, Terms, Ty, Tys};

/// Reads terms at the binders of a kind, one each.
pub fn read_terms<'a>(
    reader: &'a Reader<'a>,
    names: &mut BoundNames,
    scope: &'a LocalContext<'a>,
    items: &'a [TermTree],
    binders: &'a Tys,
    shapes: &'a Shapes,
) -> Result<Vec<Term>, ElabFault>
    requires closed { reader.now.metas.now ≡ [] }
    requires known { KnownAt reader.now.sig.now (typing_by reader.now scope.now) names.old }
    requires domains { Domains reader.now.sig.now (typing_by reader.now scope.now) 0 binders.now }
    requires shapes { shapes.now ≡ shapes_of_types binders.now }
    requires count { length items.now ≡ length binders.now }
    ensures read { IfOk result (λ terms. ReadsArguments (whole_text reader.now) reader.now.sig.now names.old (typing_by reader.now scope.now) stays (trees_of items.now) binders.now (spine_of terms.items)) }
    ensures refused { IfErr result (IsRefusal (RefusesArguments (whole_text reader.now) reader.now.sig.now names.old (typing_by reader.now scope.now) stays (trees_of items.now) binders.now)) }
    ensures names { OnOk result (names.new ≡ names.old) }
{
    let types = binders.as_slice();
    let shapes = shapes.as_slice();
    let mut terms = Vec::new(reader.alloc);
    for i in 0..types.len() {
        let ty = put_type(reader.alloc, &shapes[..i], terms.as_slice(), 0, &types[i])?;
        match read_term(&*reader, names, &*scope, &items[i], &ty) {
            Err(fault) => return Err(fault),
            Ok(term) => terms.push(term)?,
        }
    }
    Ok(terms)
}

/// Reads a family with its arguments.
pub fn read_family<'a>(
    reader: &'a Reader<'a>,
    names: &mut BoundNames,
    scope: &'a LocalContext<'a>,
    span: Span,
    arguments: &'a TermTrees,
) -> Result<Atom, ElabFault>
    requires closed { reader.now.metas.now ≡ [] }
    requires known { KnownAt reader.now.sig.now (typing_by reader.now scope.now) names.old }
    ensures read { IfOk result (λ atom. (count : ℕ) → ReadsType (whole_text reader.now) reader.now.sig.now names.old (typing_by reader.now scope.now) count (family span arguments.now) (atom_of atom)) }
    ensures refused { IfErr result (IsRefusal (λ fault. (count : ℕ) → RefusesType (whole_text reader.now) reader.now.sig.now names.old (typing_by reader.now scope.now) count (family span arguments.now) fault)) }
    ensures names { OnOk result (names.new ≡ names.old) }
{
    let sig = reader.sig;
    let Some(number) = family_at(sig, names, text(reader.source, span)) else {
        return Err(ElabFault::Unknown(span.start));
    };
    if number >= sig.families() {
        unreachable!()
    }
    let binders = &sig.kind_of(number).binders;
    let items = arguments.as_slice();
    let count = binders.len();
    if items.len() < count {
        return Err(ElabFault::IllTyped(span.start));
    }
    let shapes = shapes_of(reader.alloc, binders)?;
    match read_terms(&*reader, names, &*scope, &items[..count], binders, &shapes) {
        Err(fault) => Err(fault),
        Ok(terms) => {
            if items.len() > count {
                return Err(ElabFault::IllTyped(place(&items[count])));
            }
            let args = Terms::from_vec(reader.alloc, terms)?;
            Ok(Atom {
                family: number,
                args,
            })
        }
    }
}
