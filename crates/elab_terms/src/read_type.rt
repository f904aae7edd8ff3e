//! Reading a type, binder by binder, and what a kind shares with it.

ghost use Rattle.std.specs.Prelude.{◌≡◌, [], option_map, IfOk, IfErr, OnOk};
ghost use Rattle.lf_definitions.specs.Typing.{with_context};
ghost use Rattle.lf_terms.specs.Types.{type_of, types_of, atom_of};
ghost use Rattle.file_trees.specs.Trees.{Classifier, bind, family};
ghost use Rattle.file_trees.specs.TypeViews.{bindings_of, last_of};
ghost use Rattle.elab_terms.specs.ReadBinders.{Opens, ReadsAfter, RefusesAfter};
ghost use Rattle.elab_terms.specs.KnownTypes.{KnownAt, IsRefusal};
ghost use Rattle.elab_terms.specs.Readers.{whole_text, typing_by};
ghost use Rattle.elab_terms.specs.Types.{ReadsType, RefusesType};
ghost use Rattle.elab_terms.specs.declared.ending.Ending.TheVariants as endings;

use crate::binding::{binding_place, bound_name, domain};
use crate::bound_names::BoundNames;
use crate::elab_fault::ElabFault;
use crate::ending::{Ending, Parts, has_room};
use crate::reader::Reader;
use crate::types::read_family;
use file_trees::{Binder, Last, Span, TermTrees, TypeTree};
use lf_kernel::local_context::LocalContext;
use lf_terms::{Ty, Tys};

/// Reads a type: names are resolved, and its terms are read. The fault is the first.
#[cycle(read_type)]
pub fn read_type<'a>(
    reader: &'a Reader<'a>,
    names: &mut BoundNames,
    scope: &'a LocalContext<'a>,
    tree: &'a TypeTree,
) -> Result<Ty, ElabFault>
    requires closed { reader.now.metas.now ≡ [] }
    requires known { KnownAt reader.now.sig.now (typing_by reader.now scope.now) names.old }
    ensures read { IfOk result (λ ty. ReadsType (whole_text reader.now) reader.now.sig.now names.old (typing_by reader.now scope.now) 0 tree.now (type_of ty)) }
    ensures refused { IfErr result (IsRefusal (RefusesType (whole_text reader.now) reader.now.sig.now names.old (typing_by reader.now scope.now) 0 tree.now)) }
    ensures names { OnOk result (names.new ≡ names.old) }
{
    let prefix = Vec::new(reader.alloc);
    match read_rest(reader, names, scope, Ending::Family, prefix, tree) {
        Err(fault) => Err(fault),
        Ok(parts) => {
            let Parts { binders, end } = parts;
            match end {
                None => unreachable!(),
                Some(atom) => {
                    let binders = Tys::from_vec(reader.alloc, binders)?;
                    Ok(Ty {
                        binders,
                        family: atom.family,
                        args: atom.args,
                    })
                }
            }
        }
    }
}

/// What comes after these binders of a type or of a kind. However many there are, they are read
/// without recursion over them.
#[cycle(read_type)]
pub fn read_rest<'a>(
    reader: &'a Reader<'a>,
    names: &mut BoundNames,
    scope: &'a LocalContext<'a>,
    ending: Ending,
    prefix: Vec<Ty>,
    tree: &'a TypeTree,
) -> Result<Parts, ElabFault>
    requires closed { reader.now.metas.now ≡ [] }
    requires known { KnownAt reader.now.sig.now (with_context (types_of prefix.items) (typing_by reader.now scope.now)) names.old }
    ensures read { IfOk result (λ parts. ReadsAfter ending (whole_text reader.now) reader.now.sig.now names.old (typing_by reader.now scope.now) (types_of prefix.items) tree.now (types_of parts.binders.items) (option_map atom_of parts.end)) }
    ensures refused { IfErr result (IsRefusal (RefusesAfter ending (whole_text reader.now) reader.now.sig.now names.old (typing_by reader.now scope.now) (types_of prefix.items) tree.now)) }
    ensures names { OnOk result (names.new ≡ names.old) }
{
    let depth = names.len();
    let (binders, last) = tree.parts();
    match read_binders(reader, names, scope, ending, prefix, binders.as_slice()) {
        Err(fault) => Err(fault),
        Ok(types) => match read_last(reader, names, scope, ending, types, last) {
            Err(fault) => Err(fault),
            Ok(parts) => {
                names.truncate(depth);
                Ok(parts)
            }
        },
    }
}

// The binders of a type or of a kind, after those before.
#[cycle(read_type)]
fn read_binders<'a>(
    reader: &'a Reader<'a>,
    names: &mut BoundNames,
    scope: &'a LocalContext<'a>,
    ending: Ending,
    prefix: Vec<Ty>,
    items: &'a [Binder],
) -> Result<Vec<Ty>, ElabFault>
    requires closed { reader.now.metas.now ≡ [] }
    requires known { KnownAt reader.now.sig.now (with_context (types_of prefix.items) (typing_by reader.now scope.now)) names.old }
    ensures read { IfOk result (λ types. Opens ending (whole_text reader.now) reader.now.sig.now names.old names.new (typing_by reader.now scope.now) (types_of prefix.items) (types_of types.items) (bindings_of items.now) []) }
    ensures refused { IfErr result (IsRefusal (λ fault. (last : Classifier) → RefusesAfter ending (whole_text reader.now) reader.now.sig.now names.old (typing_by reader.now scope.now) (types_of prefix.items) (bind (bindings_of items.now) last) fault)) }
{
    let mut types = prefix;
    for i in 0..items.len() {
        if !has_room(ending, types.len()) {
            return Err(ElabFault::TooMany(binding_place(&items[i])));
        }
        match read_type(
            &*reader,
            names,
            &LocalContext::Under(types.as_slice(), &*scope),
            domain(&items[i]),
        ) {
            Err(fault) => return Err(fault),
            Ok(ty) => {
                names.push(reader.alloc, bound_name(reader.source, &items[i]))?;
                types.push(ty)?;
            }
        }
    }
    Ok(types)
}

// The last part of a type or of a kind, after these binders.
#[cycle(read_type)]
fn read_last<'a>(
    reader: &'a Reader<'a>,
    names: &mut BoundNames,
    scope: &'a LocalContext<'a>,
    ending: Ending,
    types: Vec<Ty>,
    last: &'a Last,
) -> Result<Parts, ElabFault>
    requires closed { reader.now.metas.now ≡ [] }
    requires known { KnownAt reader.now.sig.now (with_context (types_of types.items) (typing_by reader.now scope.now)) names.old }
    ensures read { IfOk result (λ parts. ReadsAfter ending (whole_text reader.now) reader.now.sig.now names.old (typing_by reader.now scope.now) (types_of types.items) (last_of last.now) (types_of parts.binders.items) (option_map atom_of parts.end)) }
    ensures refused { IfErr result (IsRefusal (RefusesAfter ending (whole_text reader.now) reader.now.sig.now names.old (typing_by reader.now scope.now) (types_of types.items) (last_of last.now))) }
    ensures names { OnOk result (names.new ≡ names.old) }
{
    match last {
        Last::Group(inner) => read_rest(reader, names, scope, ending, types, inner),
        Last::Fam(span, arguments) => match ending {
            Ending::Word => Err(ElabFault::Unknown(span.start)),
            Ending::Family => read_atom(reader, names, scope, types, *span, arguments),
        },
        Last::Star(span) => match ending {
            Ending::Family => Err(ElabFault::Unknown(span.start)),
            Ending::Word => Ok(Parts {
                binders: types,
                end: None,
            }),
        },
    }
}

// A family with its arguments, after these binders of a type.
fn read_atom<'a>(
    reader: &'a Reader<'a>,
    names: &mut BoundNames,
    scope: &'a LocalContext<'a>,
    types: Vec<Ty>,
    span: Span,
    arguments: &'a TermTrees,
) -> Result<Parts, ElabFault>
    requires closed { reader.now.metas.now ≡ [] }
    requires known { KnownAt reader.now.sig.now (with_context (types_of types.items) (typing_by reader.now scope.now)) names.old }
    ensures read { IfOk result (λ parts. ReadsAfter endings.Family (whole_text reader.now) reader.now.sig.now names.old (typing_by reader.now scope.now) (types_of types.items) (family span arguments.now) (types_of parts.binders.items) (option_map atom_of parts.end)) }
    ensures refused { IfErr result (IsRefusal (RefusesAfter endings.Family (whole_text reader.now) reader.now.sig.now names.old (typing_by reader.now scope.now) (types_of types.items) (family span arguments.now))) }
    ensures names { OnOk result (names.new ≡ names.old) }
{
    let inside = LocalContext::Under(types.as_slice(), &*scope);
    match read_family(&*reader, names, &inside, span, &*arguments) {
        Err(fault) => Err(fault),
        Ok(atom) => Ok(Parts {
            binders: types,
            end: Some(atom),
        }),
    }
}
