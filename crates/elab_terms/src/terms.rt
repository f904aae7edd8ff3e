//! Reading a term against a type.

ghost use Rattle.std.specs.Prelude.{◌≡◌, ◌≤◌, [], IfOk, IfErr, OnOk, length, take};
ghost use Rattle.lf_definitions.specs.Syntax.{shapes_of_types};
ghost use Rattle.lf_definitions.specs.Renaming.{next_by, rename_context};
ghost use Rattle.lf_definitions.specs.Substitution.{stays};
ghost use Rattle.lf_terms.specs.Terms.{term_of, spine_of};
ghost use Rattle.lf_terms.specs.Types.{type_of};
ghost use Rattle.file_trees.specs.Trees.{leaf};
ghost use Rattle.file_trees.specs.Trees as trees;
ghost use Rattle.file_trees.specs.TermViews.{tree_of};
ghost use Rattle.elab_terms.specs.Applied.{base_of, arguments_of};
ghost use Rattle.elab_terms.specs.KnownTypes.{KnownAt, IsWanted, IsRefusal};
ghost use Rattle.elab_terms.specs.Domains.{Domains};
ghost use Rattle.elab_terms.specs.Readers.{whole_text, typing_by};
ghost use Rattle.elab_terms.specs.Terms.{ReadsTerm, RefusesTerm, ReadsArguments, RefusesArguments};

use crate::applied::{argument, base};
use crate::bound_names::BoundNames;
use crate::elab_fault::ElabFault;
use crate::file_text::text;
use crate::head::head_named;
use crate::reader::Reader;
use crate::results::{expand, left_type, type_after};
use file_trees::{BinderSpan, Span, TermTree, place};
use lf_kernel::head_type::{HeadType, type_of_head};
use lf_kernel::local_context::LocalContext;
use lf_terms::same::same_ty;
use lf_terms::shape_of::shapes_of;
use lf_terms::subst::put_type;
use lf_terms::{Body, Shapes, Term, Ty, Tys};

// An abstraction, and the tree that applies it to arguments.
#[derive(Clone, Copy)]
struct Abstraction<'a> {
    tree: &'a TermTree,
    binder: BinderSpan,
    body: &'a TermTree,
}

/// Reads a term at a type: names are resolved, and the term is made eta-long. The fault is the first.
#[cycle(read)]
pub fn read_term<'a>(
    reader: &'a Reader<'a>,
    names: &mut BoundNames,
    scope: &'a LocalContext<'a>,
    tree: &'a TermTree,
    wanted: &'a Ty,
) -> Result<Term, ElabFault>
    requires closed { reader.now.metas.now ≡ [] }
    requires known { KnownAt reader.now.sig.now (typing_by reader.now scope.now) names.old }
    requires wanted { IsWanted reader.now.sig.now (typing_by reader.now scope.now) (type_of wanted.now) }
    ensures read { IfOk result (λ t. ReadsTerm (whole_text reader.now) reader.now.sig.now names.old (typing_by reader.now scope.now) (tree_of tree.now) (type_of wanted.now) (term_of t)) }
    ensures refused { IfErr result (IsRefusal (RefusesTerm (whole_text reader.now) reader.now.sig.now names.old (typing_by reader.now scope.now) (tree_of tree.now) (type_of wanted.now))) }
    ensures names { OnOk result (names.new ≡ names.old) }
{
    match base(tree) {
        TermTree::Abs(binder, body) => {
            let abstraction = Abstraction {
                tree: &*tree,
                binder: *binder,
                body: body.term(),
            };
            read_abstraction(&*reader, names, &*scope, &abstraction, &*wanted)
        }
        TermTree::Leaf(span) => { read_application(reader, names, scope, tree, *span, wanted) }
        TermTree::App(..) => unreachable!(),
    }
}

// An abstraction: its body is read at the result type.
#[cycle(read)]
fn read_abstraction<'a>(
    reader: &'a Reader<'a>,
    names: &mut BoundNames,
    scope: &'a LocalContext<'a>,
    abstraction: &'a Abstraction<'a>,
    wanted: &'a Ty,
) -> Result<Term, ElabFault>
    requires closed { reader.now.metas.now ≡ [] }
    requires known { KnownAt reader.now.sig.now (typing_by reader.now scope.now) names.old }
    requires wanted { IsWanted reader.now.sig.now (typing_by reader.now scope.now) (type_of wanted.now) }
    requires base { base_of (tree_of abstraction.now.tree.now) ≡ trees.abstraction abstraction.now.binder (tree_of abstraction.now.body.now) }
    ensures read { IfOk result (λ t. ReadsTerm (whole_text reader.now) reader.now.sig.now names.old (typing_by reader.now scope.now) (tree_of abstraction.now.tree.now) (type_of wanted.now) (term_of t)) }
    ensures refused { IfErr result (IsRefusal (RefusesTerm (whole_text reader.now) reader.now.sig.now names.old (typing_by reader.now scope.now) (tree_of abstraction.now.tree.now) (type_of wanted.now))) }
    ensures names { OnOk result (names.new ≡ names.old) }
{
    match argument(abstraction.tree, 0) {
        Ok(_) => Err(ElabFault::Redex(abstraction.binder.opening)),
        Err(_) => {
            let binders = wanted.binders.as_slice();
            if binders.len() == 0 {
                return Err(ElabFault::IllTyped(abstraction.binder.opening));
            }
            let left = left_type(
                reader.alloc,
                &wanted.binders,
                wanted.family,
                &wanted.args,
                1,
            )?;
            let name = text(reader.source, abstraction.binder.name);
            names.push(reader.alloc, Some(name))?;
            let inside = LocalContext::Under(&binders[..1], scope);
            match read_term(reader, names, &inside, abstraction.body, &left) {
                Err(fault) => Err(fault),
                Ok(term) => {
                    names.pop();
                    Ok(Term::Lam(Body::new(reader.alloc, term)?))
                }
            }
        }
    }
}

// An application of a name.
#[cycle(read)]
fn read_application<'a>(
    reader: &'a Reader<'a>,
    names: &mut BoundNames,
    scope: &'a LocalContext<'a>,
    tree: &'a TermTree,
    span: Span,
    wanted: &'a Ty,
) -> Result<Term, ElabFault>
    requires closed { reader.now.metas.now ≡ [] }
    requires known { KnownAt reader.now.sig.now (typing_by reader.now scope.now) names.old }
    requires base { base_of (tree_of tree.now) ≡ leaf span }
    ensures read { IfOk result (λ t. ReadsTerm (whole_text reader.now) reader.now.sig.now names.old (typing_by reader.now scope.now) (tree_of tree.now) (type_of wanted.now) (term_of t)) }
    ensures refused { IfErr result (IsRefusal (RefusesTerm (whole_text reader.now) reader.now.sig.now names.old (typing_by reader.now scope.now) (tree_of tree.now) (type_of wanted.now))) }
    ensures names { OnOk result (names.new ≡ names.old) }
{
    let Some(head) = head_named(reader.sig, names, text(reader.source, span)) else {
        return Err(ElabFault::Unknown(span.start));
    };
    let Some(found) = type_of_head(reader.sig, reader.metas, scope, head)? else {
        unreachable!()
    };
    if let Ok(extra) = argument(tree, found.binders.len()) {
        return Err(ElabFault::IllTyped(place(extra)));
    }
    let shapes = shapes_of(reader.alloc, found.binders)?;
    match read_arguments(reader, names, scope, tree, &found, &shapes) {
        Err(fault) => Err(fault),
        Ok(terms) => {
            let count = terms.len();
            let made = type_after(
                reader.alloc,
                &found,
                &shapes.as_slice()[..count],
                terms.as_slice(),
            )?;
            if !same_ty(&made, wanted) {
                return Err(ElabFault::IllTyped(place(tree)));
            }
            Ok(expand(reader.alloc, head, terms, &made)?)
        }
    }
}

/// Reads the arguments of an application at the first of these binders, to which the variables outside
/// have risen so far.
#[cycle(read)]
pub fn read_arguments<'a>(
    reader: &'a Reader<'a>,
    names: &mut BoundNames,
    scope: &'a LocalContext<'a>,
    tree: &'a TermTree,
    head_type: &'a HeadType<'a>,
    shapes: &'a Shapes,
) -> Result<Vec<Term>, ElabFault>
    requires closed { reader.now.metas.now ≡ [] }
    requires known { KnownAt reader.now.sig.now (typing_by reader.now scope.now) names.old }
    requires domains { Domains reader.now.sig.now (typing_by reader.now scope.now) head_type.now.raise head_type.now.binders.now }
    requires shapes { shapes.now ≡ shapes_of_types head_type.now.binders.now }
    requires few { length (arguments_of (tree_of tree.now) []) ≤ length head_type.now.binders.now }
    ensures read { IfOk result (λ terms. ReadsArguments (whole_text reader.now) reader.now.sig.now names.old (typing_by reader.now scope.now) stays (arguments_of (tree_of tree.now) []) (take (length (arguments_of (tree_of tree.now) [])) (rename_context (next_by head_type.now.raise) head_type.now.binders.now)) (spine_of terms.items)) }
    ensures count { IfOk result (λ terms. length terms.items ≡ length (arguments_of (tree_of tree.now) [])) }
    ensures refused { IfErr result (IsRefusal (RefusesArguments (whole_text reader.now) reader.now.sig.now names.old (typing_by reader.now scope.now) stays (arguments_of (tree_of tree.now) []) (rename_context (next_by head_type.now.raise) head_type.now.binders.now))) }
    ensures names { OnOk result (names.new ≡ names.old) }
{
    let types = head_type.binders.as_slice();
    let shapes = shapes.as_slice();
    let mut terms = Vec::new(reader.alloc);
    for i in 0..types.len() {
        match argument(tree, i) {
            Err(_) => return Ok(terms),
            Ok(found) => {
                let ty = put_type(
                    reader.alloc,
                    &shapes[..i],
                    terms.as_slice(),
                    head_type.raise,
                    &types[i],
                )?;
                match read_term(&*reader, names, &*scope, found, &ty) {
                    Err(fault) => return Err(fault),
                    Ok(term) => terms.push(term)?,
                }
            }
        }
    }
    Ok(terms)
}
