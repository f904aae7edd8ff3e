//! The binders of a type as they are written.

ghost use Rattle.std.specs.Prelude.{◌≡◌, option_copied};
ghost use Rattle.file_trees.specs.TypeViews.{binding_of};
ghost use Rattle.elab_terms.specs.ReadBinders.{domain_of, binding_name};
ghost use Rattle.elab_terms.specs.ReadBinders as prefixes;
ghost use Rattle.elab_terms.specs.Types.{classifier_place};

use crate::file_text::text;
use file_trees::{Binder, Last, TypeTree};

/// The place of a type: its first brace, or that of the left side of its arrow, or its family's name.
#[cycle(type_place)]
pub fn type_place(tree: &TypeTree) -> u32
    ensures { result ≡ classifier_place tree.now }
{
    let (binders, last) = tree.parts();
    let items = binders.as_slice();
    if items.len() > 0 {
        return binding_place(&items[0]);
    }
    match last {
        Last::Fam(span, _) => span.start,
        Last::Star(span) => span.start,
        Last::Group(_) => unreachable!(),
    }
}

/// The place at which a binder is refused where it is one too many.
#[cycle(type_place)]
pub fn binding_place(binding: &Binder) -> u32
    ensures { result ≡ prefixes.binding_place (binding_of binding.now) }
{
    match binding {
        Binder::Pi(binder, _) => binder.opening,
        Binder::Arrow(left) => type_place(left),
    }
}

/// The type of a binder.
pub fn domain(binding: &Binder) -> &TypeTree
    ensures { result.now ≡ domain_of (binding_of binding.now) }
{
    match binding {
        Binder::Pi(_, domain) => domain,
        Binder::Arrow(left) => left,
    }
}

/// The name that a binder binds.
pub fn bound_name<'a>(source: &'a [u8], binding: &Binder) -> Option<&'a [u8]>
    ensures { option_copied result ≡ binding_name source.now (binding_of binding.now) }
{
    match binding {
        Binder::Pi(binder, _) => Some(text(source, binder.name)),
        Binder::Arrow(_) => None,
    }
}
