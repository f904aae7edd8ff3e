//! Declarations of families and constants.

ghost use Rattle.std.specs.Prelude.{◌≡◌, IfOk, IfErr, OnErr};
ghost use Rattle.lf_definitions.specs.Signatures.{names_of};
ghost use Rattle.elab_terms.specs.KnownTypes.{IsRefusal};
ghost use Rattle.elab_terms.specs.Names.{text_at};
ghost use Rattle.file_elab.specs.ProgramParts.{DeclaresSymbol, RefusesSymbol};
ghost use Rattle.basics.specs.Limits.{most_symbols};
ghost use Rattle.file_elab.specs.Programs.{MayBeNamed, RefusesName};
ghost use Rattle.file_trees.specs.declared.decl_tree.DeclTree.TheVariants as declarations;

use basics::Name;
use basics::limits::MOST_SYMBOLS;
use elab_terms::ElabFault;
use elab_terms::closed::{closed_kind, closed_type};
use elab_terms::file_text::text;
use file_trees::{Span, TypeTree};
use lf_terms::Signature;
use std::alloc::Global;

// The name of a family or a constant that is declared.
fn symbol_name(alloc: Global, source: &[u8], sig: &Signature, name: Span) -> Result<Name, ElabFault>
    ensures name { IfOk result (λ word. word ≡ text_at source.now name) }
    ensures new { IfOk result (λ _. MayBeNamed (names_of sig.now) most_symbols (text_at source.now name)) }
    ensures refused { IfErr result (IsRefusal (RefusesName (names_of sig.now) most_symbols source.now name)) }
{
    let word = Name::from_slice(alloc, text(source, name))?;
    if let Some(_) = sig.order_of(&word) {
        return Err(ElabFault::Taken(name.start));
    }
    if sig.size() >= MOST_SYMBOLS {
        return Err(ElabFault::TooMany(name.start));
    }
    Ok(word)
}

/// Declares a family with its kind, or answers why not, and then the signature is as it was.
pub fn declare_family(
    alloc: Global,
    source: &[u8],
    sig: &mut Signature,
    name: Span,
    tree: &TypeTree,
) -> Result<(), ElabFault>
    ensures declared { IfOk result (λ _. DeclaresSymbol source.now sig.old (declarations.Family name tree.now) sig.new) }
    ensures refused { IfErr result (IsRefusal (RefusesSymbol source.now sig.old (declarations.Family name tree.now))) }
    ensures err { OnErr result (sig.new ≡ sig.old) }
{
    match symbol_name(alloc, source, &*sig, name) {
        Err(fault) => Err(fault),
        Ok(word) => match closed_kind(alloc, source, &*sig, tree) {
            Err(fault) => Err(fault),
            Ok(kind) => {
                let Ok(_) = sig.push_family(alloc, word, kind) else {
                    return Err(ElabFault::NoMemory);
                };
                Ok(())
            }
        },
    }
}

/// Declares a constant with its type, or answers why not, and then the signature is as it was.
pub fn declare_constant(
    alloc: Global,
    source: &[u8],
    sig: &mut Signature,
    name: Span,
    tree: &TypeTree,
) -> Result<(), ElabFault>
    ensures declared { IfOk result (λ _. DeclaresSymbol source.now sig.old (declarations.Const name tree.now) sig.new) }
    ensures refused { IfErr result (IsRefusal (RefusesSymbol source.now sig.old (declarations.Const name tree.now))) }
    ensures err { OnErr result (sig.new ≡ sig.old) }
{
    match symbol_name(alloc, source, &*sig, name) {
        Err(fault) => Err(fault),
        Ok(word) => match closed_type(alloc, source, &*sig, tree) {
            Err(fault) => Err(fault),
            Ok(ty) => {
                let Ok(_) = sig.push_const(alloc, word, ty) else {
                    return Err(ElabFault::NoMemory);
                };
                Ok(())
            }
        },
    }
}
