//! Declarations of theorems.

ghost use Rattle.std.specs.Prelude.{◌≡◌, ℕ, List, map, IfOk, IfErr, OnOk, OnErr};
ghost use Rattle.elab_terms.specs.KnownTypes.{IsRefusal};
ghost use Rattle.elab_terms.specs.Names.{text_at};
ghost use Rattle.file_elab.specs.ProgramParts.{DeclaresTheorem, RefusesTheorem};
ghost use Rattle.basics.specs.Limits.{most_theorems};
ghost use Rattle.file_elab.specs.Programs.{MayBeNamed, RefusesName};
ghost use Rattle.file_elab.specs.Theorems.{AreFormed};
ghost use Rattle.file_trees.specs.declared.decl_tree.DeclTree.TheVariants as declarations;

use crate::theorem::{Theorem, TheoremList};
use basics::Name;
use basics::limits::MOST_THEOREMS;
use elab_terms::ElabFault;
use elab_terms::closed::closed_type;
use elab_terms::file_text::text;
use file_trees::{Span, TheoremTree};
use lf_terms::Signature;
use std::alloc::Global;

// The name of a theorem that is declared.
fn theorem_name(
    alloc: Global,
    source: &[u8],
    theorems: &TheoremList,
    name: Span,
) -> Result<Name, ElabFault>
    ensures name { IfOk result (λ word. word ≡ text_at source.now name) }
    ensures new { IfOk result (λ _. MayBeNamed (map (λ theorem. theorem.name) theorems.now) most_theorems (text_at source.now name)) }
    ensures refused { IfErr result (IsRefusal (RefusesName (map (λ theorem. theorem.name) theorems.now) most_theorems source.now name)) }
{
    let word = Name::from_slice(alloc, text(source, name))?;
    if let Some(_) = theorems.find(word.as_bytes()) {
        return Err(ElabFault::Taken(name.start));
    }
    if theorems.len() >= MOST_THEOREMS {
        return Err(ElabFault::TooMany(name.start));
    }
    Ok(word)
}

/// Declares a theorem with its type, which is well formed, or answers why not, and then the theorems are as
/// they were.
pub fn declare_theorem(
    alloc: Global,
    source: &[u8],
    sig: &Signature,
    theorems: &mut TheoremList,
    tree: &TheoremTree,
) -> Result<(), ElabFault>
    ensures declared { IfOk result (λ _. DeclaresTheorem source.now sig.now theorems.old (declarations.Theorem tree.now) theorems.new) }
    ensures formed { OnOk result (AreFormed sig.now theorems.old → AreFormed sig.now theorems.new) }
    ensures refused { IfErr result (IsRefusal (RefusesTheorem source.now sig.now theorems.old (declarations.Theorem tree.now))) }
    ensures err { OnErr result (theorems.new ≡ theorems.old) }
{
    match theorem_name(alloc, source, &*theorems, tree.name) {
        Err(fault) => Err(fault),
        Ok(word) => match closed_type(alloc, source, sig, &tree.statement) {
            Err(fault) => Err(fault),
            Ok(ty) => {
                let Ok(_) = theorems.push(alloc, Theorem { name: word, ty }) else {
                    return Err(ElabFault::NoMemory);
                };
                Ok(())
            }
        },
    }
}
