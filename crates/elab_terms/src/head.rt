//! Names at the heads of terms and types.

ghost use Rattle.std.specs.Prelude.{◌≡◌, option_map};
ghost use Rattle.lf_terms.specs.Terms.{head_of};
ghost use Rattle.elab_terms.specs.Names.{family_of};
ghost use Rattle.elab_terms.specs.Names as names;

use crate::bound_names::BoundNames;
use crate::names::{constant_named, family_named};
use lf_terms::{Head, Signature};

/// What a name in a term stands for: the innermost binder that has it, or else a constant. It takes no
/// memory.
pub fn head_named(sig: &Signature, binders: &BoundNames, name: &[u8]) -> Option<Head>
    ensures { option_map head_of result ≡ names.named_head sig.now binders.now name.now }
{
    if let Some(number) = binders.find(name) {
        return Some(Head::Bound(number));
    }
    match constant_named(sig, name) {
        None => None,
        Some(constant) => Some(Head::Const(constant)),
    }
}

/// The family that a name in a type stands for, where no binder hides it. It takes no memory.
pub fn family_at(sig: &Signature, binders: &BoundNames, name: &[u8]) -> Option<u32>
    ensures { result ≡ family_of sig.now binders.now name.now }
{
    match binders.find(name) {
        None => family_named(sig, name),
        Some(_) => None,
    }
}
