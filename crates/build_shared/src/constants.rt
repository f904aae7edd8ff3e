//! Types of constants.

ghost use Rattle.std.specs.Prelude.{◌≡◌, option_map};
ghost use Rattle.lf_definitions.specs.Signatures.{constant_types};
ghost use Rattle.lf_definitions.specs.Typing.{type_at};
ghost use Rattle.lf_terms.specs.Types.{type_of};
ghost use Rattle.applications.specs.Candidates.{is_atomic};

use lf_terms::{Signature, Ty};

/// The type of a constant, if there is one of the number. It takes no memory.
pub fn constant_type(sig: &Signature, number: u32) -> Option<&Ty>
    ensures { option_map (λ ty. type_of ty.now) result ≡ type_at (constant_types sig.now) number }
{
    if number < sig.constants() {
        Some(sig.type_of(number))
    } else {
        None
    }
}

/// Whether a type has no binders. It takes no memory.
pub fn is_atomic(ty: &Ty) -> bool
    ensures { result ≡ is_atomic (type_of ty.now) }
{
    ty.binders.len() == 0
}
