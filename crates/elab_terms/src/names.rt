//! What names stand for in a signature.

ghost use Rattle.std.specs.Prelude.{◌≡◌};
ghost use Rattle.lf_definitions.specs.Signatures.{constant_names, family_names};
ghost use Rattle.basics.specs.Places.{place_of};

use lf_terms::{Found, Signature};

/// The constant that has the name. It takes no memory.
pub fn constant_named(sig: &Signature, name: &[u8]) -> Option<u32>
    ensures { result ≡ place_of (constant_names sig.now) name.now }
{
    sig.is_formed();
    match sig.find_bytes(name) {
        Found::Const(constant) => Some(constant),
        Found::Family(_) => None,
        Found::Absent => None,
    }
}

/// The family that has the name. It takes no memory.
pub fn family_named(sig: &Signature, name: &[u8]) -> Option<u32>
    ensures { result ≡ place_of (family_names sig.now) name.now }
{
    sig.is_formed();
    match sig.find_bytes(name) {
        Found::Family(family) => Some(family),
        Found::Const(_) => None,
        Found::Absent => None,
    }
}
