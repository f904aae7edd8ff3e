//! What a check answers.

ghost use Rattle.std.specs.Prelude.{◌≡◌};
ghost use Rattle.lf_kernel.specs.Checks.{answer};

use crate::path::turned;
use basics::{Ids, Path};

/// Whether a term has a type, or a type is well formed, or else the path to the part at which it first
/// fails.
#[derive(Drop)]
pub enum Check {
    Well,
    Ill(Path),
}

// The answer of a walk, whose path is kept from its last step to its first.
pub fn answer_of(found: Option<Ids>) -> Check
    ensures { result ≡ answer found }
{
    match found {
        None => Check::Well,
        Some(path) => Check::Ill(turned(path)),
    }
}
