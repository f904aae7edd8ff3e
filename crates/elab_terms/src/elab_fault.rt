//! Why a file is refused.

use basics::NoMemory;
use std::alloc::{AllocError, AllocFailed};

/// The first thing that is wrong in a file, with its place in bytes.
#[derive(Clone, Copy, Debug, PartialEq, Eq)]
pub enum ElabFault {
    /// The name is taken, or a constructor is repeated.
    Taken(u32),
    /// A limit is reached.
    TooMany(u32),
    /// Nothing has the name that may stand there.
    Unknown(u32),
    /// An abstraction is applied.
    Redex(u32),
    /// A term has not the type that is wanted.
    IllTyped(u32),
    /// A rule is not one of its builder.
    BadRule(u32),
    /// Memory ran out.
    NoMemory,
}

impl From<NoMemory> for ElabFault {
    ghost use Rattle.std.specs.Prelude.{◌≡◌};
    ghost use Rattle.elab_terms.specs.declared.elab_fault.ElabFault.TheVariants as faults;

    ghost from_gives = { λ _ fault. fault ≡ faults.NoMemory };

    fn from(_refusal: NoMemory) -> ElabFault {
        ElabFault::NoMemory
    }
}

impl From<AllocError> for ElabFault {
    ghost use Rattle.std.specs.Prelude.{◌≡◌};
    ghost use Rattle.elab_terms.specs.declared.elab_fault.ElabFault.TheVariants as faults;

    ghost from_gives = { λ _ fault. fault ≡ faults.NoMemory };

    fn from(_refusal: AllocError) -> ElabFault {
        ElabFault::NoMemory
    }
}

impl<T: Drop> From<AllocFailed<T>> for ElabFault {
    ghost use Rattle.std.specs.Prelude.{◌≡◌};
    ghost use Rattle.elab_terms.specs.declared.elab_fault.ElabFault.TheVariants as faults;

    ghost from_gives = { λ _ fault. fault ≡ faults.NoMemory };

    fn from(_refusal: AllocFailed<T>) -> ElabFault {
        ElabFault::NoMemory
    }
}
