//! Why a signature takes no further entry.

use basics::{Name, Path};

/// Why a family or a constant isn't added. The signature is then as it was.
#[derive(Drop)]
pub enum SigFault {
    /// The entry of this place, in the order in which entries were added, has the name.
    Taken(u32),
    /// No entry has the name, and 65,535 entries stand.
    Full,
    /// The kind or the type is not well formed, and first fails at this path.
    Ill(Path),
    /// Out of memory, with the name that was handed in.
    NoMemory(Name),
}
