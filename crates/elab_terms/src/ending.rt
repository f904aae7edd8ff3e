//! What stands at the end of a type and of a kind, which are read alike before it.

ghost use Rattle.std.specs.Prelude.{◌↔◌, IsTrue};
ghost use Rattle.elab_terms.specs.ReadBinders.{HasRoom};

use basics::limits::MOST_BINDERS;
use lf_terms::{Atom, Ty};

/// What is to stand at the end of a tree: the family of a type, or the word `type` of a kind.
#[derive(Clone, Copy)]
pub enum Ending {
    Family,
    Word,
}

/// What is read of a tree: the types of its binders, and the family at the end of a type.
#[derive(Drop)]
pub struct Parts {
    pub binders: Vec<Ty>,
    pub end: Option<Atom>,
}

/// Whether a binder may stand after so many. A kind has no limit of its own.
pub fn has_room(ending: Ending, count: usize) -> bool
    ensures { IsTrue result ↔ HasRoom ending count }
{
    match ending {
        Ending::Family => count < MOST_BINDERS,
        Ending::Word => true,
    }
}
