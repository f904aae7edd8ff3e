//! Laws of the definitions, as the contracts of functions that do nothing.

ghost use Rattle.std.specs.Prelude.{ℕ, ◌↔◌, IsTrue};
ghost use Rattle.lf_definitions.specs.Syntax.{LfType};
ghost use Rattle.lf_definitions.specs.Occurrence.{OccursType};
ghost use Rattle.binder_marks.specs.Mentions.{mentions};

/// A type mentions a variable exactly where the variable occurs in it. It does nothing.
pub fn mentions_say_what_occurs()
    ensures { (n : ℕ) (a : LfType) → IsTrue (mentions n a) ↔ OccursType n a }
{}
