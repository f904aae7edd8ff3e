//! What the symbols of rows are.

use lf_terms::{MetaShapes, Shapes};

/// The shapes of families and constants, which have one numbering, and of metavariables.
#[derive(Drop)]
pub(crate) struct Setting {
    pub(crate) constants: Shapes,
    pub(crate) metas: MetaShapes,
}
