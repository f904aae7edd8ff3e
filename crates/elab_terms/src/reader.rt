//! What terms, types and kinds are read with.

use lf_terms::{GoalList, Signature};
use std::alloc::Global;

/// The text, the signature that its names are of, and the goals that metavariables stand for: none in a file.
#[derive(Clone, Copy)]
pub struct Reader<'a> {
    pub alloc: Global,
    pub source: &'a [u8],
    pub sig: &'a Signature,
    pub metas: &'a GoalList,
}
