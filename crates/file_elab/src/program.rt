//! Programs.

use crate::theorem::TheoremList;
use lf_terms::Signature;
use rule_sets::RuleBook;

/// What a file declares: its families and constants, its rules with the two built-in ones before them, and
/// its theorems.
#[derive(Drop)]
pub struct Program {
    pub sig: Signature,
    pub rules: RuleBook,
    pub theorems: TheoremList,
}
