//! What rules are asked.

use lf_terms::Signature;
use meta_goals::Goals;
use rule_sets::RuleBook;
use std::alloc::Global;

/// A question to the rules of a book over a signature, about the first goal of a list, and where memory comes from.
#[derive(Clone, Copy)]
pub struct Query<'a> {
    pub alloc: Global,
    pub sig: &'a Signature,
    pub rules: &'a RuleBook,
    pub goals: &'a Goals,
}
