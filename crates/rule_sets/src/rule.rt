//! Rules.

use basics::{Ids, Name, Words};

/// When a rule is tried, and how it is weighed: normalisation and safe rules by their penalty,
/// lower ones first, and unsafe rules by their chance of success in percent, higher ones first.
#[derive(Clone, Copy, Debug, PartialEq, Eq)]
pub enum Phase {
    Norm(i32),
    Safe(i32),
    Unsafe(u8),
}

/// What a rule does with a goal.
#[derive(Clone, Copy, Debug, PartialEq, Eq)]
pub enum Builder {
    Apply,
    Constructors,
    Cases,
    Forward,
    Destruct,
    Assumption,
    Hyps,
}

/// A rule, its set, and what it is about: `subject` is the number of a constant, for
/// `Constructors` that of a family, and 0 for the built-in builders. `major` counts the arguments
/// of the subject's type from 1, and is 0 where none is chosen.
#[derive(Drop)]
pub struct Rule {
    pub name: Name,
    pub set: Name,
    pub phase: Phase,
    pub builder: Builder,
    pub subject: u32,
    pub major: u32,
}

/// The names of rule sets.
pub type Sets = Words;

/// Why a rule was not added: the first of these that holds.
#[derive(Drop)]
pub enum RuleFault {
    /// A rule has the name.
    Taken,
    /// As many rules stand as may.
    Full,
    /// An unsafe rule's number is above 100.
    Percent,
    /// The subject is no constant, or for `Constructors` no family with listed constructors.
    NoConst,
    /// The major argument is none of the subject's, or has binders; or the builder takes none.
    BadMajor,
    /// The constant has not 1 to 4 premises, or one of them has binders.
    Premises,
    /// Memory ran out. The rule comes back.
    NoMemory(Rule),
}

/// Why a list of constructors was not added.
#[derive(Drop)]
pub enum CtorFault {
    /// The family has a list.
    Taken,
    /// The entry at this place stands earlier in the list.
    Repeated(u32),
    /// The entry at this place is no constant, or its conclusion has another family.
    Other(u32),
    /// Memory ran out. The list comes back.
    NoMemory(Ids),
}
