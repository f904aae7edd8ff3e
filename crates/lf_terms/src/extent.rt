//! What is kept beside each shared block: which variables may occur in it, and whether metavariables may.

ghost use Rattle.std.specs.Prelude.{◌≡◌, ◌<◌, ◌≤◌, IsTrue, false};
ghost use Rattle.lf_terms.specs.Extents.{Covers, IsWider, IsOutside, IsHead, no_bound};
ghost use Rattle.lf_terms.specs.Terms.{head_of};

use crate::head::Head;

/// A number that is greater than each variable that occurs, and whether a metavariable may occur. The
/// greatest number bounds nothing.
#[derive(Clone, Copy)]
pub struct Extent {
    reach: u32,
    metas: bool,
}

impl Extent {
    /// Of what no variable and no metavariable occurs in.
    pub fn new() -> Extent
        ensures reach { result.reach ≡ 0 }
        ensures metas { result.metas ≡ false }
    {
        Extent {
            reach: 0,
            metas: false,
        }
    }

    /// Of a head.
    pub fn of_head(head: Head) -> Extent
        ensures { Covers result (IsHead (head_of head)) }
    {
        match head {
            Head::Bound(number) => Extent {
                reach: if number < u32::MAX {
                    number + 1
                } else {
                    number
                },
                metas: false,
            },
            Head::Const(_) => Extent::new(),
            Head::Meta(_) => Extent {
                reach: 0,
                metas: true,
            },
        }
    }

    /// Of two things together.
    pub fn joined(self, other: Extent) -> Extent
        ensures first { IsWider self result }
        ensures second { IsWider other result }
    {
        Extent {
            reach: self.reach.max(other.reach),
            metas: self.metas || other.metas,
        }
    }

    /// Of the same, from outside so many of the binders above it.
    pub fn outside(self, count: usize) -> Extent
        ensures { IsOutside self count result }
    {
        if self.reach == u32::MAX {
            return self;
        }
        let reach = self.reach as usize;
        Extent {
            reach: reach.saturating_sub(count) as u32,
            metas: self.metas,
        }
    }

    /// Whether no variable can occur that is outside so many binders.
    pub fn is_within(self, depth: u32) -> bool
        ensures { IsTrue result → (self.reach ≤ depth) × (self.reach < no_bound) }
    {
        self.reach <= depth && self.reach < u32::MAX
    }

    /// Whether a metavariable may occur.
    pub fn has_metas(self) -> bool
        ensures { result ≡ self.metas }
    {
        self.metas
    }
}
