//! What is expanded.

use goal_book::GoalBook;
use meta_goals::Goals;
use std::alloc::Global;

/// A list that is to be expanded by the rules of a book, its first fresh number, and where memory comes from.
#[derive(Clone, Copy)]
pub struct Given<'a, 'b> {
    pub alloc: Global,
    pub book: &'a GoalBook<'b>,
    pub goals: &'a Goals,
    pub first: u32,
}
